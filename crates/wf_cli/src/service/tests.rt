//! Tests of the opener of files.

use crate::service::{Files, Opener};
use std::io;
use std::test::Fail;

/// A collection of files with one file, `task.json`, which has two bytes.
#[derive(Drop)]
struct Shelf;

impl Files for Shelf {
    type File = &'static [u8];

    fn open(&self, path: &str) -> io::Result<&'static [u8]> {
        if path == "task.json" {
            Ok(b"{}".as_slice())
        } else {
            Err(io::Error::from(io::ErrorKind::NotFound))
        }
    }
}

/// Checks that an opener counts requests and failures, and that a failed request drops the stored
/// source.
#[test]
fn files_are_counted_and_the_last_is_kept(rt: HostRuntime) -> Result<(), Fail> {
    let mut opener = Opener::new(Shelf);
    let first = opener.open("task.json");
    assert!(rt; first.is_some(), "the file of the shelf is not opened");
    if let Some(source) = first {
        opener.keep(source);
    }
    let kept = opener.kept().is_some();
    assert_eq!(rt; (opener.asked(), opener.failures(), kept), (1, 0, true));
    let second = opener.open("another.json");
    assert!(rt; second.is_none(), "a file that is not there is opened");
    let kept = opener.kept().is_some();
    assert_eq!(rt; (opener.asked(), opener.failures(), kept), (2, 1, false));
    Ok(())
}
