//! Files of the file system.

use crate::service::files::Files;
use std::{fs, io, rt};

/// The files of the file system, opened by their paths.
#[derive(Drop)]
pub struct Disk<'a, R: rt::Files>(
    /// The runtime that opens the files.
    pub &'a R,
);

impl<R: rt::Files> Files for Disk<'_, R> {
    type File = R::File;

    fn open(&self, path: &str) -> io::Result<R::File> {
        fs::open(self.0, path)
    }
}

/// Occupies the descriptors of those standard streams that are closed. Call it first, and keep the
/// result until the program ends.
///
/// An opened file gets the lowest free descriptor, so if standard input is closed, the task's file
/// would otherwise be read as standard input. Each of the three calls opens the directory `/`,
/// which can be neither read nor written, so that a closed stream stays one whose reads and writes
/// fail.
pub fn occupy_closed_descriptors<R: rt::Files>(rt: &R) -> [io::Result<R::File>; 3] {
    [fs::open(rt, "/"), fs::open(rt, "/"), fs::open(rt, "/")]
}
