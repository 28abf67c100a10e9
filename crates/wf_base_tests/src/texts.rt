//! Tests of reading whole texts from a source and writing them to a sink.

use std::io;
use std::io::{Read, Write};
use std::test::Fail;
use wf_base::streams::{ReadFault, Sink, Source, WriteFault, read_all, write_whole};

/// A writer that takes no byte and never fails.
#[derive(Drop)]
pub struct Full;

impl Write for Full {
    fn write(&mut self, _buf: &[u8]) -> io::Result<usize> {
        Ok(0)
    }

    fn flush(&mut self) -> io::Result<()> {
        Ok(())
    }
}

/// A reader that gives line feeds without end, and counts them.
#[derive(Drop)]
pub struct LineFeeds<'a> {
    given: &'a mut usize,
}

impl<'a> LineFeeds<'a> {
    /// Creates a reader that adds the number of bytes it gives to `given`.
    pub(crate) fn new(given: &'a mut usize) -> LineFeeds<'a> {
        LineFeeds { given }
    }
}

impl Read for LineFeeds<'_> {
    fn read(&mut self, buf: &mut [u8]) -> io::Result<usize> {
        buf.fill(b'\n');
        *self.given = self.given.saturating_add(buf.len());
        Ok(buf.len())
    }
}

/// Checks that texts of lengths around the size of a page are read to their end.
#[test]
fn a_text_is_read_to_its_end(rt: HostRuntime) -> Result<(), Fail> {
    for length in [0usize, 1, 4095, 4096, 4097, 10_000] {
        let text = vec![in rt.alloc(); 7u8; length]?;
        let mut source = Source::new(text.as_slice());
        let read = read_all(rt.alloc(), &mut source, 10_000)?;
        let holds = read == text && source.failures() == 0;
        assert!(rt; holds, "at {length}");
    }
    Ok(())
}

/// Checks that reading a text that is too long takes one byte more than the limit.
#[test]
fn one_byte_more_than_the_most_is_taken(rt: HostRuntime) -> Result<(), Fail> {
    for most in [0usize, 1, 4095, 4096, 10_000] {
        let mut given = 0;
        let mut source = Source::new(LineFeeds::new(&mut given));
        let found = read_all(rt.alloc(), &mut source, most);
        let is_too_long = matches!(found, Err(ReadFault::TooLong));
        drop(source);
        assert_eq!(rt; (is_too_long, given), (true, most + 1), "at {most}");
    }
    Ok(())
}

/// Checks that texts are written whole, one after the other.
#[test]
fn a_text_is_written_whole(rt: HostRuntime) -> Result<(), Fail> {
    let mut written = Vec::new(rt.alloc());
    let mut sink = Sink::new(&mut written);
    let done = [write_whole(&mut sink, b"ab"), write_whole(&mut sink, &[])];
    sink.put("cde");
    let failures = sink.failures();
    drop(sink);
    assert_eq!(rt; (done, failures), ([Ok(()), Ok(())], 0));
    assert_eq!(rt; written.as_slice(), b"abcde".as_slice());
    Ok(())
}

/// Checks that a writer that takes no byte counts as failed.
#[test]
fn a_writer_that_takes_nothing_has_failed(rt: HostRuntime) -> Result<(), Fail> {
    let mut sink = Sink::new(Full);
    let done = write_whole(&mut sink, b"ab");
    let failures = sink.failures();
    sink.put("c");
    assert_eq!(rt; (done, failures, sink.failures()), (Err(WriteFault), 1, 2));
    Ok(())
}
