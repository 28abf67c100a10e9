//! Reading a whole text from a reader that counts its failed calls.

ghost use Rattle.std.specs.Prelude.{◌≡◌, ◌+◌, ◌-◌, ◌^◌, ◌<◌, length, if◌then◌else◌, is_err};
ghost use Rattle.std.specs.Io.KnownBytes.{ReadConsumes};
ghost use Rattle.std.specs.Io.{ReadsAtMost};
ghost use Rattle.wf_base.specs.Streams.Ends.{count_of, CanRead};
ghost use Rattle.wf_base.specs.Streams.Texts.{ReadsText, bytes_of};

use std::alloc::Global;
use std::io;
use std::io::Read;
use std::marker::Model;

/// A reader with a count of its failed calls, and of the bytes that its other calls gave.
///
/// Contracts see the bytes that the reader has left, if they are known, and the two counts.
#[derive(Drop)]
pub struct Source<R: Read> {
    reader: R,
    failures: u64,
    taken: u64,
}

impl<R: Read> Model for Source<R> {
    ghost use Rattle.wf_base.specs.Streams.Seen.{Reading};

    ghost Value = { Reading };

    ghost view = { λ s. record {
      left = R.remaining s.reader;
      failures = s.failures;
      taken = s.taken;
    } };
}

impl<R: Read> Source<R> {
    /// Creates a source over `reader`, with both counts zero.
    pub fn new(reader: R) -> Source<R>
        ensures { result ≡ record { left = R.remaining reader; failures = 0; taken = 0 } }
    {
        Source {
            reader,
            failures: 0,
            taken: 0,
        }
    }

    /// Returns how many calls of the reader returned an error.
    pub fn failures(&self) -> u64
        ensures { result ≡ self.now.failures }
    {
        self.failures
    }

    /// Calls the reader once, and returns how many bytes it put at the front of `piece`. That is 0
    /// at the end of the input, or if `piece` is empty.
    ///
    /// # Errors
    ///
    /// Returns the reader's error, also if the call was interrupted. The call then counts as
    /// failed.
    pub fn read(&mut self, piece: &mut [u8]) -> io::Result<usize>
        requires failures { self.old.failures < 2 ^ 64 - 1 }
        requires taken { self.old.taken + length piece.old < 2 ^ 64 }
        ensures bound { ReadsAtMost result piece.new }
        ensures bytes { ReadConsumes self.old.left self.new.left result piece.new }
        ensures failures { self.new.failures
            ≡ self.old.failures + (if is_err result then 1 else 0) }
        ensures taken { self.new.taken ≡ self.old.taken + count_of result }
    {
        let answer = self.reader.read(piece);
        match &answer {
            Ok(n) => self.taken += *n as u64,
            Err(_) => self.failures += 1,
        }
        answer
    }
}

/// The largest number of bytes requested from the reader by one call.
const PIECE: usize = 4096;

/// The error of a text that could not be read whole.
#[derive(Clone, Copy, Debug, PartialEq, Eq)]
pub enum ReadFault {
    /// The reader has more bytes than the caller allows.
    TooLong,
    /// Memory ran out.
    OutOfMemory,
    /// A call of the reader returned an error. An interrupted call is one too: it is not repeated.
    Read,
}

/// Reads all remaining bytes of `source`, if there are at most `most`.
///
/// Each call of the reader takes at least one byte or ends the reading.
///
/// # Errors
///
/// - `TooLong` if there are more than `most` bytes; `most + 1` of them are then taken.
/// - `OutOfMemory` if memory runs out.
/// - `Read` at the first call of the reader that returns an error.
///
/// The bytes read so far are lost.
pub fn read_all<R: Read>(
    alloc: Global,
    source: &mut Source<R>,
    most: usize,
) -> Result<Vec<u8>, ReadFault>
    requires source { CanRead source.old }
    requires most { most < 2 ^ 32 }
    ensures { ReadsText most source.old source.new (bytes_of result) }
{
    let mut text = Vec::new(alloc);
    let mut piece = [0u8; PIECE];
    while text.len() <= most {
        let room = (most + 1 - text.len()).min(PIECE);
        match source.read(&mut piece[..room]) {
            Ok(0) => return Ok(text),
            Ok(n) => {
                if text.extend_from_slice(&piece[..n]).is_err() {
                    return Err(ReadFault::OutOfMemory);
                }
            }
            Err(_) => return Err(ReadFault::Read),
        }
    }
    Err(ReadFault::TooLong)
}
