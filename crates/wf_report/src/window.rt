//! A window on the text of a report, which is read from a source in pieces.

ghost use Rattle.std.specs.Prelude.{◌≡◌, ◌+◌, ◌++◌, ◌-◌, ◌^◌, ◌<◌, ◌≤◌, false, IfErr, IfOk, MatchOption, OnOk, length, slice_range, take};
ghost use Rattle.wf_base.specs.Streams.Texts.{bytes_of};
ghost use Rattle.wf_base.specs.declared.streams.source.ReadFault.TheVariants.{OutOfMemory};
ghost use Rattle.wf_report.specs.Windows.{CanGive, Collects, Drains, Fills, Finds, IsFront, IsLineAt, IsShort, ReadsBehind, Seeks, longest_line, passed, untouched, with_most, without_pending};

use crate::bytes::split_once;
use crate::fault::CertFault;
use crate::halt::ReadStop;
use std::alloc::{AllocError, Global};
use std::io;
use std::io::Read;
use std::marker::Model;
use wf_base::streams::{ReadFault, Source};

/// The largest number of bytes that a report may have, whatever limit its reader sets.
pub const MAX_REPORT_BYTES: u64 = 1 << 62;

/// The largest number of lines that a report may have. A text of fewer than 2^31 bytes can't reach
/// it.
pub const MAX_REPORT_LINES: u32 = 2_147_483_647;

/// The number of bytes in the buffer of a window.
const PIECE: usize = 65_536;

/// The number of bytes in the longest line of a report, `executions 4294967295`, without its line
/// feed.
const MAX_LINE_BYTES: usize = 21;

/// What was found at the front of a window.
#[derive(Clone, Copy, Debug)]
pub enum AtFront {
    /// A whole line; its number of bytes without the line feed.
    Line(usize),
    /// The beginning of a line that is too long, or a last line without a line feed.
    Bad,
    /// The end of the text.
    End,
}

/// A buffer with one piece of a report's text, which begins with the line to be read next.
///
/// Contracts see the bytes that were read but not yet consumed (`pending`), the number of bytes
/// read so far (`given`), the largest number that the text may have (`most`), the number of the
/// line at the front, and whether the end of the source was reached.
#[derive(Drop)]
pub struct Window {
    room: Vec<u8>,
    // the unpassed bytes are room[first..past]
    first: usize,
    past: usize,
    given: u64,
    // the largest number of bytes that the text may have
    most: u64,
    number: u32,
    is_ended: bool,
}

impl Model for Window {
    ghost use Rattle.std.specs.Prelude.{slice_range};
    ghost use Rattle.wf_report.specs.Windows.{Ahead, IsWindow};

    ghost Value = { Ahead };

    ghost view = { λ w. record {
      pending = slice_range w.room.items w.first w.past;
      given = w.given;
      most = w.most;
      number = w.number;
      ended = w.is_ended;
    } };

    ghost invariant = { λ w. IsWindow w.room.items w.first w.past };
}

impl Window {
    /// Creates a window before the first line of a text of at most `most` bytes. Reads nothing.
    ///
    /// # Errors
    ///
    /// Returns `AllocError` if memory runs out.
    pub fn new(alloc: Global, most: u64) -> Result<Window, AllocError>
        ensures { IfOk result (λ window. window ≡ untouched most) }
    {
        let room = vec![in alloc; 0u8; PIECE]?;
        Ok(Window {
            room,
            first: 0,
            past: 0,
            given: 0,
            most,
            number: 1,
            is_ended: false,
        })
    }

    /// Sets the number of bytes that the text may have to `most`. Bytes that were read before count
    /// as well.
    pub fn allow(&mut self, most: u64)
        ensures { self.new ≡ with_most most self.old }
    {
        self.most = most;
    }

    /// Returns the 1-based number of the line at the front.
    pub fn number(&self) -> u32
        ensures { result ≡ self.now.number }
    {
        self.number
    }

    /// Returns whether a read has reached the end of the source.
    fn is_ended(&self) -> bool
        ensures { result ≡ self.now.ended }
    {
        self.is_ended
    }

    /// Returns the first `size` of the bytes that were read and not passed.
    pub(crate) fn line(&self, size: usize) -> &[u8]
        requires { size ≤ length self.now.pending }
        ensures { result.now ≡ take size self.now.pending }
    {
        &self.pending()[..size]
    }

    /// Returns the bytes that were read and not passed yet.
    pub fn pending(&self) -> &[u8]
        ensures { result.now ≡ self.now.pending }
    {
        &self.room[self.first..self.past]
    }

    /// Passes the line of `size` bytes at the front, with its line feed.
    pub(crate) fn pass(&mut self, size: usize)
        requires { IsLineAt size self.old }
        ensures { self.new ≡ passed size self.old }
    {
        self.number += 1;
        self.first += size + 1;
    }

    /// Finds what is at the front, and reads as far as needed. Passes nothing.
    ///
    /// # Errors
    ///
    /// Returns [`ReadStop::BadReport`] with `TooLong` at a line numbered above
    /// [`MAX_REPORT_LINES`], and [`ReadStop::SourceFailed`] if a read fails or the text has more
    /// bytes than allowed.
    pub(crate) fn find<C: Read>(&mut self, source: &mut Source<C>) -> Result<AtFront, ReadStop>
        requires { CanGive source.old self.old }
        ensures found { Finds source.old source.new self.old self.new result }
        ensures can { OnOk result (CanGive source.new self.new) }
    {
        let found = self.seek(source)?;
        match found {
            AtFront::Line(_) => {
                if self.number() > MAX_REPORT_LINES {
                    return Err(ReadStop::BadReport(CertFault::TooLong));
                }
                Ok(found)
            }
            AtFront::Bad => Ok(found),
            AtFront::End => Ok(found),
        }
    }

    /// Finds what is at the front, whatever the line's number, and reads as far as needed. Passes
    /// nothing.
    ///
    /// # Errors
    ///
    /// Returns `Read` if a read fails, and `TooLong` if the text has more bytes than allowed. What
    /// was read before stays in the window.
    pub fn seek<C: Read>(&mut self, source: &mut Source<C>) -> Result<AtFront, ReadFault>
        requires { CanGive source.old self.old }
        ensures found { Seeks source.old source.new self.old self.new result }
        ensures can { OnOk result (CanGive source.new self.new) }
    {
        'fills: loop {
            match self.look() {
                Some(found) => return Ok(found),
                None => self.fill(source)?,
            }
        }
    }

    /// Returns what is at the front, or `None` if more bytes have to be read to know.
    fn look(&self) -> Option<AtFront>
        ensures { MatchOption result (IsShort self.now) (λ found. IsFront found self.now) }
    {
        let pending = self.pending();
        let near = &pending[..pending.len().min(MAX_LINE_BYTES + 1)];
        match split_once(near, b'\n') {
            Some((line, _)) => Some(AtFront::Line(line.len())),
            None if near.len() > MAX_LINE_BYTES => Some(AtFront::Bad),
            None if !self.is_ended() => None,
            None if near.is_empty() => Some(AtFront::End),
            None => Some(AtFront::Bad),
        }
    }

    /// Moves the unpassed bytes to the front of the buffer and reads one piece behind them. At most
    /// one byte is read beyond the allowed number, to notice that the text is too long.
    fn fill<C: Read>(&mut self, source: &mut Source<C>) -> Result<(), ReadFault>
        requires few { length self.old.pending ≤ longest_line }
        requires can { CanGive source.old self.old }
        requires going { self.old.ended ≡ false }
        ensures filled { Fills source.old source.new self.old self.new result }
        ensures can { OnOk result (CanGive source.new self.new) }
    {
        if self.given > self.most {
            return Err(ReadFault::TooLong);
        }
        let kept = self.past - self.first;
        move_to_front(&mut self.room, self.first, self.past);
        self.first = 0;
        self.past = kept;
        let space = (self.most + 1 - self.given).min((PIECE - kept) as u64) as usize;
        match read_behind(source, &mut self.room, kept, space) {
            Ok(0) => {
                self.is_ended = true;
                Ok(())
            }
            Ok(count) => {
                self.past += count;
                self.given += count as u64;
                Ok(())
            }
            Err(_) => Err(ReadFault::Read),
        }
    }

    /// Reads the text to its end and drops it, whether it is a report or not.
    ///
    /// # Errors
    ///
    /// Returns `Read` if a read fails, and `TooLong` if the text has more bytes than allowed.
    pub fn drain<C: Read>(&mut self, source: &mut Source<C>) -> Result<(), ReadFault>
        requires { CanGive source.old self.old }
        ensures { Drains source.old source.new self.old self.new result }
    {
        'fills: while !self.is_ended() {
            self.pass_all();
            self.fill(source)?;
        }
        Ok(())
    }

    /// Reads the text to its end. Returns the bytes that were read and not passed, and all that
    /// follow.
    ///
    /// # Errors
    ///
    /// Returns `Read` if a read fails, `TooLong` if the text has more bytes than allowed, and
    /// `OutOfMemory` if memory runs out. The bytes that were collected are then lost.
    pub fn read_rest<C: Read>(
        &mut self,
        alloc: Global,
        source: &mut Source<C>,
    ) -> Result<Vec<u8>, ReadFault>
        requires { CanGive source.old self.old }
        ensures { Collects source.old source.new self.old self.new (bytes_of result) }
    {
        let mut text = Vec::new(alloc);
        self.move_onto(&mut text)?;
        'fills: while !self.is_ended() {
            self.fill(source)?;
            self.move_onto(&mut text)?;
        }
        Ok(text)
    }

    /// Appends the unpassed bytes to `text` and empties the window. It is emptied even if memory
    /// runs out.
    fn move_onto(&mut self, text: &mut Vec<u8>) -> Result<(), ReadFault>
        ensures passed { self.new ≡ without_pending self.old }
        ensures moved { OnOk result (text.new.items ≡ text.old.items ++ self.old.pending) }
        ensures refused { IfErr result (λ fault. fault ≡ OutOfMemory) }
    {
        let moved = text.extend_from_slice(self.pending());
        self.pass_all();
        match moved {
            Ok(()) => Ok(()),
            Err(_) => Err(ReadFault::OutOfMemory),
        }
    }

    /// Drops all bytes in the window. The line number stays.
    fn pass_all(&mut self)
        ensures { self.new ≡ without_pending self.old }
    {
        self.first = 0;
        self.past = 0;
    }
}

/// Moves `room[first..past]` to the front of `room`.
fn move_to_front(room: &mut [u8], first: usize, past: usize)
    requires ordered { first ≤ past }
    requires within { past ≤ length room.old }
    ensures front { take (past - first) room.new ≡ slice_range room.old first past }
    ensures long { length room.new ≡ length room.old }
{
    room.copy_within(first..past, 0);
}

/// Reads at most `size` bytes from `source` into `room`, after its first `kept` bytes, with one
/// call. Returns the number of bytes read.
fn read_behind<C: Read>(
    source: &mut Source<C>,
    room: &mut [u8],
    kept: usize,
    size: usize,
) -> io::Result<usize>
    requires failures { source.old.failures < 2 ^ 64 - 1 }
    requires taken { source.old.taken + size < 2 ^ 64 }
    requires room { kept + size ≤ length room.old }
    ensures bytes { ReadsBehind source.old source.new kept size room.new result }
    ensures kept { take kept room.new ≡ take kept room.old }
    ensures long { length room.new ≡ length room.old }
{
    source.read(&mut room[kept..kept + size])
}
