//! Writing a whole text to a writer that counts its failed calls.

ghost use Rattle.std.specs.Prelude.{◌≡◌, ◌+◌, ◌-◌, ◌<◌, if◌then◌else◌, false, is_err, not};
ghost use Rattle.std.specs.Io.KnownBytes.{Keeps, WriteAppends};
ghost use Rattle.std.specs.Io.{WritesAtMost};
ghost use Rattle.wf_base.specs.Streams.Ends.{CanWrite, took_nothing};
ghost use Rattle.wf_base.specs.Streams.Texts.{SendsText, Tells, WritesText};

use std::fmt::Display;
use std::io;
use std::io::Write;
use std::marker::Model;

/// A writer with a count of its failed calls, and a flag: whether its last call was a flush that
/// succeeded.
///
/// A call of the writer fails if it returns an error, or takes no byte of a piece that has one.
/// Contracts see what the writer holds, if that is known, the count and the flag.
#[derive(Drop)]
pub struct Sink<W: Write> {
    writer: W,
    failures: u64,
    flushed: bool,
}

impl<W: Write> Model for Sink<W> {
    ghost use Rattle.wf_base.specs.Streams.Seen.{Writing};

    ghost Value = { Writing };

    ghost view = { λ s. record {
      held = W.contents s.writer;
      failures = s.failures;
      flushed = s.flushed;
    } };
}

impl<W: Write> Sink<W> {
    /// Creates a sink over `writer`, with no failed calls and not flushed.
    pub fn new(writer: W) -> Sink<W>
        ensures { result
            ≡ record { held = W.contents writer; failures = 0; flushed = false } }
    {
        Sink {
            writer,
            failures: 0,
            flushed: false,
        }
    }

    /// Returns how many calls of the writer have failed.
    pub fn failures(&self) -> u64
        ensures { result ≡ self.now.failures }
    {
        self.failures
    }

    /// Calls the writer once with `piece`, and returns how many bytes it took.
    ///
    /// # Errors
    ///
    /// Returns the writer's error, also if the call was interrupted. The call then counts as
    /// failed; so does one that takes no byte of a `piece` that has one.
    pub fn write(&mut self, piece: &[u8]) -> io::Result<usize>
        requires { CanWrite self.old }
        ensures bound { WritesAtMost result piece.now }
        ensures bytes { WriteAppends self.old.held self.new.held result piece.now }
        ensures failures { self.new.failures
            ≡ self.old.failures + (if took_nothing result piece.now then 1 else 0) }
        ensures flushed { self.new.flushed ≡ false }
    {
        self.flushed = false;
        let answer = self.writer.write(piece);
        let failed = match &answer {
            Ok(n) => *n == 0 && !piece.is_empty(),
            Err(_) => true,
        };
        if failed {
            self.failures += 1;
        }
        answer
    }

    /// Writes the display form of `text` without allocating.
    ///
    /// This returns nothing: a failure raises [`Sink::failures`] by one, and it is then unknown how
    /// much was written.
    pub fn put<D: Display + Drop>(&mut self, text: D)
        requires { CanWrite self.old }
        ensures told { Tells self.old self.new (D.output text) }
        ensures flushed { self.new.flushed ≡ false }
    {
        self.flushed = false;
        if self.writer.write_fmt(text).is_err() {
            self.failures += 1;
        }
    }

    /// Flushes the writer once.
    ///
    /// # Errors
    ///
    /// Returns the writer's error. The call then counts as failed, and the sink as not flushed.
    pub fn flush(&mut self) -> io::Result<()>
        requires { CanWrite self.old }
        ensures bytes { Keeps self.old.held self.new.held }
        ensures failures { self.new.failures
            ≡ self.old.failures + (if is_err result then 1 else 0) }
        ensures flushed { self.new.flushed ≡ not (is_err result) }
    {
        let answer = self.writer.flush();
        self.flushed = answer.is_ok();
        if answer.is_err() {
            self.failures += 1;
        }
        answer
    }
}

/// The error of a text that was not written whole, because a call of the writer failed.
#[derive(Clone, Copy, Debug, PartialEq, Eq)]
pub struct WriteFault;

/// Writes all of `text` to `sink` and flushes it.
///
/// # Errors
///
/// Returns `WriteFault` at the first call of the writer that fails. `sink` has then taken a
/// beginning of `text`, and nothing else.
pub fn write_whole<W: Write>(sink: &mut Sink<W>, text: &[u8]) -> Result<(), WriteFault>
    requires { CanWrite sink.old }
    ensures { WritesText sink.old sink.new text.now result }
{
    send(sink, text)?;
    match sink.flush() {
        Ok(()) => Ok(()),
        Err(_) => Err(WriteFault),
    }
}

/// Writes all of `text` to `sink`, without a flush.
pub(crate) fn send<W: Write>(sink: &mut Sink<W>, text: &[u8]) -> Result<(), WriteFault>
    requires { CanWrite sink.old }
    ensures { SendsText sink.old sink.new text.now result }
{
    let mut written = 0;
    while written < text.len() {
        match sink.write(&text[written..]) {
            Ok(0) => return Err(WriteFault),
            Ok(n) => written += n,
            Err(_) => return Err(WriteFault),
        }
    }
    Ok(())
}
