//! Writing a text in pieces, through a buffer.

ghost use Rattle.std.specs.Prelude.{◌≡◌, ◌+◌, ◌≤◌, ◌++◌, [], IfOk, decimal, length, take};
ghost use Rattle.wf_base.specs.Streams.Ends.{CanWrite};
ghost use Rattle.wf_base.specs.Streams.Texts.{PutsText, WritesText};

use crate::streams::sink::{Sink, WriteFault, send, write_whole};
use itoa::Buffer;
use std::alloc::{AllocError, Global};
use std::io::Write;
use std::marker::Model;

/// The number of bytes that a page has room for.
const ROOM: usize = 65_536;

/// A write buffer for a text that is written in pieces, and may be larger than memory. It passes
/// its bytes to a sink whenever the next piece does not fit.
///
/// All of its memory is allocated by [`Page::new`]; no other call allocates. Pass the same sink to
/// every call. Contracts see the bytes that the page holds.
#[derive(Drop)]
pub struct Page {
    room: Vec<u8>,
    filled: usize,
}

impl Model for Page {
    ghost use Rattle.std.specs.Prelude.{ℕ, List, take};
    ghost use Rattle.wf_base.specs.Streams.Paged.{IsPage};

    ghost Value = { List ℕ };

    ghost view = { λ p. take p.filled p.room.items };

    ghost invariant = { λ p. IsPage p.filled p.room.items };
}

impl Page {
    /// Creates an empty page, with room for 65,536 bytes.
    ///
    /// # Errors
    ///
    /// Returns `AllocError` if memory runs out.
    pub fn new(alloc: Global) -> Result<Page, AllocError>
        ensures { IfOk result (λ page. page ≡ []) }
    {
        let room = vec![in alloc; 0; ROOM]?;
        Ok(Page { room, filled: 0 })
    }

    /// Appends `piece` to the text. If the page has no room for it, then the bytes on the page are
    /// passed to `sink` first, and a `piece` that is larger than a whole page follows them
    /// directly.
    ///
    /// # Errors
    ///
    /// Returns `WriteFault` if a call of the writer fails. `sink` has then taken a beginning of the
    /// page's bytes followed by `piece`, and what the page holds is unspecified.
    pub fn put<W: Write>(&mut self, sink: &mut Sink<W>, piece: &[u8]) -> Result<(), WriteFault>
        requires { CanWrite sink.old }
        ensures { PutsText sink.old self.old sink.new self.new piece.now result }
    {
        if piece.len() > ROOM - self.filled {
            return self.put_overflowing(sink, piece);
        }
        hold(&mut self.room, self.filled, piece);
        self.filled += piece.len();
        Ok(())
    }

    /// Appends `piece` if the page has not enough room left for it. Passes the bytes on the page to
    /// `sink`, and then puts `piece` on the empty page, or passes it on too if it is larger than a
    /// whole page.
    fn put_overflowing<W: Write>(
        &mut self,
        sink: &mut Sink<W>,
        piece: &[u8],
    ) -> Result<(), WriteFault>
        requires { CanWrite sink.old }
        ensures { PutsText sink.old self.old sink.new self.new piece.now result }
    {
        send(sink, &self.room[..self.filled])?;
        self.filled = 0;
        if piece.len() > ROOM {
            return send(sink, piece);
        }
        hold(&mut self.room, 0, piece);
        self.filled = piece.len();
        Ok(())
    }

    /// Appends `number` in decimal digits.
    ///
    /// # Errors
    ///
    /// Returns `WriteFault` if a call of the writer fails, as [`Page::put`] does.
    pub fn put_number<W: Write>(
        &mut self,
        sink: &mut Sink<W>,
        number: u64,
    ) -> Result<(), WriteFault>
        requires { CanWrite sink.old }
        ensures { PutsText sink.old self.old sink.new self.new (decimal number) result }
    {
        let mut digits = Buffer::new();
        let text = digits.format(number);
        self.put(sink, text.as_bytes())
    }

    /// Passes the remaining bytes of the page to `sink` and flushes it.
    ///
    /// # Errors
    ///
    /// Returns `WriteFault` if a call of the writer fails. `sink` has then taken a beginning of the
    /// remaining bytes.
    pub fn finish<W: Write>(self, sink: &mut Sink<W>) -> Result<(), WriteFault>
        requires { CanWrite sink.old }
        ensures { WritesText sink.old sink.new self result }
    {
        write_whole(sink, &self.room[..self.filled])
    }
}

/// Copies `piece` into `room` at index `filled`. There must be enough room.
fn hold(room: &mut [u8], filled: usize, piece: &[u8])
    requires { filled + length piece.now ≤ length room.old }
    ensures { take (filled + length piece.now) room.new ≡ take filled room.old ++ piece.now }
{
    let end = filled + piece.len();
    room[filled..end].copy_from_slice(piece);
}
