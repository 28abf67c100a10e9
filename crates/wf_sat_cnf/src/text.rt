//! The clauses of a question as text, on a page that is written to a sink.

ghost use Rattle.std.specs.Prelude.{◌++◌, ◌∷◌, [], decimal};
ghost use Rattle.wf_base.specs.Streams.Ends.{CanWrite};
ghost use Rattle.wf_base.specs.Streams.Texts.{PutsText};

use crate::taker::TokenSink;
use std::io::Write;
use wf_base::streams::{Page, Sink, WriteFault};

impl<W: Write> TokenSink<Sink<W>> for Page {
    ghost use Rattle.wf_sat_cnf.specs.Tokens.{tokens_text};
    ghost use Rattle.wf_sat_cnf.specs.TakingLaws.{text_laws};

    type Fault = WriteFault;

    ghost takes = { λ tokens page sink page' sink' result.
        PutsText sink page sink' page' (tokens_text tokens) result };

    ghost is_open = { CanWrite };

    #[inline]
    fn positive(&mut self, to: &mut Sink<W>, variable: u32) -> Result<(), WriteFault> {
        put_number(self, to, variable)
    }

    #[inline]
    fn negative(&mut self, to: &mut Sink<W>, variable: u32) -> Result<(), WriteFault> {
        self.put(to, b"-")?;
        put_number(self, to, variable)
    }

    #[inline]
    fn end_clause(&mut self, to: &mut Sink<W>) -> Result<(), WriteFault> {
        self.put(to, b"0\n")
    }

    ghost laws = { text_laws };
}

/// Writes `number` and a space.
#[inline]
fn put_number<W: Write>(page: &mut Page, sink: &mut Sink<W>, number: u32) -> Result<(), WriteFault>
    requires { CanWrite sink.old }
    ensures { PutsText sink.old page.old sink.new page.new
        (decimal number ++ 32 ∷ []) result }
{
    page.put_number(sink, u64::from(number))?;
    page.put(sink, b" ")
}
