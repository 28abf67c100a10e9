//! The three lines of an obstruction's text before its nodes.

ghost use Rattle.std.specs.Prelude.{◌≡◌, ◌<◌, [], true, codes, length, IfOk};
ghost use Rattle.wf_model.specs.Report.{fixed_at, line, lines_of, number_at};
ghost use Rattle.wf_report.specs.Reading.{Gives, lacks};
ghost use Rattle.wf_tree_text.specs.Text.{begins_as_obstruction};

use wf_report::{CertFault, number_after, split_once};

/// The first line of an obstruction's text, without its line feed.
pub const FIRST_LINE: &str = "wfcheck obstruction 1";

/// Returns whether the first line of `text` is [`FIRST_LINE`], with a line feed at its end.
pub fn is_obstruction_text(text: &[u8]) -> bool
    ensures { result ≡ begins_as_obstruction text.now }
{
    let Some((found, _rest)) = split_once(text, b'\n') else {
        return false;
    };
    found == FIRST_LINE.as_bytes()
}

/// Reads the first line, which has to be [`FIRST_LINE`], and returns the text after it.
pub(crate) fn read_first(text: &[u8]) -> Result<&[u8], CertFault>
    ensures rest { let wanted = line (codes "wfcheck obstruction 1") [] in
        Gives (λ rest. lines_of rest.now) result (fixed_at 1 wanted (lines_of text.now)) }
    ensures shorter { IfOk result (λ rest. length rest.now < length text.now) }
{
    let Some((found, rest)) = split_once(text, b'\n') else {
        return Err(CertFault::Syntax(1));
    };
    if found != FIRST_LINE.as_bytes() {
        return Err(CertFault::Syntax(1));
    }
    Ok(rest)
}

/// Reads the first line of `text`, which has to be the word `name`, a space and a number. Returns
/// the number and the text after the line. `at` is the line number for a parse error.
pub(crate) fn read_number<'a>(
    text: &'a [u8],
    at: u32,
    name: &[u8],
) -> Result<(u32, &'a [u8]), CertFault>
    requires name { lacks 32 name.now ≡ true }
    requires word { lacks 10 name.now ≡ true }
    ensures rest { let read = number_at at name.now (lines_of text.now) in
        Gives (λ p. (p.0, lines_of p.1.now)) result read }
    ensures shorter { IfOk result (λ p. length p.1.now < length text.now) }
{
    let Some((found, rest)) = split_once(text, b'\n') else {
        return Err(CertFault::Syntax(at));
    };
    let Some(number) = number_after(found, name) else {
        return Err(CertFault::Syntax(at));
    };
    Ok((number, rest))
}
