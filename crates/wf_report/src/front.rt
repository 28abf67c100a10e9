//! Reading the header of a report, and the line that says which kind of answer follows.

ghost use Rattle.std.specs.Prelude.{◌≡◌, ℕ, ◌+◌, ◌≤◌, IfOk, OnOk, length};
ghost use Rattle.wf_model.specs.Report as reports;
ghost use Rattle.wf_report.specs.declared.report.Header.{Header};
ghost use Rattle.wf_report.specs.Fronts.{FailsAt, answer_of};
ghost use Rattle.wf_report.specs.Parts.{body_then, fixed_then, header_then, number_then, report_from};
ghost use Rattle.wf_report.specs.Reads.{Parse, Reads};
ghost use Rattle.wf_report.specs.Windows.{CanGive, IsLineAt, longest_line};

use crate::fault::CertFault;
use crate::halt::ReadStop;
use crate::reading::{FIRST_LINE, number_after};
use crate::report::Header;
use crate::window::{AtFront, Window};
use std::io::Read;
use wf_base::streams::Source;

/// The kind of answer that a report gives, as named in its sixth line.
#[derive(Clone, Copy, Debug, PartialEq, Eq)]
pub enum AnswerKind {
    /// A decision map: `answer map`.
    Map,
    /// No decision map, with the lines of a refutation: `answer none`.
    Nothing,
    /// The least decision map, with the lines of the search that leads to it: `answer least`.
    Least,
}

/// Returns the length of the line at the front of `window`, without its line feed, and reads from
/// `source` as far as needed. The line is not passed.
///
/// # Errors
///
/// Fails with `Syntax(at)` if no whole line is at the front.
pub(crate) fn line_ahead<C: Read>(
    window: &mut Window,
    source: &mut Source<C>,
    at: u32,
) -> Result<usize, ReadStop>
    requires { CanGive source.old window.old }
    ensures line { (parse : Parse) → FailsAt at parse →
        Reads parse (λ size. parse) source.old source.new window.old window.new result }
    ensures front { IfOk result (λ size. IsLineAt size window.new) }
    ensures can { OnOk result (CanGive source.new window.new) }
    ensures number { OnOk result (window.new.number ≡ window.old.number) }
{
    let found = window.find(source)?;
    match found {
        AtFront::Line(size) => Ok(size),
        AtFront::Bad => Err(ReadStop::BadReport(CertFault::Syntax(at))),
        AtFront::End => Err(ReadStop::BadReport(CertFault::Syntax(at))),
    }
}

/// Passes the line at the front of `window`, which must be `wanted`.
///
/// # Errors
///
/// Fails with `Syntax(at)` if it is another line, or if there is none.
fn read_fixed<C: Read>(
    window: &mut Window,
    source: &mut Source<C>,
    at: u32,
    wanted: &[u8],
) -> Result<(), ReadStop>
    requires can { CanGive source.old window.old }
    requires short { length wanted.now ≤ longest_line }
    ensures fixed { (next : Parse) → Reads (fixed_then at wanted.now next) (λ done. next)
        source.old source.new window.old window.new result }
    ensures can { OnOk result (CanGive source.new window.new) }
    ensures number { OnOk result (window.new.number ≡ window.old.number + 1) }
{
    let size = line_ahead(window, source, at)?;
    if window.line(size) != wanted {
        return Err(ReadStop::BadReport(CertFault::Syntax(at)));
    }
    window.pass(size);
    Ok(())
}

/// Returns the number in the line at the front of `window`, which must be `name`, a space and a
/// number. Passes the line.
///
/// # Errors
///
/// Fails with `Syntax(at)` for any other line, or if there is none.
fn read_number<C: Read>(
    window: &mut Window,
    source: &mut Source<C>,
    at: u32,
    name: &[u8],
) -> Result<u32, ReadStop>
    requires can { CanGive source.old window.old }
    requires short { length name.now ≤ 10 }
    ensures read { (next : ℕ → Parse) → Reads (number_then at name.now next) next
        source.old source.new window.old window.new result }
    ensures can { OnOk result (CanGive source.new window.new) }
    ensures number { OnOk result (window.new.number ≡ window.old.number + 1) }
{
    let size = line_ahead(window, source, at)?;
    let Some(number) = number_after(window.line(size), name) else {
        return Err(ReadStop::BadReport(CertFault::Syntax(at)));
    };
    window.pass(size);
    Ok(number)
}

/// Reads the header of a report, which is its first five lines, from a new `window`.
///
/// # Errors
///
/// Returns [`ReadStop::BadReport`] with `Syntax` and the line's number at the first malformed line,
/// and [`ReadStop::SourceFailed`] if `source` fails or the text is too long. The lines before are
/// passed.
pub fn read_header<C: Read>(window: &mut Window, source: &mut Source<C>) -> Result<Header, ReadStop>
    requires { CanGive source.old window.old }
    ensures header { (next : Header → Parse) → Reads (header_then next) next
        source.old source.new window.old window.new result }
    ensures can { OnOk result (CanGive source.new window.new) }
    ensures number { OnOk result (window.new.number ≡ window.old.number + 5) }
{
    read_fixed(window, source, 1, b"wfcheck report 1")?;
    let processes = read_number(window, source, 2, b"processes")?;
    let rounds = read_number(window, source, 3, b"rounds")?;
    let points = read_number(window, source, 4, b"points")?;
    let executions = read_number(window, source, 5, b"executions")?;
    Ok(Header {
        processes,
        rounds,
        points,
        executions,
    })
}

/// Reads the sixth line of a report, which says the kind of answer. The header must have been
/// passed.
///
/// # Errors
///
/// Returns [`ReadStop::BadReport`] with `Syntax(6)` if the line is no answer line, and
/// [`ReadStop::SourceFailed`] if `source` fails or the text is too long. The line is passed only on
/// success.
pub fn read_answer<C: Read>(
    window: &mut Window,
    source: &mut Source<C>,
) -> Result<AnswerKind, ReadStop>
    requires { CanGive source.old window.old }
    ensures answer { (next : reports.Body → reports.Reading reports.Report) →
        Reads (report_from next) (body_then next)
        source.old source.new window.old window.new result }
    ensures can { OnOk result (CanGive source.new window.new) }
    ensures number { OnOk result (window.new.number ≡ window.old.number + 1) }
{
    let size = line_ahead(window, source, FIRST_LINE - 1)?;
    let Some(answer) = answer_of(window.line(size)) else {
        return Err(ReadStop::BadReport(CertFault::Syntax(FIRST_LINE - 1)));
    };
    window.pass(size);
    Ok(answer)
}

/// Returns the kind of answer that `line` names, or `None` if it is no answer line.
fn answer_of(line: &[u8]) -> Option<AnswerKind>
    ensures { result ≡ answer_of line.now }
{
    if line == b"answer map".as_slice() {
        return Some(AnswerKind::Map);
    }
    if line == b"answer none".as_slice() {
        return Some(AnswerKind::Nothing);
    }
    if line == b"answer least".as_slice() {
        return Some(AnswerKind::Least);
    }
    None
}
