//! Reading the values and the lines of a report in pieces, one line at a time.

ghost use Rattle.std.specs.Prelude.{◌≡◌, ◌<◌, ◌++◌, ◌∷◌, [], ℕ, List, IfOk, OnOk, take, true};
ghost use Rattle.wf_model.specs.Refutation as model;
ghost use Rattle.wf_model.specs.Report as reports;
ghost use Rattle.wf_report.specs.Parts.{PassesStep, PassesValue, ReadsValues, end_then, step_then, steps_then, value_then, values_then};
ghost use Rattle.wf_report.specs.Reads.{Parse, Reads};
ghost use Rattle.wf_report.specs.Windows.{CanGive};

use crate::fault::CertFault;
use crate::front::line_ahead;
use crate::halt::ReadStop;
use crate::reading::{Section, step_in, value_of};
use crate::window::{AtFront, Window};
use std::alloc::{AllocError, Global};
use std::io::Read;
use wf_base::lines::Line;
use wf_base::streams::Source;

/// Reads the lines `m A` of a map, up to the first other line, and returns their values.
///
/// Only the first `most` values are kept; the others are read and dropped, so `most` bounds the
/// memory.
///
/// # Errors
///
/// Returns [`ReadStop::SourceFailed`] if `source` fails, the text is too long, or memory runs out,
/// and [`ReadStop::BadReport`] with `TooLong` for a line past the limit of lines. A line without a
/// value is no error: it stays at the front.
pub fn read_values<C: Read>(
    alloc: Global,
    window: &mut Window,
    source: &mut Source<C>,
    most: usize,
) -> Result<Vec<u8>, ReadStop>
    requires { CanGive source.old window.old }
    ensures read { ReadsValues most source.old source.new window.old window.new result }
    ensures can { OnOk result (CanGive source.new window.new) }
{
    let mut values = Vec::new(alloc);
    'values: while let Some(value) = next_value(window, source)? {
        keep(&mut values, value, most)?;
    }
    Ok(values)
}

/// Appends `value` to `values`, unless they have `most` items already.
fn keep(values: &mut Vec<u8>, value: u8, most: usize) -> Result<(), AllocError>
    ensures { (done : List ℕ) → values.old.items ≡ take most done →
        OnOk result (values.new.items ≡ take most (done ++ value ∷ [])) }
{
    if values.len() >= most {
        return Ok(());
    }
    values.push(value)?;
    Ok(())
}

/// Returns the value in the line at the front of `window` and passes the line. Returns `None`, and
/// passes nothing, if the line is not a value, is malformed, or is missing.
fn next_value<C: Read>(window: &mut Window, source: &mut Source<C>) -> Result<Option<u8>, ReadStop>
    requires { CanGive source.old window.old }
    ensures value { (next : List ℕ → Parse) → Reads (values_then next) (value_then next)
        source.old source.new window.old window.new result }
    ensures passes { IfOk result (PassesValue window.old window.new) }
    ensures can { OnOk result (CanGive source.new window.new) }
{
    let found = window.find(source)?;
    let size = match found {
        AtFront::Line(size) => size,
        AtFront::Bad => return Ok(None),
        AtFront::End => return Ok(None),
    };
    let Some(value) = value_of(window.line(size)) else {
        return Ok(None);
    };
    window.pass(size);
    Ok(Some(value))
}

/// Reads one line of a refutation or a search, and passes it. Returns `None` at the line `end`, if
/// nothing follows it.
///
/// `part` says which lines may come; see [`Section`].
///
/// # Errors
///
/// Returns [`ReadStop::BadReport`] with `Syntax` and the line's number if the line is malformed,
/// missing, or not allowed in `part`, or if a byte follows `end`; with `TooLong` for a line past
/// the limit of lines. Returns [`ReadStop::SourceFailed`] if `source` fails or the text is too
/// long.
pub fn next_step<C: Read>(
    window: &mut Window,
    source: &mut Source<C>,
    part: Section,
) -> Result<Option<Line>, ReadStop>
    requires { CanGive source.old window.old }
    ensures step { (next : List model.Line → reports.Reading reports.Report) →
        Reads (steps_then part window.old.number next) (step_then part window.new.number next)
        source.old source.new window.old window.new result }
    ensures passes { IfOk result (PassesStep window.old window.new) }
    ensures can { OnOk result (CanGive source.new window.new) }
{
    let at = window.number();
    let size = line_ahead(window, source, at)?;
    if window.line(size) == b"end".as_slice() {
        window.pass(size);
        expect_end(window, source, at)?;
        return Ok(None);
    }
    let Some(step) = step_in(part, window.line(size)) else {
        return Err(ReadStop::BadReport(CertFault::Syntax(at)));
    };
    window.pass(size);
    Ok(Some(step))
}

/// Checks that the text ends after line `at`.
///
/// # Errors
///
/// Fails with `Syntax(at + 1)` if a byte follows.
fn expect_end<C: Read>(window: &mut Window, source: &mut Source<C>, at: u32) -> Result<(), ReadStop>
    requires can { CanGive source.old window.old }
    requires few { at < u32.MAX }
    ensures end { (next : List model.Line → reports.Reading reports.Report) →
        Reads (end_then at next) (λ done ls. next [])
        source.old source.new window.old window.new result }
    ensures ended { OnOk result (window.new.ended ≡ true) }
    ensures can { OnOk result (CanGive source.new window.new) }
{
    let found = window.find(source)?;
    match found {
        AtFront::End => Ok(()),
        AtFront::Bad => Err(ReadStop::BadReport(CertFault::Syntax(at + 1))),
        AtFront::Line(_) => Err(ReadStop::BadReport(CertFault::Syntax(at + 1))),
    }
}
