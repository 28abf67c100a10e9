//! Reading the lines of a report without judging them.

ghost use Rattle.std.specs.Prelude.{◌≡◌, OnOk, true};
ghost use Rattle.wf_report.specs.Parts.{AreAny, AreAnyValues, IsAnyBody, ReadsBody, ReadsMap, ReadsSteps};
ghost use Rattle.wf_report.specs.Windows.{CanGive};

use crate::front::AnswerKind;
use crate::halt::ReadStop;
use crate::lines::{next_step, read_values};
use crate::reading::{FIRST_LINE, Section};
use crate::window::Window;
use std::alloc::Global;
use std::io::Read;
use wf_base::streams::Source;

/// Reads the body of a report, of kind `answer`, to the end of the text. Checks the grammar only
/// and keeps nothing.
///
/// # Errors
///
/// Returns [`ReadStop::BadReport`] with `Syntax` at the first line that is malformed or not
/// allowed, or `TooLong` past the limit of lines, and [`ReadStop::SourceFailed`] if `source` fails,
/// the text is too long, or memory runs out.
pub fn skim_body<C: Read>(
    alloc: Global,
    window: &mut Window,
    source: &mut Source<C>,
    answer: AnswerKind,
) -> Result<(), ReadStop>
    requires can { CanGive source.old window.old }
    requires number { window.old.number ≡ FIRST_LINE }
    ensures read { ReadsBody answer IsAnyBody source.old source.new window.old window.new result }
    ensures ended { OnOk result (window.new.ended ≡ true) }
    ensures can { OnOk result (CanGive source.new window.new) }
{
    match answer {
        AnswerKind::Nothing => skim_steps(window, source, Section::Refutation),
        AnswerKind::Map => skim_values(alloc, window, source, Section::Values),
        AnswerKind::Least => skim_values(alloc, window, source, Section::Search),
    }
}

/// Reads the values of a map and the lines of `part` after them, and keeps none.
fn skim_values<C: Read>(
    alloc: Global,
    window: &mut Window,
    source: &mut Source<C>,
    part: Section,
) -> Result<(), ReadStop>
    requires can { CanGive source.old window.old }
    requires number { window.old.number ≡ FIRST_LINE }
    ensures read { ReadsMap part AreAnyValues source.old source.new window.old window.new result }
    ensures ended { OnOk result (window.new.ended ≡ true) }
    ensures can { OnOk result (CanGive source.new window.new) }
{
    read_values(alloc, window, source, 0)?;
    skim_steps(window, source, part)
}

/// Reads the lines of `part` up to `end`, which must end the text. Checks the grammar only and
/// keeps nothing.
///
/// # Errors
///
/// Returns the errors of [`next_step`].
pub fn skim_steps<C: Read>(
    window: &mut Window,
    source: &mut Source<C>,
    part: Section,
) -> Result<(), ReadStop>
    requires { CanGive source.old window.old }
    ensures read { ReadsSteps part AreAny source.old source.new window.old window.new result }
    ensures ended { OnOk result (window.new.ended ≡ true) }
    ensures can { OnOk result (CanGive source.new window.new) }
{
    'steps: while let Some(_) = next_step(window, source, part)? {}
    Ok(())
}
