//! Writing a whole argument, from its title to its summary.

ghost use Rattle.std.specs.Prelude.{◌≡◌, IfOk, map};
ghost use Rattle.wf_complex.specs.Protocol.{IsProtocol};
ghost use Rattle.wf_base.specs.Lines.Lines.{line_of};
ghost use Rattle.wf_report_explain.specs.Argument.Text.{argument_text};

use crate::argument::parts::put_lines;
use crate::argument::points::put_points;
use crate::argument::summary::{UsedExecutions, put_summary};
use crate::argument::title::put_title;
use crate::argument::used::{count, used_executions, used_points};
use std::alloc::{AllocError, Global};
use std::fmt::Write;
use wf_base::lines::Line;
use wf_complex::Protocol;
use wf_task::Task;

/// Returns the argument, in words, that `task` has no decision map. `lines`, the lines of a
/// refutation, are its steps and cases.
///
/// The text has a title, the points that the lines name, the steps and cases, and a summary.
/// `protocol` must be the complex of `task`. The lines are not checked: the text proves something
/// only if they are those of an accepted refutation.
///
/// # Errors
///
/// Returns `AllocError` if memory runs out.
pub fn write_argument(
    alloc: Global,
    task: &Task,
    protocol: &Protocol,
    lines: &[Line],
) -> Result<Vec<u8>, AllocError>
    requires { IsProtocol task.now protocol.now.rounds protocol.now }
    ensures { IfOk result (λ text.
        text.items ≡ argument_text task.now protocol.now.rounds (map line_of lines.now)) }
{
    let executions = used_executions(alloc, protocol, lines)?;
    let points = used_points(alloc, protocol, lines)?;
    let mut parts = String::new(alloc);
    let steps = put_lines(alloc, &mut parts, task, protocol, lines)?;
    let mut text = String::new(alloc);
    put_title(
        &mut text,
        protocol.rounds(),
        steps,
        count(executions.as_slice()),
        protocol.executions(),
    )?;
    writeln!(text, "Points")?;
    put_points(&mut text, protocol, task.symmetric(), points.as_slice())?;
    writeln!(text, "Argument")?;
    text.push_str(parts.as_str())?;
    let used = UsedExecutions::of(protocol, executions.as_slice());
    put_summary(alloc, &mut text, task.symmetric(), steps, &used)?;
    Ok(text.into_bytes())
}
