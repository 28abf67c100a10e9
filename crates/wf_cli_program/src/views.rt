//! Lists the points of a protocol complex.

ghost use Rattle.std.specs.Prelude.{◌≡◌, ◌++◌, ◌∷◌, [], IfOk, OnOk, string_bytes, codes, length};
ghost use Rattle.wf_model.specs.Execution.{executions};
ghost use Rattle.wf_model.specs.Points.{points, last_view_count};
ghost use Rattle.wf_model.specs.Report.{line};
ghost use Rattle.wf_model.specs.ViewsText.{views_text};
ghost use Rattle.wf_base.specs.Streams.Ends.{CanCount};
ghost use Rattle.wf_complex.specs.Protocol.{IsProtocol};
ghost use Rattle.wf_run.specs.Texts.{IsTextOf};
ghost use Rattle.wf_cli_program.specs.Texts.{Lists};
ghost use Rattle.wf_cli_program.specs.Views.{header_text, appearances_text};

use std::alloc::{AllocError, Global};
use std::fmt::Write as _;
use std::io::{Read, Write};
use wf_base::lines::{put_number, put_words};
use wf_base::streams::{Sink, Source};
use wf_complex::Protocol;
use wf_run::{Answered, RunFault, TaskAnswer, run_over_task};
use wf_task::Task;

/// Reads a task from `source` to its end, and writes the list of the points of its protocol complex
/// after `rounds` rounds to `sink`, each with the execution and the process in which it appears
/// first.
///
/// # Errors
///
/// Returns a [`RunFault`] if the task or the number of rounds is refused, memory runs out, or a
/// read or a write fails. Nothing is written unless the write itself fails.
pub fn run_views<R: Read, W: Write>(
    alloc: Global,
    source: &mut Source<R>,
    sink: &mut Sink<W>,
    rounds: u32,
) -> Result<(), RunFault>
    requires { CanCount source.old sink.old }
    ensures { Lists views_text rounds source.old source.new sink.old sink.new result }
{
    run_over_task(alloc, source, sink, rounds, &PointList)
}

/// The list of the points of a task's protocol complex.
#[derive(Clone, Copy)]
struct PointList;

impl TaskAnswer for PointList {
    type Answer = ();

    ghost is_text = { λ list. IsTextOf views_text };

    fn of_task(&self, alloc: Global, task: &Task, rounds: u32) -> Answered<()> {
        let protocol = Protocol::build(alloc, task, rounds)?;
        Ok(((), write_views(alloc, task, &protocol)?))
    }
}

/// Returns the text that lists the points of `protocol`.
fn write_views(alloc: Global, task: &Task, protocol: &Protocol) -> Result<Vec<u8>, AllocError>
    requires { IsProtocol task.now protocol.now.rounds protocol.now }
    ensures { IfOk result (λ text. text.items ≡ views_text task.now protocol.now.rounds) }
{
    let mut text = String::new(alloc);
    PointsHeader::of(task, protocol).put(&mut text)?;
    put_points(&mut text, protocol)?;
    put_words(&mut text, "end")?;
    Ok(text.into_bytes())
}

/// The numbers in the first lines of the list of points.
#[derive(Clone, Copy)]
struct PointsHeader {
    processes: u8,
    rounds: u32,
    simplices: u32,
    views: u32,
    points: u32,
    executions: u32,
}

impl PointsHeader {
    /// Collects the numbers of a task and its protocol complex.
    fn of(task: &Task, protocol: &Protocol) -> PointsHeader
        requires { IsProtocol task.now protocol.now.rounds protocol.now }
        ensures processes { result.processes ≡ task.now.processes }
        ensures rounds { result.rounds ≡ protocol.now.rounds }
        ensures simplices { result.simplices ≡ length task.now.delta }
        ensures views { result.views ≡ last_view_count task.now protocol.now.rounds }
        ensures points { result.points ≡ length (points task.now protocol.now.rounds) }
        ensures executions { result.executions ≡ length (executions task.now protocol.now.rounds) }
    {
        PointsHeader {
            processes: task.processes(),
            rounds: protocol.rounds(),
            simplices: task.inputs().simplices().len() as u32,
            views: protocol.view_count(),
            points: protocol.points(),
            executions: protocol.executions(),
        }
    }

    /// Appends the first lines of the list, down to the number of executions, to `text`.
    fn put(&self, text: &mut String) -> Result<(), AllocError>
        ensures { OnOk result (string_bytes text.new
            ≡ string_bytes text.old ++ header_text self.now) }
    {
        put_words(text, "wfcheck views 1")?;
        put_number(text, "processes", self.processes as u32)?;
        put_number(text, "rounds", self.rounds)?;
        put_number(text, "simplices", self.simplices)?;
        put_number(text, "views", self.views)?;
        put_number(text, "points", self.points)?;
        put_number(text, "executions", self.executions)?;
        Ok(())
    }
}

/// Appends a line for each point to `text`.
fn put_points(text: &mut String, protocol: &Protocol) -> Result<(), AllocError>
    requires { length protocol.now.firsts ≡ length protocol.now.points }
    ensures { OnOk result (string_bytes text.new
        ≡ string_bytes text.old ++ appearances_text 0 protocol.now.firsts) }
{
    for point in 0..protocol.points() {
        let (execution, process) = protocol.first_of(point);
        put_point(text, point, execution, process)?;
    }
    Ok(())
}

/// Appends the line of `point`, which appears first in `execution` at `process`, to `text`.
fn put_point(text: &mut String, point: u32, execution: u32, process: u8) -> Result<(), AllocError>
    ensures { OnOk result (string_bytes text.new
        ≡ string_bytes text.old ++ line (codes "v") (point ∷ execution ∷ process ∷ [])) }
{
    writeln!(text, "v {point} {execution} {process}")?;
    Ok(())
}
