//! Judging the body of a report while it is read.

ghost use Rattle.std.specs.Prelude.{◌≡◌, OnOk, true};
ghost use Rattle.wf_model.specs.Problem.{problem_of};
ghost use Rattle.wf_complex.specs.Protocol.{IsProtocol};
ghost use Rattle.wf_report_check.specs.Judged.{AreClaimed, IsBodyFault, IsLeastFault, IsMapFault, part_of};
ghost use Rattle.wf_report.specs.Parts.{ReadsBody, ReadsMap, ReadsSteps};
ghost use Rattle.wf_report.specs.Windows.{CanGive};
ghost use Rattle.wf_report.specs.declared.reading.Section.TheVariants.{Search, Values};

use crate::checking::{ReportChecker, judge_map, uniform_box};
use crate::judge::{LineChecker, LineContext, ReportClaim};
use crate::judging::judge_steps;
use std::alloc::Global;
use std::io::Read;
use std::thread::Threads;
use wf_base::streams::Source;
use wf_complex::Protocol;
use wf_report::{
    AnswerKind, CertFault, FIRST_LINE, ReadStop, Section, Window, read_values, skim_steps,
};
use wf_task::Task;

/// The context in which the body of a report is judged.
#[derive(Clone, Copy)]
pub struct CheckContext<'a, T> {
    /// The runtime that starts threads.
    pub rt: &'a T,
    /// The allocator.
    pub alloc: Global,
    /// The task that the report is about.
    pub task: &'a Task,
    /// The protocol complex of the task, for the report's number of rounds.
    pub protocol: &'a Protocol,
}

/// Reads the body of a report, of kind `answer`, to the end of the text, and judges it. Returns
/// `Ok(Ok(()))` if the body shows the answer, and otherwise `Ok(Err(fault))` with the first fault.
///
/// After a fault the lines are still read, since a malformed line is reported first. The memory
/// depends on the task and the rounds, and not on the length of the report.
///
/// # Errors
///
/// Returns [`ReadStop::BadReport`] if the text is no report, and [`ReadStop::SourceFailed`] if
/// `source` fails, the text is too long, or memory runs out. Memory that runs out during a line's
/// check is a fault, `OutOfMemory`.
pub fn judge_body<T: Threads + Sync, C: Read>(
    judge: &CheckContext<T>,
    window: &mut Window,
    source: &mut Source<C>,
    answer: AnswerKind,
) -> Result<Result<(), CertFault>, ReadStop>
    requires can { CanGive source.old window.old }
    requires number { window.old.number ≡ FIRST_LINE }
    requires built { let b = judge.now.protocol.now in IsProtocol judge.now.task.now b.rounds b }
    ensures read { ReadsBody answer
        (IsBodyFault (problem_of judge.now.task.now judge.now.protocol.now.rounds) answer)
        source.old source.new window.old window.new result }
    ensures ended { OnOk result (window.new.ended ≡ true) }
    ensures can { OnOk result (CanGive source.new window.new) }
{
    match answer {
        AnswerKind::Nothing => judge_lines(judge, window, source, ReportClaim::Nothing),
        AnswerKind::Map => judge_values(judge, window, source),
        AnswerKind::Least => judge_search(judge, window, source),
    }
}

/// Reads a map, after which there are no lines, and judges it.
fn judge_values<T: Threads + Sync, C: Read>(
    judge: &CheckContext<T>,
    window: &mut Window,
    source: &mut Source<C>,
) -> Result<Result<(), CertFault>, ReadStop>
    requires can { CanGive source.old window.old }
    requires number { window.old.number ≡ FIRST_LINE }
    requires built { let b = judge.now.protocol.now in IsProtocol judge.now.task.now b.rounds b }
    ensures read { let p = problem_of judge.now.task.now judge.now.protocol.now.rounds in
        ReadsMap Values (IsMapFault p) source.old source.new window.old window.new result }
    ensures ended { OnOk result (window.new.ended ≡ true) }
    ensures can { OnOk result (CanGive source.new window.new) }
{
    let points = judge.protocol.points() as usize;
    let values = read_values(judge.alloc, window, source, points + 1)?;
    skim_steps(window, source, Section::Values)?;
    Ok(judge_map(judge.rt, judge.task, judge.protocol, &values))
}

/// Reads a map and the lines of a search that leads to it, and judges both. If the map has a fault,
/// the lines are read but not judged.
fn judge_search<T: Threads + Sync, C: Read>(
    judge: &CheckContext<T>,
    window: &mut Window,
    source: &mut Source<C>,
) -> Result<Result<(), CertFault>, ReadStop>
    requires can { CanGive source.old window.old }
    requires number { window.old.number ≡ FIRST_LINE }
    requires built { let b = judge.now.protocol.now in IsProtocol judge.now.task.now b.rounds b }
    ensures read { let p = problem_of judge.now.task.now judge.now.protocol.now.rounds in
        ReadsMap Search (IsLeastFault p) source.old source.new window.old window.new result }
    ensures ended { OnOk result (window.new.ended ≡ true) }
    ensures can { OnOk result (CanGive source.new window.new) }
{
    let points = judge.protocol.points() as usize;
    let values = read_values(judge.alloc, window, source, points + 1)?;
    match judge_map(judge.rt, judge.task, judge.protocol, &values) {
        Ok(()) => judge_lines(judge, window, source, ReportClaim::Least(&values)),
        Err(fault) => {
            skim_steps(window, source, Section::Search)?;
            Ok(Err(fault))
        }
    }
}

/// Reads the lines up to `end` and judges whether they show `claim` of the root, in which each
/// point has all values of the task.
fn judge_lines<T: Threads + Sync, C: Read>(
    judge: &CheckContext<T>,
    window: &mut Window,
    source: &mut Source<C>,
    claim: ReportClaim,
) -> Result<Result<(), CertFault>, ReadStop>
    requires can { CanGive source.old window.old }
    requires built { let b = judge.now.protocol.now in IsProtocol judge.now.task.now b.rounds b }
    ensures read { let p = problem_of judge.now.task.now judge.now.protocol.now.rounds in
        ReadsSteps (part_of claim.entry) (AreClaimed p claim.entry window.old.number)
        source.old source.new window.old window.new result }
    ensures ended { OnOk result (window.new.ended ≡ true) }
    ensures can { OnOk result (CanGive source.new window.new) }
{
    let sets = uniform_box(judge.alloc, judge.task.values(), judge.protocol.points())?;
    let checker = ReportChecker::of(judge.alloc, judge.task)?;
    let rules = LineContext {
        task: judge.task,
        protocol: judge.protocol,
        checker: &checker,
        claim,
    };
    let lines = LineChecker::of(judge.alloc, sets, window.number());
    judge_steps(window, source, &rules, lines)
}
