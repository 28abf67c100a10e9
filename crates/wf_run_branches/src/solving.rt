//! Searches one branch of a task's question.

ghost use Rattle.std.specs.Prelude.{◌≡◌, IfOk, length};
ghost use Rattle.wf_model.specs.Problem.{problem_of};
ghost use Rattle.wf_sat_formula.specs.Branches.{branches};
ghost use Rattle.wf_base.specs.Streams.Ends.{CanCount, CanRead};
ghost use Rattle.wf_pool.specs.Answers.{IsAnswerAt};
ghost use Rattle.wf_report.specs.Reports.{body_of};
ghost use Rattle.wf_run_solve.specs.Heads.{IsHead};
ghost use Rattle.wf_run.specs.Run.{answered};
ghost use Rattle.wf_run_solve.specs.Texts.{lines_kept};
ghost use Rattle.wf_run_branches.specs.Branches.{AnswersBranch, AsksBranch};
ghost use Rattle.wf_run_branches.specs.Solving.{IsSolvedIn, SolvesBranch, part_text};

use crate::branch::BranchIndex;
use std::alloc::{AllocError, Global};
use std::io::{Read, Write};
use wf_base::streams::{Sink, Source};
use wf_pool::{Answer, BranchAnswer, Gate, solve_branch};
use wf_report::{Body, Header};
use wf_run::{Answered, RunFault, read_task, write_answer};
use wf_run_solve::{
    OptionalGate, Outcome, ReportSpec, body_of_map, kept_lines, pose_problem, report_text,
};
use wf_task::Task;

/// A search of one branch of a task's question. The observer, if there is one, is notified of the
/// complex and of the search as if the branch were the only one.
#[derive(Drop)]
pub struct BranchSearch<'a, G> {
    /// The number of rounds, and the form of the report.
    pub wanted: ReportSpec,
    /// The 0-based index of the branch.
    pub branch: u32,
    /// The observer, if there is one.
    pub gate: Option<&'a G>,
}

/// Reads a task from `source` to its end, and searches one branch of its question for the least
/// decision map there. Writes a part of the answer to `sink`: the lines that say which branch of
/// how many it is about, and a report in the requested form, whose answer is about that branch
/// only. Without a map, no decision map lies in the branch.
///
/// The part is complete in memory before the first byte is written. The search runs in the calling
/// thread, and always ends.
///
/// # Errors
///
/// Returns `RunFault::NoBranch` with the number of branches if the branch doesn't exist, and
/// another [`RunFault`] if the task is refused, memory runs out, or a read or a write fails.
/// Nothing is written unless the write itself fails.
pub fn run_solve_branch<G: Gate, R: Read, W: Write>(
    alloc: Global,
    source: &mut Source<R>,
    sink: &mut Sink<W>,
    search: &BranchSearch<G>,
) -> Result<Outcome, RunFault>
    requires { CanCount source.old sink.old }
    ensures { SolvesBranch search.now.wanted.rounds search.now.branch search.now.wanted.form
        source.old source.new sink.old sink.new result }
{
    let answer = search_source(alloc, source, search);
    write_answer(sink, answer)
}

/// Reads a task from `source`, searches the branch, and returns the outcome with the text of the
/// part.
fn search_source<G: Gate, R: Read>(
    alloc: Global,
    source: &mut Source<R>,
    search: &BranchSearch<G>,
) -> Answered<Outcome>
    requires { CanRead source.old }
    ensures { AsksBranch (IsSolvedIn search.now.wanted.form) search.now.wanted.rounds
        search.now.branch source.old source.new (answered result) }
{
    let task = read_task(alloc, source)?;
    search_task(alloc, &task, search)
}

/// Searches the branch of the task's question, and returns the outcome with the text of the part.
fn search_task<G: Gate>(alloc: Global, task: &Task, search: &BranchSearch<G>) -> Answered<Outcome>
    ensures { AnswersBranch (IsSolvedIn search.now.wanted.form) task.now
        search.now.wanted.rounds search.now.branch (answered result) }
{
    let wanted = search.wanted;
    let gate = OptionalGate { gate: search.gate };
    let (header, problem) = pose_problem(alloc, task, wanted.rounds, &gate)?;
    match solve_branch(
        alloc,
        &problem,
        kept_lines(wanted.form),
        search.branch,
        &gate,
    )? {
        BranchAnswer::Answered(answer, count) => {
            let index = BranchIndex {
                number: search.branch,
                count,
            };
            let head = PartHead { header, index };
            Ok(with_part(alloc, task, wanted, head, answer)?)
        }
        BranchAnswer::Missing(branches) => Err(RunFault::NoBranch { branches }),
    }
}

/// The beginning of a part: which branch it is about, and the header of its report.
#[derive(Clone, Copy)]
struct PartHead {
    header: Header,
    index: BranchIndex,
}

/// Returns the outcome of the branch search that gave `answer`, with the text of the part.
fn with_part(
    alloc: Global,
    task: &Task,
    wanted: ReportSpec,
    head: PartHead,
    answer: Answer,
) -> Result<(Outcome, Vec<u8>), AllocError>
    requires header { IsHead task.now wanted.rounds head.header }
    requires count { head.index.count ≡ length (branches task.now wanted.rounds) }
    requires answer { IsAnswerAt (problem_of task.now wanted.rounds) (lines_kept wanted.form)
        head.index.number answer }
    ensures { IfOk result (λ r. IsSolvedIn wanted.form task.now wanted.rounds head.index.number
        r.0 r.1.items) }
{
    match answer {
        Answer::Map(values, lines) => {
            let body = body_of_map(wanted.form, values, lines);
            Ok((
                Outcome::Map,
                part_text(alloc, task, wanted.rounds, head, body)?,
            ))
        }
        Answer::Nothing(lines) => {
            let body = Body::Nothing(lines);
            Ok((
                Outcome::Nothing,
                part_text(alloc, task, wanted.rounds, head, body)?,
            ))
        }
    }
}

/// Returns the text of the part that begins with `head` and has the answer `body`.
fn part_text(
    alloc: Global,
    task: &Task,
    rounds: u32,
    head: PartHead,
    body: Body,
) -> Result<Vec<u8>, AllocError>
    requires header { IsHead task.now rounds head.header }
    requires count { head.index.count ≡ length (branches task.now rounds) }
    ensures { IfOk result (λ text. text.items
        ≡ part_text task.now rounds head.index.number (body_of body)) }
{
    let mut text = head.index.head(alloc)?.into_bytes();
    text.extend_from_slice(&report_text(alloc, task, rounds, head.header, body)?)?;
    Ok(text)
}
