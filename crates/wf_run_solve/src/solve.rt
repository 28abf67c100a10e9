//! Searches a task for its least decision map, and counts how many branches were searched and cut.

ghost use Rattle.std.specs.Prelude.{◌≡◌, ◌<◌, ◌≤◌, IfOk, map};
ghost use Rattle.wf_model.specs.Limits.{most_workers};
ghost use Rattle.wf_model.specs.Problem.{problem_of};
ghost use Rattle.wf_base.specs.Streams.Ends.{CanCount, CanRead};
ghost use Rattle.wf_base.specs.Lines.Lines.{line_of};
ghost use Rattle.wf_pool.specs.Answers.{HasAccount, IsAnswer};
ghost use Rattle.wf_pool.specs.Answers as pool;
ghost use Rattle.wf_report.specs.Reports.{body_of};
ghost use Rattle.wf_run.specs.Run.{Answers, Asks, answered};
ghost use Rattle.wf_run_solve.specs.Heads.{IsHead, Poses};
ghost use Rattle.wf_run_solve.specs.Texts.{IsAccountOf, IsFound, IsInOrder, IsSolved, SearchesInOrder, Solves, lines_kept, body_of_map};
ghost use Rattle.wf_run.specs.Texts.{text_of_report};

use crate::outcome::Outcome;
use crate::search::{OptionalGate, ReportSpec, Search};
use std::alloc::{AllocError, Global};
use std::io::{Read, Write};
use std::thread::Threads;
use wf_base::lines::{Form, Lines};
use wf_base::streams::{Sink, Source};
use wf_box::Problem;
use wf_complex::Protocol;
use wf_core::Account;
use wf_handout::Stealing;
use wf_pool::{Answer, Gate, KeptLines, Open, SearchSpec, solve, solve_one_watched};
use wf_report::{Body, Header, Report};
use wf_run::{Answered, RunFault, read_task, write_answer};
use wf_task::Task;

/// The strategy by which branches are handed to the workers.
pub(crate) type Branches = Stealing;

/// Reads a task to the end of its source, searches it for `rounds` rounds of iterated immediate
/// snapshot, and writes the report about it: its least decision map; or that it has none, with the
/// lines of a refutation, and then no function on the views is a decision map. Returns the outcome
/// and the account of the branches.
///
/// In the form [`Form::Verdict`] the lines are left out. In the form [`Form::Least`] a map comes
/// with the lines of a certificate that no map is smaller.
///
/// The `workers` workers share the branches; they are threads if there are several. One worker
/// searches the branches in order, in this thread. The outcome and the report do not depend on the
/// number of workers, but the account may.
///
/// # Errors
///
/// Returns the reason why the task is refused, or that memory ran out, or that a call of the source
/// or of the sink failed. The report is made whole before anything is written, so nothing is
/// written unless the error is a failed write.
pub fn run_solve<T: Threads + Sync, R: Read, W: Write>(
    rt: &T,
    alloc: Global,
    source: &mut Source<R>,
    sink: &mut Sink<W>,
    rounds: u32,
    workers: u32,
    form: Form,
) -> Result<(Outcome, Account), RunFault>
    requires ends { CanCount source.old sink.old }
    requires workers { (0 < workers) × (workers ≤ most_workers) }
    ensures solves { Solves rounds form source.old source.new sink.old sink.new result }
    ensures in_order { workers ≡ 1 → SearchesInOrder result }
{
    let search = Search {
        wanted: ReportSpec { rounds, form },
        workers,
        gate: Some(&Open),
    };
    run_counted_search(rt, alloc, source, sink, &search)
}

/// Reads a task to the end of `source`, searches it for its least decision map as `search` says,
/// and writes the report to `sink`. Returns the outcome and the counts of branches. One worker
/// searches the branches in order, in the calling thread.
///
/// # Errors
///
/// Returns the reason why the task is refused, or that memory ran out, or that a call of the source
/// or of the sink failed. Nothing is written unless the error is a failed write.
pub fn run_counted_search<T: Threads + Sync, G: Gate, R: Read, W: Write>(
    rt: &T,
    alloc: Global,
    source: &mut Source<R>,
    sink: &mut Sink<W>,
    search: &Search<G>,
) -> Result<(Outcome, Account), RunFault>
    requires ends { CanCount source.old sink.old }
    requires workers { (0 < search.now.workers) × (search.now.workers ≤ most_workers) }
    ensures solves { Solves search.now.wanted.rounds search.now.wanted.form
        source.old source.new sink.old sink.new result }
    ensures in_order { search.now.workers ≡ 1 → SearchesInOrder result }
{
    if search.workers == 1 {
        let gate = OptionalGate { gate: search.gate };
        let answer = solve_source_one(alloc, source, search.wanted, &gate);
        return write_answer(sink, answer);
    }
    let answer = solve_source(rt, alloc, source, search);
    write_answer(sink, answer)
}

/// Reads a task to the end of `source` and searches it for its least decision map with one worker,
/// which `gate` observes. Returns the outcome, the counts of branches, and the text of the report
/// that `wanted` asks for.
fn solve_source_one<G: Gate, R: Read>(
    alloc: Global,
    source: &mut Source<R>,
    wanted: ReportSpec,
    gate: &G,
) -> Answered<(Outcome, Account)>
    requires { CanRead source.old }
    ensures asks { Asks (IsSolved wanted.form) wanted.rounds source.old source.new
        (answered result) }
    ensures in_order { IfOk result (λ answer. IsInOrder answer.0) }
{
    let task = read_task(alloc, source)?;
    solve_task_one(alloc, &task, wanted, gate)
}

/// Reads a task to the end of `source` and searches it for its least decision map as `search` says.
/// Returns the outcome, the counts of branches, and the text of the report.
fn solve_source<T: Threads + Sync, G: Gate, R: Read>(
    rt: &T,
    alloc: Global,
    source: &mut Source<R>,
    search: &Search<G>,
) -> Answered<(Outcome, Account)>
    requires source { CanRead source.old }
    requires workers { (0 < search.now.workers) × (search.now.workers ≤ most_workers) }
    ensures { Asks (IsSolved search.now.wanted.form) search.now.wanted.rounds
        source.old source.new (answered result) }
{
    let task = read_task(alloc, source)?;
    solve_task(rt, alloc, &task, search)
}

/// Searches `task` for its least decision map after `wanted.rounds` rounds, with one worker in the
/// calling thread, which `gate` observes. Returns the outcome, the counts of branches, and the text
/// of the report in the form `wanted.form`.
fn solve_task_one<G: Gate>(
    alloc: Global,
    task: &Task,
    wanted: ReportSpec,
    gate: &G,
) -> Answered<(Outcome, Account)>
    ensures answers { Answers (IsSolved wanted.form) task.now wanted.rounds (answered result) }
    ensures in_order { IfOk result (λ answer. IsInOrder answer.0) }
{
    let (header, problem) = pose_problem(alloc, task, wanted.rounds, gate)?;
    let (answer, account) = solve_one_watched(alloc, &problem, kept_lines(wanted.form), gate)?;
    let (outcome, text) = with_text(alloc, task, wanted, header, answer)?;
    Ok(((outcome, account), text))
}

/// Searches `task` for its least decision map as `search` says: the number of rounds, the form of
/// the report, the number of workers and the observer. Returns the outcome, the counts of branches,
/// and the text of the report.
fn solve_task<T: Threads + Sync, G: Gate>(
    rt: &T,
    alloc: Global,
    task: &Task,
    search: &Search<G>,
) -> Answered<(Outcome, Account)>
    requires { (0 < search.now.workers) × (search.now.workers ≤ most_workers) }
    ensures { Answers (IsSolved search.now.wanted.form) task.now search.now.wanted.rounds
        (answered result) }
{
    let wanted = search.wanted;
    let gate = OptionalGate { gate: search.gate };
    let (header, problem) = pose_problem(alloc, task, wanted.rounds, &gate)?;
    let spec = SearchSpec {
        problem: &problem,
        kept: kept_lines(wanted.form),
    };
    let workers = search.workers;
    let (answer, account) = solve::<T, Branches, _>(rt, alloc, spec, workers, &gate)?;
    let (outcome, text) = with_text(alloc, task, wanted, header, answer)?;
    Ok(((outcome, account), text))
}

/// Builds the protocol complex of `task` after `rounds` rounds, and returns the header of the
/// report and the problem to solve. Calls `gate.complex` with the numbers of points and executions.
///
/// The complex takes more memory than the header and the problem. It is freed before this function
/// returns, so before the search begins.
///
/// # Errors
///
/// Returns a `RunFault` if there are too many rounds or executions, or if memory runs out.
pub fn pose_problem<G: Gate>(
    alloc: Global,
    task: &Task,
    rounds: u32,
    gate: &G,
) -> Result<(Header, Problem), RunFault>
    ensures { Poses task.now rounds result }
{
    let protocol = Protocol::build(alloc, task, rounds)?;
    gate.complex(protocol.points(), protocol.executions());
    let problem = Problem::join(alloc, task, &protocol)?;
    Ok((Header::about(task, &protocol), problem))
}

/// Returns which lines a search keeps for a report in the form `form`: those that the report shows.
pub fn kept_lines(form: Form) -> KeptLines
    ensures { result ≡ lines_kept form }
{
    match form {
        Form::Full => KeptLines::Refuting,
        Form::Verdict => KeptLines::Neither,
        Form::Least => KeptLines::All,
    }
}

/// Returns the outcome of the search and the text of the report about `answer`. If there is no map,
/// the report has the lines that the search kept, which are none in the form [`Form::Verdict`].
pub(crate) fn with_text(
    alloc: Global,
    task: &Task,
    wanted: ReportSpec,
    header: Header,
    answer: Answer,
) -> Result<(Outcome, Vec<u8>), AllocError>
    requires header { IsHead task.now wanted.rounds header }
    requires answer { IsAnswer (problem_of task.now wanted.rounds) (lines_kept wanted.form)
        answer }
    ensures found { IfOk result (λ r. IsFound wanted.form task.now wanted.rounds r.0 r.1.items) }
    ensures account { (a : Account) → HasAccount (problem_of task.now wanted.rounds) answer a
        → IfOk result (λ r. IsAccountOf task.now wanted.rounds r.0 a) }
    ensures in_order { (a : Account) → pool.IsInOrder answer a
        → IfOk result (λ r. IsInOrder (r.0, a)) }
{
    match answer {
        Answer::Map(values, lines) => {
            let body = body_of_map(wanted.form, values, lines);
            let text = report_text(alloc, task, wanted.rounds, header, body)?;
            Ok((Outcome::Map, text))
        }
        Answer::Nothing(lines) => {
            let text = report_text(alloc, task, wanted.rounds, header, Body::Nothing(lines))?;
            Ok((Outcome::Nothing, text))
        }
    }
}

/// Returns the body of a report of the map with the values `values`. In the form [`Form::Least`] it
/// includes `lines`, which lead to the map.
pub fn body_of_map(form: Form, values: Vec<u8>, lines: Lines) -> Body
    ensures { body_of result ≡ body_of_map form values.items (map line_of lines.items) }
{
    match form {
        Form::Full | Form::Verdict => Body::Map(values),
        Form::Least => Body::Least(values, lines),
    }
}

/// Returns the text of the report with `header` and `body`. The header has to be that of `task`
/// after `rounds` rounds.
///
/// # Errors
///
/// Returns `AllocError` if memory runs out.
#[tactic(auto, unfolding(wf_run::specs::Texts::text_of_report))]
pub fn report_text(
    alloc: Global,
    task: &Task,
    rounds: u32,
    header: Header,
    body: Body,
) -> Result<Vec<u8>, AllocError>
    requires { IsHead task.now rounds header }
    ensures { IfOk result (λ text. text.items
        ≡ text_of_report task.now rounds (body_of body)) }
{
    Report { header, body }.into_text(alloc)
}
