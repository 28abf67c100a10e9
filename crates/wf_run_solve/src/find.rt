//! Searches a task for its least decision map, without counting how many branches were searched.

ghost use Rattle.std.specs.Prelude.{◌≡◌, ◌<◌, ◌≤◌, IfOk};
ghost use Rattle.wf_model.specs.Limits.{most_workers};
ghost use Rattle.wf_base.specs.Streams.Ends.{CanCount, CanRead};
ghost use Rattle.wf_pool.specs.Answers.{IsAnswer};
ghost use Rattle.wf_run.specs.Run.{Answers, Asks, answered};
ghost use Rattle.wf_run_solve.specs.Texts.{Finds, IsFound, outcome_of};

use crate::outcome::Outcome;
use crate::search::{ReportSpec, Search};
use crate::solve::{Branches, kept_lines, pose_problem, run_counted_search, with_text};
use std::alloc::{AllocError, Global};
use std::io::{Read, Write};
use std::thread::Threads;
use wf_base::streams::{Sink, Source};
use wf_box::Problem;
use wf_core::Account;
use wf_pool::{Answer, Gate, KeptLines, Open, SearchSpec, solve, solve_root, solve_within};
use wf_run::{Answered, RunFault, TaskAnswer, read_task, run_over_task, write_answer};
use wf_task::Task;

/// How many more boxes than there are points a search in one thread may close before workers are
/// started.
const EXTRA_SINGLE_THREAD_TURNS: u32 = 512;

/// Reads a task to the end of `source`, searches it for its least decision map as `search` says,
/// and writes the report to `sink`. Finds and writes the same as
/// [`run_counted_search`](crate::run_counted_search), but does not count the branches.
///
/// Without an observer (`search.gate`), a single worker searches the whole problem without
/// splitting it into branches. Of several workers, one first does the same for a limited number of
/// turns, and the others are started only if that does not finish: many problems are solved in less
/// time than it takes to split them.
///
/// # Errors
///
/// Returns the reason why the task is refused, or that memory ran out, or that a call of the source
/// or of the sink failed. Nothing is written unless the error is a failed write.
pub fn run_search<T: Threads + Sync, G: Gate, R: Read, W: Write>(
    rt: &T,
    alloc: Global,
    source: &mut Source<R>,
    sink: &mut Sink<W>,
    search: &Search<G>,
) -> Result<Outcome, RunFault>
    requires ends { CanCount source.old sink.old }
    requires workers { (0 < search.now.workers) × (search.now.workers ≤ most_workers) }
    ensures { Finds search.now.wanted.rounds search.now.wanted.form
        source.old source.new sink.old sink.new result }
{
    if search.gate.is_some() {
        return without_account(run_counted_search(rt, alloc, source, sink, search));
    }
    if search.workers == 1 {
        return run_over_task(alloc, source, sink, search.wanted.rounds, &search.wanted);
    }
    let answer = find_in_source(rt, alloc, source, search.wanted, search.workers);
    write_answer(sink, answer)
}

impl TaskAnswer for ReportSpec {
    type Answer = Outcome;

    ghost is_text = { λ wanted. IsFound wanted.form };

    /// Searches the whole problem in the calling thread, without splitting it into branches. Starts
    /// no thread, and always terminates.
    fn of_task(&self, alloc: Global, task: &Task, rounds: u32) -> Answered<Outcome> {
        let (header, problem) = pose_problem(alloc, task, rounds, &Open)?;
        let wanted = ReportSpec {
            rounds,
            form: self.form,
        };
        let answer = solve_root(alloc, &problem, kept_lines(self.form))?;
        Ok(with_text(alloc, task, wanted, header, answer)?)
    }
}

/// Reads a task to the end of `source` and searches it for its least decision map with `workers`
/// workers and no observer. Returns the outcome and the text of the report in the form
/// `wanted.form`.
fn find_in_source<T: Threads + Sync, R: Read>(
    rt: &T,
    alloc: Global,
    source: &mut Source<R>,
    wanted: ReportSpec,
    workers: u32,
) -> Answered<Outcome>
    requires source { CanRead source.old }
    requires workers { (0 < workers) × (workers ≤ most_workers) }
    ensures { Asks (IsFound wanted.form) wanted.rounds source.old source.new (answered result) }
{
    let task = read_task(alloc, source)?;
    find_in_task(rt, alloc, &task, wanted, workers)
}

/// Searches `task` for its least decision map after `wanted.rounds` rounds, with `workers` workers
/// and no observer. Returns the outcome and the text of the report in the form `wanted.form`.
fn find_in_task<T: Threads + Sync>(
    rt: &T,
    alloc: Global,
    task: &Task,
    wanted: ReportSpec,
    workers: u32,
) -> Answered<Outcome>
    requires { (0 < workers) × (workers ≤ most_workers) }
    ensures { Answers (IsFound wanted.form) task.now wanted.rounds (answered result) }
{
    let (header, problem) = pose_problem(alloc, task, wanted.rounds, &Open)?;
    let kept = kept_lines(wanted.form);
    let answer = search_with_workers(rt, alloc, &problem, kept, workers)?;
    Ok(with_text(alloc, task, wanted, header, answer)?)
}

/// Searches `problem` in this thread for as many turns as it has points, plus
/// [`EXTRA_SINGLE_THREAD_TURNS`], and if that does not finish, anew with `workers` workers that
/// share its branches. A turn closes one box.
fn search_with_workers<T: Threads + Sync>(
    rt: &T,
    alloc: Global,
    problem: &Problem,
    kept: KeptLines,
    workers: u32,
) -> Result<Answer, AllocError>
    requires { (0 < workers) × (workers ≤ most_workers) }
    ensures { IfOk result (IsAnswer problem.now kept) }
{
    let turns = problem.points().saturating_add(EXTRA_SINGLE_THREAD_TURNS);
    if let Some(answer) = solve_within(alloc, problem, kept, turns)? {
        return Ok(answer);
    }
    let spec = SearchSpec { problem, kept };
    let (answer, _) = solve::<T, Branches, _>(rt, alloc, spec, workers, &Open)?;
    Ok(answer)
}

/// Returns the outcome in `found`, without the counts of branches, or the error in `found`.
fn without_account(found: Result<(Outcome, Account), RunFault>) -> Result<Outcome, RunFault>
    ensures { result ≡ outcome_of found }
{
    match found {
        Ok((outcome, _)) => Ok(outcome),
        Err(fault) => Err(fault),
    }
}
