//! Runs the commands that read no file.

ghost use Rattle.std.specs.Prelude.{◌≡◌, ◌<◌, ◌≤◌};
ghost use Rattle.wf_model.specs.Limits.{most_workers};
ghost use Rattle.wf_cli_args.specs.Job.{CanBeDoneAlone};
ghost use Rattle.wf_base.specs.Streams.Ends.{CanCount};
ghost use Rattle.wf_run_obstruction.specs.Finding.{FindsObstruction};
ghost use Rattle.wf_cli_program.specs.Program.{DecidesTask, DoesAlone};

use crate::done::{Done, after_searching, after_seeking, after_solving, after_writing};
use crate::texts::write_text;
use std::alloc::Global;
use std::io::{Read, Write};
use std::thread::Threads;
use wf_base::streams::{Sink, Source};
use wf_cli::service::Refusal;
use wf_cli_args::StdinJob;
use wf_pool::Gate;
use wf_run::RunFault;
use wf_run_branches::{BranchSearch, run_solve_branch};
use wf_run_obstruction::{Finding, ObstructionSpec, run_obstruction};
use wf_run_solve::{Form, ReportSpec, Search, run_counted_search, run_search};
use wf_tree_finder::{FinderProgress, NoFinderProgress};

/// The runtime, the memory and the observer that a job uses.
#[derive(Clone, Copy)]
pub(crate) struct Resources<'a, T, G> {
    pub(crate) rt: &'a T,
    pub(crate) alloc: Global,
    // the observer that gets the progress of a job, if progress is asked for
    pub(crate) gate: &'a G,
}

impl<T: Threads + Sync, G: Gate + FinderProgress> Resources<'_, T, G> {
    /// Runs `job`, which needs no file. Its progress goes to the observer if it asks for progress.
    pub(crate) fn run<R: Read, W: Write>(
        &self,
        job: StdinJob,
        source: &mut Source<R>,
        sink: &mut Sink<W>,
    ) -> Result<Done, Refusal>
        requires ends { CanCount source.old sink.old }
        requires limits { CanBeDoneAlone job }
        ensures { DoesAlone job source.old source.new sink.old sink.new result }
    {
        let Resources { rt, alloc, gate } = *self;
        match job {
            StdinJob::Solve(asked) => {
                let search = Search {
                    wanted: wanted(asked.rounds, asked.form),
                    workers: asked.workers,
                    gate: observer_if(asked.progress, gate),
                };
                search_task(rt, alloc, source, sink, &search, asked.account)
            }
            StdinJob::SolveBranch {
                rounds,
                branch,
                form,
                progress,
            } => {
                let search = in_branch(wanted(rounds, form), branch, observer_if(progress, gate));
                after_searching(run_solve_branch(alloc, source, sink, &search))
            }
            StdinJob::Obstruction {
                modulus,
                covers,
                progress,
            } => {
                let wanted = ObstructionSpec { modulus, covers };
                after_seeking(search_obstruction(
                    alloc,
                    source,
                    sink,
                    wanted,
                    observer_if(progress, gate),
                ))
            }
            StdinJob::Text(what) => after_writing(write_text(alloc, source, sink, what)),
        }
    }
}

/// Creates the specification of a report in the form `form` after `rounds` rounds.
fn wanted(rounds: u32, form: Form) -> ReportSpec
    ensures rounds { result.rounds ≡ rounds }
    ensures form { result.form ≡ form }
{
    ReportSpec { rounds, form }
}

/// Creates the search of branch `branch` for the report `wanted`. Its progress goes to `gate`, if
/// there is one.
fn in_branch<G>(wanted: ReportSpec, branch: u32, gate: Option<&G>) -> BranchSearch<'_, G>
    ensures wanted { result.wanted ≡ wanted }
    ensures branch { result.branch ≡ branch }
{
    BranchSearch {
        wanted,
        branch,
        gate,
    }
}

/// Returns the observer if `progress` is true.
fn observer_if<G>(progress: bool, gate: &G) -> Option<&G> {
    if progress { Some(gate) } else { None }
}

/// Runs `search` on the task that `source` gives. With `account` its account is part of the result.
fn search_task<T: Threads + Sync, G: Gate, R: Read, W: Write>(
    rt: &T,
    alloc: Global,
    source: &mut Source<R>,
    sink: &mut Sink<W>,
    search: &Search<G>,
    account: bool,
) -> Result<Done, Refusal>
    requires ends { CanCount source.old sink.old }
    requires workers { (0 < search.now.workers) × (search.now.workers ≤ most_workers) }
    ensures { DecidesTask account search.now.workers search.now.wanted.rounds
        search.now.wanted.form source.old source.new sink.old sink.new result }
{
    if account {
        after_solving(run_counted_search(rt, alloc, source, sink, search))
    } else {
        after_searching(run_search(rt, alloc, source, sink, search))
    }
}

/// Searches for an obstruction of the task that `source` gives. The progress goes to `listener`, if
/// there is one.
fn search_obstruction<L: FinderProgress, R: Read, W: Write>(
    alloc: Global,
    source: &mut Source<R>,
    sink: &mut Sink<W>,
    wanted: ObstructionSpec,
    listener: Option<&L>,
) -> Result<Finding, RunFault>
    requires { CanCount source.old sink.old }
    ensures { FindsObstruction wanted source.old source.new sink.old sink.new result }
{
    match listener {
        Some(listener) => run_obstruction(alloc, source, sink, wanted, listener),
        None => run_obstruction(alloc, source, sink, wanted, &NoFinderProgress),
    }
}
