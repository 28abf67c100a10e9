//! Runs the commands that read the task from a file and a text about it from standard input.

ghost use Rattle.std.specs.Prelude.{◌≡◌};
ghost use Rattle.std.specs.Thread.{IsSync};
ghost use Rattle.wf_base.specs.Streams.Ends.{CanCount};
ghost use Rattle.wf_cli.specs.Service.Files.{CanAsk};
ghost use Rattle.wf_run.specs.Sources.{CanReadBoth};
ghost use Rattle.wf_cli_program.specs.Program.{ChecksProof, DoesFile, DoesWithFile};

use crate::done::{Done, after_doing};
use std::alloc::Global;
use std::io::{Read, Write};
use std::thread::Threads;
use wf_base::streams::{Sink, Source};
use wf_cli::service::{
    Files, Opener, Refusal, TaskRun, as_file_refusal, discard_value, run_with_file,
};
use wf_cli_args::{ProofJob, TaskFileJob};
use wf_run::{RunFault, run_over_both, run_over_pair};
use wf_run_branches::{JoinParts, RefuteBranch, VerifyPart};
use wf_run_report::{ExplainCertificate, LiftMap, TrimReport};
use wf_run_verify::{
    CheckProof, DescribeMap, DratFormat, LratFormat, ProofProgress, ReadModel, VerifyCertificate,
    run_over_report,
};

/// Creates the check of a proof in `format` that there is no decision map. The progress goes to
/// `listener`, if there is one.
fn by_proof<P, L>(format: P, listener: Option<&L>) -> CheckProof<'_, P, L>
    ensures { result.format ≡ format }
{
    CheckProof { format, listener }
}

/// Creates the check of a proof in `format` that no decision map lies in branch `number`. The
/// progress goes to `listener`, if there is one.
fn in_branch<P, L>(format: P, number: u32, listener: Option<&L>) -> RefuteBranch<'_, P, L>
    ensures format { result.format ≡ format }
    ensures number { result.number ≡ number }
{
    RefuteBranch {
        format,
        number,
        listener,
    }
}

/// A job on the task in a file, with the resources that it uses.
#[derive(Clone, Copy)]
pub(crate) struct TaskFileRun<'a, T, L> {
    pub(crate) rt: &'a T,
    pub(crate) alloc: Global,
    pub(crate) job: TaskFileJob,
    // the listener that gets the progress of a check, if progress is asked for
    pub(crate) listener: &'a L,
}

impl<'a, T: Threads + Sync, L: ProofProgress> TaskFileRun<'a, T, L> {
    /// Runs the job on the task in the file at `path`.
    pub(crate) fn run_on_file<F: Files, R: Read, W: Write>(
        &self,
        opener: &mut Opener<F>,
        path: &str,
        source: &mut Source<R>,
        sink: &mut Sink<W>,
    ) -> Result<Done, Refusal>
        requires files { CanAsk opener.old }
        requires ends { CanCount source.old sink.old }
        ensures { DoesFile (F.opens opener.old.files path.now) self.now.job opener.old opener.new
            source.old source.new sink.old sink.new result }
    {
        let found = run_with_file(self, opener, path, source, sink);
        after_doing(as_file_refusal(found, opener.last()))
    }

    /// Checks the proof that `source` gives about the task that `task` gives, with the options
    /// `asked`.
    fn check_proof<F: Read, R: Read, W: Write>(
        &self,
        asked: ProofJob,
        task: &mut Source<F>,
        source: &mut Source<R>,
        sink: &mut Sink<W>,
    ) -> Result<(), RunFault>
        requires { CanReadBoth task.old source.old sink.old }
        ensures { ChecksProof asked task.old task.new source.old source.new sink.old sink.new
            result }
    {
        let (alloc, rounds) = (self.alloc, asked.rounds);
        let told = if asked.progress {
            Some(self.listener)
        } else {
            None
        };
        match (asked.branch, asked.hints) {
            (None, false) => {
                let none = by_proof(DratFormat, told);
                run_over_both(alloc, task, source, sink, rounds, &none)
            }
            (None, true) => {
                let none = by_proof(LratFormat, told);
                run_over_both(alloc, task, source, sink, rounds, &none)
            }
            (Some(branch), false) => {
                let none = in_branch(DratFormat, branch, told);
                run_over_both(alloc, task, source, sink, rounds, &none)
            }
            (Some(branch), true) => {
                let none = in_branch(LratFormat, branch, told);
                run_over_both(alloc, task, source, sink, rounds, &none)
            }
        }
    }
}

impl<'a, T: Threads + Sync, L: ProofProgress> TaskRun for TaskFileRun<'a, T, L> {
    ghost does = { λ run. DoesWithFile run.job };

    ghost is_ready = { λ _. IsSync T.row };

    fn with_task<F: Read, R: Read, W: Write>(
        &self,
        task: &mut Source<F>,
        source: &mut Source<R>,
        sink: &mut Sink<W>,
    ) -> Result<(), RunFault> {
        let (rt, alloc) = (self.rt, self.alloc);
        match self.job {
            TaskFileJob::Verify { rounds, long } => {
                let accepted = VerifyCertificate {
                    rt,
                    rounds,
                    is_long: long,
                };
                discard_value(run_over_pair(alloc, task, source, sink, &accepted))
            }
            TaskFileJob::VerifyBranch { rounds, branch } => {
                let part = VerifyPart { rt, number: branch };
                run_over_both(alloc, task, source, sink, rounds, &part)
            }
            TaskFileJob::Join(rounds) => {
                run_over_both(alloc, task, source, sink, rounds, &JoinParts { rt })
            }
            TaskFileJob::Model(rounds) => {
                run_over_both(alloc, task, source, sink, rounds, &ReadModel { rt })
            }
            TaskFileJob::Proof(asked) => self.check_proof(asked, task, source, sink),
            TaskFileJob::Decisions => {
                run_over_report(alloc, task, source, sink, None, &DescribeMap { rt })
            }
            TaskFileJob::Trim => {
                run_over_report(alloc, task, source, sink, None, &TrimReport { rt })
            }
            TaskFileJob::Explain => {
                run_over_pair(alloc, task, source, sink, &ExplainCertificate { rt })
            }
            TaskFileJob::Lift(rounds) => {
                run_over_pair(alloc, task, source, sink, &LiftMap { rt, rounds })
            }
        }
    }
}
