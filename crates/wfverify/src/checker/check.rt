//! Checks a certificate about a task.

ghost use Rattle.std.specs.Thread.{IsSync};
ghost use Rattle.wfverify.specs.Checker.Checker.{Checks};

use crate::checker::job::Check;
use std::alloc::Global;
use std::io::{Read, Write};
use std::thread::Threads;
use wf_base::streams::{Sink, Source};
use wf_cli::service::{TaskRun, discard_value};
use wf_run::{RunFault, run_over_both, run_over_pair};
use wf_run_verify::{CheckProof, DratFormat, LratFormat, NoProofProgress, VerifyCertificate};

/// A certificate check that runs as a [`TaskRun`], with the threads and the memory that it uses.
#[derive(Clone, Copy)]
pub(crate) struct CheckRun<'a, T> {
    pub(crate) rt: &'a T,
    pub(crate) alloc: Global,
    pub(crate) check: Check,
}

impl<'a, T: Threads + Sync> TaskRun for CheckRun<'a, T> {
    ghost does = { λ run. Checks run.check };

    ghost is_ready = { λ _. IsSync T.row };

    fn with_task<F: Read, R: Read, W: Write>(
        &self,
        task: &mut Source<F>,
        source: &mut Source<R>,
        sink: &mut Sink<W>,
    ) -> Result<(), RunFault> {
        let CheckRun { rt, alloc, check } = *self;
        let listener = None::<&NoProofProgress>;
        match check {
            Check::Certificate { rounds, long } => {
                let accepted = VerifyCertificate {
                    rt,
                    rounds,
                    is_long: long,
                };
                discard_value(run_over_pair(alloc, task, source, sink, &accepted))
            }
            Check::Proof(rounds) => {
                let none = CheckProof {
                    format: DratFormat,
                    listener,
                };
                run_over_both(alloc, task, source, sink, rounds, &none)
            }
            Check::HintedProof(rounds) => {
                let none = CheckProof {
                    format: LratFormat,
                    listener,
                };
                run_over_both(alloc, task, source, sink, rounds, &none)
            }
        }
    }
}
