//! Checks a SAT solver's proof that the question of one branch has no model.

ghost use Rattle.wf_sat_formula.specs.Branches.{branch_question};
ghost use Rattle.wf_run_branches.specs.Refuting.{IsAcceptedBranch, ReadsIn};

use crate::branch::branch_of;
use std::io::Read;
use wf_base::streams::Source;
use wf_run::{Answered, ComplexAnswer, TaskWithComplex};
use wf_run_verify::{ProofFormat, ProofProgress};
use wf_sat_cnf::pose_branch;

/// The check of a SAT solver's proof that no decision map lies in one branch of a task's question.
/// The second source is read to its end as a proof in `format`, and each step is checked against
/// the formula of the branch, which is built here. If the proof is accepted, no decision map lies
/// in the branch, whatever the proof's bytes are.
///
/// If the branch doesn't exist, the run is refused with [`NoBranch`](wf_run::RunFault::NoBranch),
/// which carries the number of branches, before the proof is read.
#[derive(Clone, Copy)]
pub struct RefuteBranch<'a, P, L> {
    /// The format of the proof.
    pub format: P,
    /// The 0-based index of the branch.
    pub number: u32,
    /// The listener that gets the progress of the check, if there is one.
    pub listener: Option<&'a L>,
}

impl<'a, P: ProofFormat, L: ProofProgress> ComplexAnswer for RefuteBranch<'a, P, L> {
    ghost reads = { λ none. ReadsIn (λ i t r.
        P.reads (branch_question t r i) (IsAcceptedBranch i t r)) none.number };

    fn read_about<C: Read>(
        &self,
        subject: &TaskWithComplex,
        source: &mut Source<C>,
    ) -> Answered<()> {
        let alloc = subject.alloc;
        let branch = branch_of(alloc, subject.task, subject.protocol, self.number)?;
        let checker = pose_branch(alloc, subject.task, subject.protocol, &branch.sets)?;
        self.format
            .read_from(alloc, source, checker, self.listener)?;
        let index = branch.index();
        let text = index.accepted(alloc, "accepted none", subject.protocol.rounds())?;
        Ok(((), text.into_bytes()))
    }
}
