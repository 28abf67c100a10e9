//! Checking a SAT solver's proof that the question of a task has no model.

ghost use Rattle.wf_sat_formula.specs.Encoding.{question};
ghost use Rattle.wf_run_verify.specs.Proofs.{IsAcceptedNone};

use crate::as_read::accepted_text;
use crate::format::ProofFormat;
use crate::listener::ProofProgress;
use crate::outcome::Accepted;
use std::io::Read;
use wf_base::streams::Source;
use wf_run::{Answered, ComplexAnswer, TaskWithComplex};
use wf_sat_cnf::pose;

/// The answer of a run about a task and a SAT solver's proof: the line that says that there is no
/// decision map, if the proof shows it. The second source gives the proof, in the format `format`;
/// it is read to its end, and each step is checked against the formula of the task and its rounds,
/// which is generated here. If the line is written, no function on the views is a decision map,
/// whatever the bytes of the proof are.
///
/// The proof is read in pieces and may be longer than memory. Too many rounds or executions are
/// refused before the proof is read. A proof of more than
/// [`MAX_PROOF_BYTES`](crate::MAX_PROOF_BYTES) bytes is refused once that many were read.
#[derive(Clone, Copy)]
pub struct CheckProof<'a, P, L> {
    /// The format of the proof.
    pub format: P,
    /// The listener that is told the progress, if any.
    pub listener: Option<&'a L>,
}

impl<'a, P: ProofFormat, L: ProofProgress> ComplexAnswer for CheckProof<'a, P, L> {
    ghost reads = { λ none t r. P.reads (question t r) (IsAcceptedNone t r) };

    fn read_about<C: Read>(
        &self,
        subject: &TaskWithComplex,
        source: &mut Source<C>,
    ) -> Answered<()> {
        let alloc = subject.alloc;
        let checker = pose(alloc, subject.task, subject.protocol)?;
        self.format
            .read_from(alloc, source, checker, self.listener)?;
        let rounds = subject.protocol.rounds();
        let text = accepted_text(alloc, Accepted::Nothing, Some(rounds))?;
        Ok(((), text.into_bytes()))
    }
}
