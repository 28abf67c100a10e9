//! Readers for each format of proofs, which combine a parser with a checker.

ghost use Rattle.std.specs.Prelude.{◌≡◌, []};
ghost use Rattle.wf_run_verify.specs.Readers.{HasReadHints, HasReadProof};

use crate::pieces::ProofReader;
use std::alloc::Global;
use wf_run::RunFault;
use wf_sat_check::lrat::{LratChecker, LratProof};
use wf_sat_check::rup::{Checker, Proof};

/// A clausal proof (DRAT) that is being read, and the checker that takes its steps.
#[derive(Drop)]
pub(crate) struct DratProofReader {
    checker: Checker,
    proof: Proof,
}

impl DratProofReader {
    /// Creates a reader that has read nothing, with the checker `checker`.
    pub(crate) fn new(alloc: Global, checker: Checker) -> DratProofReader
        ensures checker { result.checker ≡ checker }
        ensures nothing { HasReadProof checker [] result.proof checker }
    {
        let proof = Proof::new(alloc, checker.variables());
        DratProofReader { checker, proof }
    }
}

impl ProofReader for DratProofReader {
    ghost use Rattle.wf_sat_check.specs.Rup.Seen.{HasNoModel};
    ghost use Rattle.wf_run_verify.specs.Proofs.{IsRefusedProof};
    ghost use Rattle.wf_run_verify.specs.Readers.{HasReadProof};

    ghost has_read = { λ begun given reader.
        HasReadProof begun.checker given reader.proof reader.checker };

    ghost is_accepted = { λ begun given. HasNoModel begun.checker };

    ghost is_refused = { λ begun given left. IsRefusedProof begun.checker given };

    fn line(&self) -> u64 {
        self.proof.line()
    }

    fn feed(&mut self, alloc: Global, piece: &[u8]) -> Result<(), RunFault> {
        Ok(self.proof.feed(alloc, &mut self.checker, piece)?)
    }

    fn finish(self, alloc: Global) -> Result<(), RunFault> {
        let DratProofReader { mut checker, proof } = self;
        Ok(proof.finish(alloc, &mut checker)?)
    }
}

/// A proof with hints (LRAT) that is being read, and the checker that takes its steps.
#[derive(Drop)]
pub(crate) struct LratProofReader {
    checker: LratChecker,
    proof: LratProof,
}

impl LratProofReader {
    /// Creates a reader that has read nothing, with the checker `checker`.
    pub(crate) fn new(alloc: Global, checker: LratChecker) -> LratProofReader
        ensures checker { result.checker ≡ checker }
        ensures nothing { HasReadHints checker [] result.proof checker }
    {
        let proof = LratProof::new(alloc, checker.variables());
        LratProofReader { checker, proof }
    }
}

impl ProofReader for LratProofReader {
    ghost use Rattle.wf_run_verify.specs.Hints.{AreAcceptedHints, AreRefusedHints};
    ghost use Rattle.wf_run_verify.specs.Readers.{HasReadHints};

    ghost has_read = { λ begun given reader.
        HasReadHints begun.checker given reader.proof reader.checker };

    ghost is_accepted = { λ begun. AreAcceptedHints begun.checker };

    ghost is_refused = { λ begun. AreRefusedHints begun.checker };

    fn line(&self) -> u64 {
        self.proof.line()
    }

    fn feed(&mut self, _alloc: Global, piece: &[u8]) -> Result<(), RunFault> {
        Ok(self.proof.feed(&mut self.checker, piece)?)
    }

    fn finish(self, _alloc: Global) -> Result<(), RunFault> {
        let LratProofReader { mut checker, proof } = self;
        Ok(proof.finish(&mut checker)?)
    }
}
