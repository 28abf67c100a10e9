//! The two formats of SAT solvers' proofs, each with its checker.

ghost use Rattle.std.specs.Prelude.{◌≡◌, ℕ, Err, List, Option, Result};
ghost use Rattle.wf_sat_text.specs.Clauses.Formula.{Formula, IsUnsatisfiable};
ghost use Rattle.wf_base.specs.Streams.Ends.{CanRead};
ghost use Rattle.wf_base.specs.Streams.Seen.{Reading};
ghost use Rattle.wf_run.specs.declared.fault.RunFault.{RunFault};
ghost use Rattle.wf_run.specs.declared.fault.RunFault.TheVariants.{OutOfMemory};
ghost use Rattle.wf_run_verify.specs.Proofs.{ReadsBytes};

use crate::listener::ProofProgress;
use crate::pieces::read_proof;
use crate::readers::{DratProofReader, LratProofReader};
use std::alloc::Global;
use std::io::Read;
use wf_base::streams::Source;
use wf_run::RunFault;
use wf_sat_check::lrat::LratChecker;
use wf_sat_check::rup::Checker;
use wf_sat_cnf::ClauseSink;

/// A format of SAT solvers' proofs, with the checker for it.
pub trait ProofFormat {
    /// The checker for proofs in this format.
    type Checker: ClauseSink;

    // states that a checker knows the formula and nothing else
    ghost is_posed: { Formula → Self.Checker → Type 0 };

    // states that a proof with these bytes is accepted by a checker in this state
    ghost is_accepted: { Self.Checker → List ℕ → Type 0 };

    // states that the proof with these bytes has this fault for a checker in this state; the option
    // is the rest of the source
    ghost is_refused: { Self.Checker → List ℕ → Option (List ℕ) → RunFault → Type 0 };

    // relates a source before and after it was read as a proof that the formula has no model to the
    // result of reading; the predicate holds for what is answered if the proof is accepted
    ghost reads: { Formula → (Unit {0} × List ℕ → Type 0) → Reading → Reading
        → Result (Unit {0} × List ℕ) RunFault → Type 0 };

    // law: if there is no memory for a checker, nothing is read
    ghost is_unread: { (f : Formula) (holds : Unit {0} × List ℕ → Type 0) (old : Reading)
        → reads f holds old old (Err OutOfMemory) };

    // law: reading with a checker that knows the formula is reading a proof about the formula
    ghost is_read: { (f : Formula) (checker : Self.Checker) (holds : Unit {0} × List ℕ → Type 0)
        (old new : Reading) (result : Result (Unit {0} × List ℕ) RunFault) → is_posed f checker
        → ReadsBytes (λ given answer. holds answer × is_accepted checker given)
        (is_refused checker) old new result
        → reads f holds old new result };

    /// Reads `source` to its end as a proof that what `checker` knows has no model, and checks it.
    /// `listener`, if given, hears of the progress.
    ///
    /// # Errors
    ///
    /// Returns the first fault of the proof, or `TooLong` if the source has more than
    /// [`MAX_PROOF_BYTES`](crate::MAX_PROOF_BYTES) bytes, `Read` if a call of the source fails,
    /// or that memory ran out.
    fn read_from<L: ProofProgress, C: Read>(
        &self,
        alloc: Global,
        source: &mut Source<C>,
        checker: Self::Checker,
        listener: Option<&L>,
    ) -> Result<(), RunFault>
        requires { CanRead source.old }
        ensures { ReadsBytes (λ given done. is_accepted checker given) (is_refused checker)
            source.old source.new result };

    // law: a checker to which the formula was posed knows it
    ghost is_known: { (f : Formula) (checker : Self.Checker)
        → Self.Checker.is_posed f checker → is_posed f checker };

    // law: if a proof is accepted, the formula that the checker knows has no model
    ghost is_sound: { (f : Formula) (checker : Self.Checker) (given : List ℕ)
        → is_posed f checker → is_accepted checker given → IsUnsatisfiable f };
}

/// The format of clausal proofs with deletions (DRAT). Each lemma has to follow by unit
/// propagation, or to be a resolution asymmetric tautology. The faults of such a proof have the
/// numbers 38 (`NotALiteral`) to 42 (`Binary`).
#[derive(Clone, Copy)]
pub struct DratFormat;

impl ProofFormat for DratFormat {
    ghost use Rattle.wf_sat_check.specs.Rup.Posed.{IsPosed};
    ghost use Rattle.wf_sat_check.specs.Rup.Seen.{HasNoModel};
    ghost use Rattle.wf_run_verify.specs.Formats.{proof_read, proof_refutes, proof_unread};
    ghost use Rattle.wf_run_verify.specs.Proofs.{IsRefusedProof, ReadsProofOf};

    type Checker = Checker;

    ghost is_posed = { IsPosed };

    ghost is_accepted = { λ known given. HasNoModel known };

    ghost is_refused = { λ known given left. IsRefusedProof known given };

    ghost reads = { ReadsProofOf };

    ghost is_unread = { proof_unread };

    ghost is_read = { proof_read };

    ghost is_known = { λ f known posed. posed };

    ghost is_sound = { λ f known given. proof_refutes f known };

    fn read_from<L: ProofProgress, C: Read>(
        &self,
        alloc: Global,
        source: &mut Source<C>,
        checker: Checker,
        listener: Option<&L>,
    ) -> Result<(), RunFault> {
        let reader = DratProofReader::new(alloc, checker);
        read_proof(alloc, source, reader, listener)
    }
}

/// The format of clausal proofs with hints (LRAT). Each clause is checked by following its hints.
/// The faults of such a proof have the numbers 38 (`NotALiteral`), 39 (`NoSuchVariable`), 41
/// (`NoContradiction`), 42 (`Binary`), and 61 (`ClauseLeftOut`) to 64 (`IdOutOfRange`).
#[derive(Clone, Copy)]
pub struct LratFormat;

impl ProofFormat for LratFormat {
    ghost use Rattle.wf_sat_check.specs.Lrat.Ledger.{ledger_of};
    ghost use Rattle.wf_run_verify.specs.Formats.{hints_read, hints_refute, hints_unread};
    ghost use Rattle.wf_run_verify.specs.Hints.{AreAcceptedHints, AreRefusedHints, ReadsAsHints};

    type Checker = LratChecker;

    ghost is_posed = { λ f ledger. ledger ≡ ledger_of f };

    ghost is_accepted = { AreAcceptedHints };

    ghost is_refused = { AreRefusedHints };

    ghost reads = { λ f. ReadsAsHints (ledger_of f) };

    ghost is_unread = { hints_unread };

    ghost is_read = { hints_read };

    ghost is_known = { λ f ledger posed. posed };

    ghost is_sound = { hints_refute };

    fn read_from<L: ProofProgress, C: Read>(
        &self,
        alloc: Global,
        source: &mut Source<C>,
        checker: LratChecker,
        listener: Option<&L>,
    ) -> Result<(), RunFault> {
        let reader = LratProofReader::new(alloc, checker);
        read_proof(alloc, source, reader, listener)
    }
}
