//! Checking a whole proof in memory.

ghost use Rattle.std.specs.Prelude.{IfErr, IfOk};
ghost use Rattle.wf_sat_text.specs.Clauses.Formula.{IsUnsatisfiable};
ghost use Rattle.wf_sat_check.specs.Rup.Posed.{IsPosed};
ghost use Rattle.wf_sat_check.specs.Rup.Whole.{IsRefusedProofOf, formula_of};

use crate::rup::checker::Checker;
use crate::rup::proof::{Proof, ProofFault};
use std::alloc::{AllocError, Global};
use wf_sat_text::drat::Literal;

/// Checks that the proof in the bytes `proof` refutes `clauses`, whose variables are those from 1
/// to `variables`.
///
/// The proof is not trusted: whatever its bytes are, if it is accepted then `clauses` have no
/// common model.
///
/// # Errors
///
/// Returns the first fault of the proof, by the definition of its text: a parse error, a lemma that
/// may not be added to what is known at that point, or an end before the contradiction. Returns
/// [`ProofFault::OutOfMemory`] if memory runs out first.
pub fn check_proof(
    alloc: Global,
    variables: u32,
    clauses: &[Vec<Literal>],
    proof: &[u8],
) -> Result<(), ProofFault>
    ensures accepted { IfOk result
        (λ accepted. IsUnsatisfiable (formula_of variables clauses.now)) }
    ensures refused { IfErr result
        (IsRefusedProofOf (formula_of variables clauses.now) proof.now) }
{
    let Ok(mut checker) = pose(alloc, variables, clauses) else {
        return Err(ProofFault::OutOfMemory);
    };
    let mut reading = Proof::new(alloc, variables);
    if let Err(fault) = reading.feed(alloc, &mut checker, proof) {
        return Err(fault);
    }
    reading.finish(alloc, &mut checker)
}

/// Creates a checker that knows `clauses` and nothing else.
fn pose(alloc: Global, variables: u32, clauses: &[Vec<Literal>]) -> Result<Checker, AllocError>
    ensures { IfOk result (IsPosed (formula_of variables clauses.now)) }
{
    let mut checker = Checker::new(alloc, variables)?;
    'clauses: for clause in clauses {
        checker.add(alloc, clause)?;
    }
    Ok(checker)
}
