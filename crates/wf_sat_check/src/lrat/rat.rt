//! The check whether a clause is a resolution asymmetric tautology (RAT) on its first literal, the
//! pivot.

ghost use Rattle.std.specs.Prelude.{◌≡◌, IfOk, OnOk, true};
ghost use Rattle.wf_sat_text.specs.Drat.Codes.{literal_of};
ghost use Rattle.wf_sat_check.specs.Lrat.Hints.{by_candidate, by_pivot, by_resolvent, has_literal, others_in, others_than, resolved, without_groups};
ghost use Rattle.wf_sat_check.specs.Lrat.Ledger.{slot_of};
ghost use Rattle.wf_sat_check.specs.Lrat.Slots.{clause_of};

use crate::lrat::clauses::LratClauses;
use crate::lrat::follow::{LratOutcome, assume_others, follow};
use crate::lrat::groups::{behind_group, is_group_of};
use crate::lrat::scan::is_other_true;
use crate::lrat::trail::flipped;
use crate::lrat::verdict::LratVerdict;
use crate::store::Trail;
use std::alloc::AllocError;
use wf_sat_text::drat::Code;
use wf_sat_text::lrat::Hint;

/// Returns the verdict on the groups `hints` that have to show that `lemma` is RAT on its first
/// literal. `trail` has the negated literals of `lemma` and what the hints before the groups
/// forced.
pub(crate) fn check_rat(
    clauses: &LratClauses,
    trail: &mut Trail,
    lemma: &[Code],
    hints: &[Hint],
) -> Result<LratVerdict, AllocError>
    ensures { IfOk result (λ v. v
        ≡ by_pivot clauses.now (clause_of trail.old) (clause_of lemma.now) hints.now) }
{
    if lemma.is_empty() {
        return Ok(LratVerdict::NoConflict);
    }
    let verdict = resolve(clauses, trail, flipped(lemma[0]), hints)?;
    if hints.is_empty() {
        Ok(without_groups(verdict))
    } else {
        Ok(verdict)
    }
}

/// Returns the verdict on a lemma without groups: a missing group is reported as a missing
/// conflict.
fn without_groups(verdict: LratVerdict) -> LratVerdict
    ensures { result ≡ without_groups verdict }
{
    match verdict {
        LratVerdict::ClauseLeftOut => LratVerdict::NoConflict,
        other => other,
    }
}

/// Returns the verdict on the groups `hints`: visits all clauses that have `negated`, the negation
/// of the pivot, in the order of their ids. The groups have to be in the same order.
fn resolve(
    clauses: &LratClauses,
    trail: &mut Trail,
    negated: Code,
    hints: &[Hint],
) -> Result<LratVerdict, AllocError>
    ensures { IfOk result (λ v. v ≡ resolved clauses.now (clause_of trail.old)
        (literal_of negated) 1 clauses.now hints.now) }
{
    let mut left = hints;
    'ids: for number in clauses.first(negated)..clauses.len() {
        let id = number as u64 + 1;
        if clauses.has_literal(id, negated) {
            let verdict = check_resolvent(clauses, trail, negated, id, left)?;
            if !matches!(verdict, LratVerdict::Conflict) {
                return Ok(verdict);
            }
            left = behind_group(id, left);
        }
    }
    Ok(LratVerdict::Conflict)
}

/// Returns the verdict on the resolvent with the clause of the id `id`, which has `negated`. The
/// resolvent needs no group if one of that clause's other literals is true; otherwise the first
/// group of `hints` has to be the one of `id`.
///
/// `trail` is the same at the end, unless memory runs out.
fn check_resolvent(
    clauses: &LratClauses,
    trail: &mut Trail,
    negated: Code,
    id: u64,
    hints: &[Hint],
) -> Result<LratVerdict, AllocError>
    requires { has_literal (slot_of clauses.now id) (literal_of negated) ≡ true }
    ensures undone { OnOk result (trail.new ≡ trail.old) }
    ensures verdict { IfOk result (λ v. v ≡ by_candidate clauses.now (clause_of trail.old)
        (others_in (literal_of negated) (slot_of clauses.now id)) id hints.now) }
{
    let Some(clause) = clauses.literals(id) else {
        return Ok(LratVerdict::ClauseLeftOut);
    };
    if is_other_true(clause, negated, trail) {
        return Ok(LratVerdict::Conflict);
    }
    if !is_group_of(id, hints) {
        return Ok(LratVerdict::ClauseLeftOut);
    }
    refute(clauses, trail, clause, negated, &hints[1..])
}

/// Returns the verdict on the hints of a group, under the additional assumption that all literals
/// of `clause` except `aside` are false.
///
/// `trail` is the same at the end, unless memory runs out.
fn refute(
    clauses: &LratClauses,
    trail: &mut Trail,
    clause: &[Code],
    aside: Code,
    hints: &[Hint],
) -> Result<LratVerdict, AllocError>
    ensures undone { OnOk result (trail.new ≡ trail.old) }
    ensures verdict { IfOk result (λ v. v ≡ by_resolvent clauses.now (clause_of trail.old)
        (others_than (literal_of aside) (clause_of clause.now)) hints.now) }
{
    let count = trail.len();
    assume_others(trail, clause, aside)?;
    let course = follow(clauses, trail, hints)?;
    trail.undo(count);
    match course {
        LratOutcome::Stops { verdict } => Ok(verdict),
        LratOutcome::GoesOn => Ok(LratVerdict::NoConflict),
    }
}
