//! Unit propagation that looks at each clause, without watch lists.
//!
//! It runs before a lemma is refused, after propagation by watch lists has found no conflict. So a
//! refusal does not depend on the watch lists being complete.

ghost use Rattle.std.specs.Prelude.{◌≡◌, false, IfOk, IsTrue};
ghost use Rattle.wf_sat_check.specs.Rup.Propagation.{Conflicts, Extends};
ghost use Rattle.wf_sat_check.specs.Rup.Settled.{HoldsNever, IsConsistent, Stands, StandsOneOf, Stops};
ghost use Rattle.wf_sat_check.specs.Rup.Stored.{kept_of};

use crate::rup::scan::{is_satisfied, other_open_literal, unfalsified_literal};
use crate::store::{ClauseDb, Trail};
use std::alloc::AllocError;
use wf_sat_text::drat::Code;

/// The status of a clause under the literals that are true.
pub(crate) enum Standing {
    /// The clause forces nothing: one of its literals is true, or at least two are not false.
    Settled,
    /// The clause is unit: all its literals but the given one are false, and that one is not true.
    Forces(Code),
    /// The clause is a conflict: all its literals are false.
    Fails,
}

/// Appends to `trail` all literals that `clauses` force, until nothing changes or there is a
/// conflict. Returns whether there is a conflict: a clause that is false, or a literal that is true
/// together with its negation.
///
/// Each forced literal costs a scan of the clauses.
pub(crate) fn settle(clauses: &ClauseDb, trail: &mut Trail) -> Result<bool, AllocError>
    ensures trail { Extends (kept_of clauses.now) trail.old trail.new }
    ensures conflict { IfOk result (λ found. IsTrue found
        → Conflicts (kept_of clauses.now) trail.old) }
    ensures stops { IfOk result (λ found. found ≡ false
        → Stops (kept_of clauses.now) trail.new) }
{
    'rounds: loop {
        match first_unsettled(clauses, trail) {
            Standing::Settled => return Ok(is_contradictory(trail)),
            Standing::Forces(literal) => trail.put(literal)?,
            Standing::Fails => return Ok(true),
        }
    }
}

/// Returns the status of the first clause that is unit or false, or [`Standing::Settled`] if there
/// is none. Deleted clauses are skipped.
fn first_unsettled(clauses: &ClauseDb, trail: &Trail) -> Standing
    ensures { StandsOneOf (kept_of clauses.now) trail.now result }
{
    for number in 0..clauses.len() {
        let clause = clauses.literals(number);
        if clause.is_empty() {
            continue;
        }
        match judge(clause, trail) {
            Standing::Settled => {}
            found => return found,
        }
    }
    Standing::Settled
}

/// Returns the status of `clause`.
fn judge(clause: &[Code], trail: &Trail) -> Standing
    ensures { Stands trail.now clause.now result }
{
    if is_satisfied(clause, trail) {
        return Standing::Settled;
    }
    let Some(first) = unfalsified_literal(clause, trail) else {
        return Standing::Fails;
    };
    match other_open_literal(clause, trail, first) {
        Some(_) => Standing::Settled,
        None => Standing::Forces(first),
    }
}

/// Returns whether a literal on `trail` is true together with its negation.
fn is_contradictory(trail: &Trail) -> bool
    ensures sound { IsTrue result → HoldsNever trail.now }
    ensures exact { result ≡ false → IsConsistent trail.now }
{
    for literal in trail.literals() {
        if trail.is_false(*literal) {
            return true;
        }
    }
    false
}
