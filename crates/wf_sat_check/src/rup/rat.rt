//! The check whether a lemma may be added: it follows by unit propagation, or it is a resolution
//! asymmetric tautology (RAT) on its first literal, the pivot.
//!
//! A lemma is RAT on its pivot if its resolvent with each clause that has the negated pivot follows
//! by unit propagation. Such a lemma need not follow, but adding it keeps satisfiability. A true
//! literal counts as a unit clause; if the negated pivot is true, the resolvent with it adds
//! nothing to the lemma, so the lemma is RAT only if it follows.

ghost use Rattle.std.specs.Prelude.{◌≡◌, ℕ, false, IfOk, IsTrue, length, take};
ghost use Rattle.wf_sat_check.specs.Rup.Propagation.{Implies};
ghost use Rattle.wf_sat_check.specs.Rup.Rat.{IsJustified, ResolvesOn, resolvent_of};
ghost use Rattle.wf_sat_check.specs.Rup.Resolving.{StopsShort, StopsShortOfBoth, StopsShortOfRat};
ghost use Rattle.wf_sat_check.specs.Rup.Settled.{StopsBefore};
ghost use Rattle.wf_sat_check.specs.Store.Literals.{has};
ghost use Rattle.wf_sat_check.specs.Rup.Stored.{kept_of};
ghost use Rattle.wf_sat_check.specs.declared.rup.rat.Effort.TheVariants.{Whole};

use crate::rup::propagation::propagate;
use crate::rup::settled::settle;
use crate::rup::watches::Watches;
use crate::store::{ClauseDb, Trail, negated};
use std::alloc::{AllocError, Global};
use wf_sat_text::drat::Code;

/// The method by which a conflict is looked for.
#[derive(Clone, Copy, Debug)]
pub(crate) enum Effort {
    /// Propagation by watch lists. It is fast, but if it finds no conflict there may still be one.
    Watched,
    /// Propagation by watch lists, and then by looking at each clause. If it finds no conflict,
    /// unit propagation leads to none.
    Whole,
}

/// A clause that is to be checked, and the effort to spend on it.
#[derive(Clone, Copy)]
struct ClauseCheck<'a> {
    clause: &'a [Code],
    effort: Effort,
}

/// Returns whether `lemma` follows by unit propagation from the clauses and the true literals, or
/// is RAT on its first literal.
///
/// It tries [`Effort::Watched`] first, and [`Effort::Whole`] only before it returns `false`.
/// `trail` is unchanged at the end, even if memory runs out.
pub(crate) fn is_justified(
    alloc: Global,
    lemma: &[Code],
    clauses: &mut ClauseDb,
    trail: &mut Trail,
    watches: &mut Watches,
) -> Result<bool, AllocError>
    ensures clauses { clauses.new ≡ clauses.old }
    ensures trail { trail.new ≡ trail.old }
    ensures justified { IfOk result (λ yes. IsTrue yes
        → IsJustified (kept_of clauses.old) trail.old lemma.now) }
    ensures refused { IfOk result (λ yes. yes ≡ false
        → StopsShortOfBoth (kept_of clauses.old) trail.old lemma.now) }
{
    let watched = ClauseCheck {
        clause: lemma,
        effort: Effort::Watched,
    };
    if is_justified_with(alloc, &watched, clauses, trail, watches)? {
        return Ok(true);
    }
    let whole = ClauseCheck {
        clause: lemma,
        effort: Effort::Whole,
    };
    is_justified_with(alloc, &whole, clauses, trail, watches)
}

/// Returns whether the clause of `lemma` follows or is RAT on its first literal, as far as the
/// effort of `lemma` can show it.
fn is_justified_with(
    alloc: Global,
    lemma: &ClauseCheck,
    clauses: &mut ClauseDb,
    trail: &mut Trail,
    watches: &mut Watches,
) -> Result<bool, AllocError>
    ensures clauses { clauses.new ≡ clauses.old }
    ensures trail { trail.new ≡ trail.old }
    ensures justified { IfOk result (λ yes. IsTrue yes
        → IsJustified (kept_of clauses.old) trail.old lemma.now.clause.now) }
    ensures refused { IfOk result (λ yes. yes ≡ false → lemma.now.effort ≡ Whole
        → StopsShortOfBoth (kept_of clauses.old) trail.old lemma.now.clause.now) }
{
    if follows(alloc, lemma, clauses, trail, watches)? {
        return Ok(true);
    }
    is_rat(alloc, lemma, clauses, trail, watches)
}

/// Returns whether the clause of `lemma` is RAT on its first literal, as far as the effort of
/// `lemma` can show it. The empty clause, and a clause whose first literal is false, are not.
fn is_rat(
    alloc: Global,
    lemma: &ClauseCheck,
    clauses: &mut ClauseDb,
    trail: &mut Trail,
    watches: &mut Watches,
) -> Result<bool, AllocError>
    ensures clauses { clauses.new ≡ clauses.old }
    ensures trail { trail.new ≡ trail.old }
    ensures resolves { IfOk result (λ yes. IsTrue yes → (pivot : ℕ)
        × ResolvesOn (kept_of clauses.old) trail.old lemma.now.clause.now pivot) }
    ensures refused { IfOk result (λ yes. yes ≡ false → lemma.now.effort ≡ Whole
        → StopsShortOfRat (kept_of clauses.old) trail.old lemma.now.clause.now) }
{
    let Some(pivot) = lemma.clause.first() else {
        return Ok(false);
    };
    let negation = negated(*pivot);
    if trail.is_true(negation) {
        return Ok(false);
    }
    let mut resolvent = Vec::new(alloc);
    'clauses: for number in clauses.first_with(negation)..clauses.len() {
        let clause = clauses.literals(number);
        if !has_literal(clause, negation) {
            continue;
        }
        put_resolvent(&mut resolvent, lemma.clause, negation, clause)?;
        let candidate = ClauseCheck {
            clause: &resolvent,
            effort: lemma.effort,
        };
        if !follows(alloc, &candidate, clauses, trail, watches)? {
            return Ok(false);
        }
    }
    Ok(true)
}

/// Returns whether `clause` has `literal`.
fn has_literal(clause: &[Code], literal: Code) -> bool
    ensures { result ≡ has clause.now literal }
{
    clause.iter().any(|other| *other == literal)
}

/// Replaces `resolvent` by the literals of `lemma`, followed by those of `clause` other than
/// `negation`.
fn put_resolvent(
    resolvent: &mut Vec<Code>,
    lemma: &[Code],
    negation: Code,
    clause: &[Code],
) -> Result<(), AllocError>
    ensures { IfOk result (λ done.
        resolvent.new.items ≡ resolvent_of lemma.now negation clause.now) }
{
    resolvent.clear();
    resolvent.extend_from_slice(lemma)?;
    'literals: for literal in clause {
        if *literal != negation {
            resolvent.push(*literal)?;
        }
    }
    Ok(())
}

/// Returns whether the clause of `candidate` follows by unit propagation, as far as its effort can
/// show it. `trail` is unchanged at the end, even if memory runs out.
fn follows(
    alloc: Global,
    candidate: &ClauseCheck,
    clauses: &mut ClauseDb,
    trail: &mut Trail,
    watches: &mut Watches,
) -> Result<bool, AllocError>
    ensures clauses { clauses.new ≡ clauses.old }
    ensures trail { trail.new ≡ trail.old }
    ensures follows { IfOk result (λ yes. IsTrue yes
        → Implies (kept_of clauses.old) trail.old candidate.now.clause.now) }
    ensures refused { IfOk result (λ yes. yes ≡ false → candidate.now.effort ≡ Whole
        → StopsShort (kept_of clauses.old) trail.old candidate.now.clause.now) }
{
    let count = trail.len();
    let found = assume(alloc, candidate, clauses, trail, watches);
    trail.undo(count);
    found
}

/// Makes all literals of the clause of `candidate` false and propagates. Returns whether that leads
/// to a conflict. The assumed and the forced literals stay on `trail`, for the caller to undo.
fn assume(
    alloc: Global,
    candidate: &ClauseCheck,
    clauses: &mut ClauseDb,
    trail: &mut Trail,
    watches: &mut Watches,
) -> Result<bool, AllocError>
    ensures clauses { clauses.new ≡ clauses.old }
    ensures front { take (length trail.old) trail.new ≡ trail.old }
    ensures conflict { IfOk result (λ found. IsTrue found
        → Implies (kept_of clauses.old) trail.old candidate.now.clause.now) }
    ensures refused { IfOk result (λ found. found ≡ false → candidate.now.effort ≡ Whole
        → StopsBefore (kept_of clauses.old) candidate.now.clause.now trail.new) }
{
    let from = trail.len();
    for literal in candidate.clause {
        if trail.is_true(*literal) {
            return Ok(true);
        }
        let opposite = negated(*literal);
        trail.put(opposite)?;
    }
    if propagate(alloc, from, clauses, trail, watches)? {
        return Ok(true);
    }
    match candidate.effort {
        Effort::Watched => Ok(false),
        Effort::Whole => settle(clauses, trail),
    }
}
