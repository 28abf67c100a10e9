//! The checker of single clauses with their hints.

ghost use Rattle.std.specs.Prelude.{◌≡◌, [], IfOk, OnErr, OnOk, IsTrue, is_ok, if◌then◌else◌};
ghost use Rattle.wf_sat_check.specs.Lrat.Hints.{after_verdict, is_next_id, verdict_by, verdict_of};
ghost use Rattle.wf_sat_check.specs.Lrat.Ledger.{added, deleted, empty_ledger};
ghost use Rattle.wf_sat_check.specs.Lrat.Models.{HasNoModel, IsRedundant, KeepsModels, KeepsSatisfiable};
ghost use Rattle.wf_sat_check.specs.Lrat.Slots.{clause_of};
ghost use Rattle.wf_sat_check.specs.declared.lrat.verdict.LratVerdict.TheVariants.{Conflict};

use crate::lrat::clauses::LratClauses;
use crate::lrat::follow::{LratOutcome, assume, follow};
use crate::lrat::groups::next_group;
use crate::lrat::rat::check_rat;
use crate::lrat::scan::is_one_true;
use crate::lrat::verdict::LratVerdict;
use crate::store::Trail;
use std::alloc::{AllocError, Global};
use std::marker::Model;
use wf_sat_text::drat::{Code, Literal};
use wf_sat_text::lrat::Hint;

/// The limit for the ids of clauses: the id of a new clause is at most this many times the number
/// of clauses that were ever kept, the new one included.
///
/// So the memory for ids grows with the length of a proof. Solvers number their clauses one by one,
/// or skip a few numbers.
pub const MAX_ID_GROWTH: u64 = 64;

/// A clause database, with clauses found by their ids, that checks new clauses by their hints.
///
/// Contracts see the clause of each id, the number of clauses that were ever kept, and whether they
/// were refuted. If memory runs out nothing changes.
#[derive(Drop)]
pub struct LratChecker {
    variables: u32,
    clauses: LratClauses,
    trail: Trail,
    // scratch space: the codes of the literals of the clause that was given
    codes: Vec<Code>,
    count: u64,
    is_refuted: bool,
}

impl Model for LratChecker {
    ghost use Rattle.std.specs.Prelude.{◌≡◌, ◌≤◌, [], length};
    ghost use Rattle.wf_sat_check.specs.Lrat.Ledger.{Ledger};

    ghost Value = { Ledger };

    ghost view = { λ c. record {
      variables = c.variables;
      slots = c.clauses;
      count = c.count;
      is_refuted = c.is_refuted;
    } };

    ghost invariant = { λ c. record { idle : c.trail ≡ []; few : c.count ≤ length c.clauses } };
}

impl LratChecker {
    /// Creates a checker without clauses, for the variables from 1 to `variables`. Larger variables
    /// are accepted too, at the cost of memory for all variables below them.
    ///
    /// # Errors
    ///
    /// Returns `AllocError` if memory runs out.
    pub fn new(alloc: Global, variables: u32) -> Result<LratChecker, AllocError>
        ensures { IfOk result (λ checker. checker ≡ empty_ledger variables) }
    {
        Ok(LratChecker {
            variables,
            clauses: LratClauses::new(alloc, 2 * variables as usize + 2)?,
            trail: Trail::new(alloc, 2 * variables as usize + 2)?,
            codes: Vec::new(alloc),
            count: 0,
            is_refuted: false,
        })
    }

    /// Returns the number of variables that the checker was created with. Variables that were used
    /// beyond it do not count.
    pub fn variables(&self) -> u32
        ensures { result ≡ self.now.variables }
    {
        self.variables
    }

    /// Returns whether an empty clause was added or derived. If `true`, the clauses that were added
    /// have no common model.
    #[inline]
    pub fn is_refuted(&self) -> bool
        ensures sound { IsTrue result → HasNoModel self.now }
        ensures exact { result ≡ self.now.is_refuted }
    {
        self.is_refuted
    }

    /// Adds `clause` without checking it, under the id after the largest one so far. The first
    /// clause has the id 1.
    ///
    /// # Errors
    ///
    /// Returns `AllocError` if memory runs out; nothing changes then.
    pub fn add(&mut self, clause: &[Literal]) -> Result<(), AllocError>
        ensures { self.new ≡ (if is_ok result then added clause.now self.old else self.old) }
    {
        put_codes(&mut self.codes, clause)?;
        self.clauses.put(self.clauses.len() + 1, &self.codes)?;
        self.count += 1;
        self.is_refuted |= clause.is_empty();
        Ok(())
    }

    /// Checks whether `hints` justify `clause`, and keeps it under the id `id` if so. Returns
    /// [`LratVerdict::Conflict`] in that case; with any other verdict nothing changes.
    ///
    /// All literals of `clause` are assumed to be false. The clauses that the hints name are then
    /// visited in order, up to the first negative hint: each needs exactly one literal that is not
    /// false, which becomes true, until a clause is false. That is the conflict by which `clause`
    /// follows. If there is none, the groups of hints that begin with negative ones have to show
    /// that `clause` is a resolution asymmetric tautology (RAT) on its first literal. A clause that
    /// has a literal and its negation needs no hints.
    ///
    /// If what was known has a model, so has what is known with `clause`.
    ///
    /// # Errors
    ///
    /// Returns `AllocError` if memory runs out; nothing changes then.
    pub fn derive(
        &mut self,
        id: u64,
        clause: &[Literal],
        hints: &[Hint],
    ) -> Result<LratVerdict, AllocError>
        ensures verdict { IfOk result (λ v. v ≡ verdict_of self.old id clause.now hints.now) }
        ensures after { IfOk result (λ v. self.new ≡ after_verdict v id clause.now self.old) }
        ensures unchanged { OnErr result (self.new ≡ self.old) }
        ensures sound { IfOk result (λ v. v ≡ Conflict → IsRedundant self.old clause.now) }
        ensures kept { KeepsSatisfiable self.old self.new }
    {
        self.judge(id, clause, hints)
    }

    /// Deletes the clauses with the ids `ids`. An id that no clause has is skipped.
    pub fn delete(&mut self, ids: &[u64])
        ensures exact { self.new ≡ deleted ids.now self.old }
        ensures kept { KeepsModels self.old self.new }
    {
        self.empty(ids);
    }

    /// Deletes the clauses with the ids `ids`. The contract of this function is only the exact one,
    /// from which that of [`delete`](LratChecker::delete) is proved.
    fn empty(&mut self, ids: &[u64])
        ensures { self.new ≡ deleted ids.now self.old }
    {
        'ids: for id in ids {
            self.clauses.delete(*id);
        }
    }

    /// Checks whether `hints` justify `clause`, and keeps it under the id `id` if so, as
    /// [`derive`](LratChecker::derive) does. The contract of this function is only the exact one,
    /// from which that of `derive` is proved.
    fn judge(
        &mut self,
        id: u64,
        clause: &[Literal],
        hints: &[Hint],
    ) -> Result<LratVerdict, AllocError>
        ensures verdict { IfOk result (λ v. v ≡ verdict_of self.old id clause.now hints.now) }
        ensures after { IfOk result (λ v. self.new ≡ after_verdict v id clause.now self.old) }
        ensures unchanged { OnErr result (self.new ≡ self.old) }
    {
        if !self.is_next_id(id) {
            return Ok(LratVerdict::IdOutOfRange);
        }
        self.clauses.compact_in_time();
        put_codes(&mut self.codes, clause)?;
        let verdict = verdict_by(&self.clauses, &mut self.trail, &self.codes, hints)?;
        if !matches!(verdict, LratVerdict::Conflict) {
            return Ok(verdict);
        }
        self.clauses.put(id as usize, &self.codes)?;
        self.count += 1;
        self.is_refuted |= clause.is_empty();
        Ok(LratVerdict::Conflict)
    }

    /// Returns whether a new clause may have the id `id`: it is larger than all ids so far, and
    /// within the limit of [`MAX_ID_GROWTH`].
    fn is_next_id(&self, id: u64) -> bool
        ensures { result ≡ is_next_id self.now id }
    {
        id > self.clauses.len() as u64 && id <= MAX_ID_GROWTH.saturating_mul(self.count + 1)
    }
}

/// Replaces `codes` by the codes of the literals of `clause`.
fn put_codes(codes: &mut Vec<Code>, clause: &[Literal]) -> Result<(), AllocError>
    ensures { OnOk result (clause_of codes.new.items ≡ clause.now) }
{
    codes.clear();
    'literals: for literal in clause {
        codes.push(literal.code())?;
    }
    Ok(())
}

/// Returns the verdict on `clause` and `hints`. `trail` has to be empty, and is emptied at the end,
/// even if memory runs out.
fn verdict_by(
    clauses: &LratClauses,
    trail: &mut Trail,
    clause: &[Code],
    hints: &[Hint],
) -> Result<LratVerdict, AllocError>
    requires { trail.old ≡ [] }
    ensures idle { trail.new ≡ [] }
    ensures verdict { IfOk result
        (λ v. v ≡ verdict_by clauses.now (clause_of clause.now) hints.now) }
{
    let verdict = on_trail(clauses, trail, clause, hints);
    trail.undo(0);
    verdict
}

/// Returns the verdict on `clause` and `hints`, and leaves the assumed and the forced literals on
/// `trail`, which has to be empty at the beginning.
fn on_trail(
    clauses: &LratClauses,
    trail: &mut Trail,
    clause: &[Code],
    hints: &[Hint],
) -> Result<LratVerdict, AllocError>
    requires { trail.old ≡ [] }
    ensures { IfOk result (λ v. v ≡ verdict_by clauses.now (clause_of clause.now) hints.now) }
{
    assume(trail, clause)?;
    if is_one_true(clause, trail) {
        return Ok(LratVerdict::Conflict);
    }
    match follow(clauses, trail, hints)? {
        LratOutcome::Stops { verdict } => Ok(verdict),
        LratOutcome::GoesOn => check_rat(clauses, trail, clause, next_group(hints)),
    }
}
