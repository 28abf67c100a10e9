//! The checker of single clauses and lemmas.

ghost use Rattle.std.specs.Prelude.{◌≡◌, [], false, IfOk, IsTrue, map};
ghost use Rattle.wf_sat_text.specs.Drat.Codes.{code_of};
ghost use Rattle.wf_sat_check.specs.Rup.Deleted.{Deletes, HasAlike, IsWithout};
ghost use Rattle.wf_sat_check.specs.Rup.Kept.{AddsAtMost, IsKept, KnowsStill};
ghost use Rattle.wf_sat_check.specs.Rup.Rat.{IsRedundant, IsUnjustified, KeepsSatisfiable};
ghost use Rattle.wf_sat_check.specs.Rup.Seen.{HasNoModel, KeepsModels, KeepsModelsOf, KnowsNothing};

use crate::rup::database::Database;
use std::alloc::{AllocError, Global};
use std::marker::Model;
use wf_sat_text::drat::{Code, Literal};

/// A clause database with unit propagation that checks lemmas and deletes clauses.
///
/// It keeps clauses, and the literals that they force by unit propagation. Contracts see what is
/// known: the literals, the clauses, and whether they were refuted. A clause of a contract without
/// `IfOk` also holds if memory ran out, so an error never makes the checker unsound.
#[derive(Drop)]
pub struct Checker {
    variables: u32,
    database: Database,
    // scratch space: the codes of the literals of a clause or lemma that was given
    codes: Vec<Code>,
}

impl Model for Checker {
    ghost use Rattle.wf_sat_check.specs.Rup.Seen.{Known, known_of};

    ghost Value = { Known };

    ghost view = { λ c. known_of c.variables c.database };
}

impl Checker {
    /// Creates a checker that knows nothing, for the variables from 1 to `variables`. Larger
    /// variables are accepted too, at the cost of memory for all variables below them.
    ///
    /// # Errors
    ///
    /// Returns `AllocError` if memory runs out.
    pub fn new(alloc: Global, variables: u32) -> Result<Checker, AllocError>
        ensures nothing { IfOk result KnowsNothing }
        ensures empty { IfOk result (λ checker. checker.clauses ≡ []) }
        ensures variables { IfOk result (λ checker. checker.variables ≡ variables) }
    {
        Ok(Checker {
            variables,
            database: Database::new(alloc, variables)?,
            codes: Vec::new(alloc),
        })
    }

    /// Returns the number of variables that the checker was created with. Variables that were used
    /// beyond it do not count.
    pub fn variables(&self) -> u32
        ensures { result ≡ self.now.variables }
    {
        self.variables
    }

    /// Returns whether the clauses were refuted: the empty clause was derived or added, or
    /// propagation found a conflict without any assumption. If `true`, the clauses that were added
    /// have no common model.
    pub fn is_refuted(&self) -> bool
        ensures sound { IsTrue result → HasNoModel self.now }
        ensures exact { result ≡ self.now.is_refuted }
    {
        self.database.is_refuted()
    }

    /// Adds `clause` without checking it, and propagates what it forces.
    ///
    /// The clause is kept, unless all its literals but one are false: then the remaining literal
    /// becomes true. If all its literals are false, or propagation finds a conflict, the clauses
    /// are refuted. No other clause is added, and nothing that was known is lost.
    ///
    /// # Errors
    ///
    /// Returns `AllocError` if memory runs out; whether `clause` was added is then unspecified, but
    /// each model of what was known and of `clause` is still a model.
    pub fn add(&mut self, alloc: Global, clause: &[Literal]) -> Result<(), AllocError>
        ensures sound { KeepsModelsOf clause.now self.old self.new }
        ensures kept { IfOk result (λ done. IsKept clause.now self.new) }
        ensures still { IfOk result (λ done. KnowsStill self.old self.new) }
        ensures alone { IfOk result (λ done. AddsAtMost clause.now self.old self.new) }
    {
        put_codes(&mut self.codes, clause)?;
        self.database.add(alloc, &self.codes)
    }

    /// Checks whether `lemma` may be added, and adds it if so. Returns whether it may.
    ///
    /// A lemma may be added if it follows by reverse unit propagation (RUP), or if it is a
    /// resolution asymmetric tautology (RAT) on its first literal. If what was known has a model,
    /// so has what is known with the lemma. If the answer is `false` nothing changes. Once the
    /// clauses are refuted each lemma is accepted.
    ///
    /// # Errors
    ///
    /// Returns `AllocError` if memory runs out; whether `lemma` was added is then unspecified, but
    /// a model exists if there was one before.
    pub fn derive(&mut self, alloc: Global, lemma: &[Literal]) -> Result<bool, AllocError>
        ensures redundant { IfOk result (λ taken. IsTrue taken → IsRedundant self.old lemma.now) }
        ensures refused { IfOk result (λ taken. taken ≡ false
            → IsUnjustified self.old lemma.now) }
        ensures unchanged { IfOk result (λ taken. taken ≡ false → self.new ≡ self.old) }
        ensures added { IfOk result (λ taken. IsTrue taken → IsKept lemma.now self.new) }
        ensures still { IfOk result (λ taken. KnowsStill self.old self.new) }
        ensures alone { IfOk result (λ taken. AddsAtMost lemma.now self.old self.new) }
        ensures kept { KeepsSatisfiable self.old self.new }
    {
        put_codes(&mut self.codes, lemma)?;
        self.database.derive(alloc, &self.codes)
    }

    /// Deletes one clause that has the same literals as `clause`, regardless of order and
    /// repetition. Literals that it forced stay true.
    ///
    /// Nothing changes if there is no such clause. That is so for a clause that was never kept
    /// because at most one of its literals was not false when it was added.
    ///
    /// # Errors
    ///
    /// Returns `AllocError` if memory runs out; no clause is deleted then.
    pub fn delete(&mut self, clause: &[Literal]) -> Result<(), AllocError>
        ensures exact { Deletes clause.now self.old self.new }
        ensures found { IfOk result (λ done. HasAlike clause.now self.old
            → IsWithout clause.now self.old self.new) }
        ensures kept { KeepsModels self.old self.new }
    {
        put_codes(&mut self.codes, clause)?;
        self.database.delete(&self.codes)
    }
}

/// Replaces `codes` by the codes of the literals of `clause`.
fn put_codes(codes: &mut Vec<Code>, clause: &[Literal]) -> Result<(), AllocError>
    ensures { IfOk result (λ done. codes.new.items ≡ map code_of clause.now) }
{
    codes.clear();
    'literals: for literal in clause {
        codes.push(literal.code())?;
    }
    Ok(())
}
