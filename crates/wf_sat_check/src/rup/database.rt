//! The clause database and the literals that it forces, as codes.

ghost use Rattle.std.specs.Prelude.{◌≡◌, ◌++◌, ◌∷◌, [], false, true, IfOk, IsTrue};
ghost use Rattle.wf_sat_check.specs.Rup.Deleted.{DeletesStored, HasAlikeStored, IsStoredWithout};
ghost use Rattle.wf_sat_check.specs.Rup.Kept.{IsStored, StoresAtMost, StoresStill};
ghost use Rattle.wf_sat_check.specs.Rup.Propagation.{AddsClause};
ghost use Rattle.wf_sat_check.specs.Rup.Rat.{IsStoredRedundant, KeepsStoredSatisfiable, RefusesBoth};
ghost use Rattle.wf_sat_check.specs.Rup.Stored.{HasNoStoredModel, KeepsStoredModels, KeepsStoredModelsOf, KeepsStoredModelsWith, StoresNothing, kept_of};
ghost use Rattle.wf_sat_check.specs.Store.Literals.{has};

use crate::rup::propagation::propagate;
use crate::rup::rat::is_justified;
use crate::rup::scan::{other_open_literal, unfalsified_literal};
use crate::rup::watches::{Watcher, Watches};
use crate::store::{ClauseDb, Trail};
use std::alloc::{AllocError, Global};
use std::marker::Model;
use wf_sat_text::drat::Code;

/// The number of deleted clauses up to which their memory is never released.
const FEW: usize = 4096;

/// The clauses that a checker keeps, and the literals that they force by unit propagation.
///
/// Contracts see what is stored: the literals, the clauses that were not deleted, and whether they
/// were refuted.
#[derive(Drop)]
pub(crate) struct Database {
    trail: Trail,
    clauses: ClauseDb,
    watches: Watches,
    is_refuted: bool,
    // the number of deleted clauses that still take memory
    forgotten: usize,
}

impl Model for Database {
    ghost use Rattle.wf_sat_check.specs.Rup.Stored.{Stored, kept_of};

    ghost Value = { Stored };

    ghost view = { λ c. record {
      literals = c.trail;
      clauses = kept_of c.clauses;
      is_refuted = c.is_refuted;
    } };
}

impl Database {
    /// Creates an empty database for the variables from 1 to `variables`.
    pub(crate) fn new(alloc: Global, variables: u32) -> Result<Database, AllocError>
        ensures nothing { IfOk result StoresNothing }
        ensures empty { IfOk result (λ database. database.clauses ≡ []) }
    {
        let codes = 2 * variables as usize + 2;
        Ok(Database {
            trail: Trail::new(alloc, codes)?,
            clauses: ClauseDb::new(alloc, codes)?,
            watches: Watches::new(alloc, codes)?,
            is_refuted: false,
            forgotten: 0,
        })
    }

    /// Returns whether the clauses were refuted: the empty clause was derived or added, or
    /// propagation found a conflict without any assumption. If `true`, what was added has no model.
    pub(crate) fn is_refuted(&self) -> bool
        ensures sound { IsTrue result → HasNoStoredModel self.now }
        ensures exact { result ≡ self.now.is_refuted }
    {
        self.is_refuted
    }

    /// Adds `clause` without checking it, and propagates what it forces.
    ///
    /// The clause is stored if two of its literals are not false. If only one is not false, that
    /// literal becomes true; if none is, the clauses are refuted.
    pub(crate) fn add(&mut self, alloc: Global, clause: &[Code]) -> Result<(), AllocError>
        ensures sound { KeepsStoredModelsOf clause.now self.old self.new }
        ensures kept { IfOk result (λ done. IsStored clause.now self.new) }
        ensures still { IfOk result (λ done. StoresStill self.old self.new) }
        ensures alone { IfOk result (λ done. StoresAtMost clause.now self.old self.new) }
    {
        let Some(first) = unfalsified_literal(clause, &self.trail) else {
            self.is_refuted = true;
            return Ok(());
        };
        match other_open_literal(clause, &self.trail, first) {
            Some(second) => {
                let watched = (first, second);
                store(alloc, clause, watched, &mut self.clauses, &mut self.watches)?;
                Ok(())
            }
            None => self.force(alloc, first),
        }
    }

    /// Releases the memory of deleted clauses by storing the others anew, which renumbers them.
    fn compact(&mut self, alloc: Global) -> Result<(), AllocError>
        ensures { self.new ≡ self.old }
    {
        let mut clauses = ClauseDb::new(alloc, self.trail.room())?;
        self.watches.clear();
        'clauses: for number in 0..self.clauses.len() {
            let clause = self.clauses.literals(number);
            if clause.is_empty() {
                continue;
            }
            let watched = self.clauses.watched(number);
            store(alloc, clause, watched, &mut clauses, &mut self.watches)?;
        }
        self.clauses = clauses;
        self.forgotten = 0;
        Ok(())
    }

    /// Releases the memory of deleted clauses if there are more than [`FEW`] and they are more than
    /// half of all.
    fn compact_in_time(&mut self, alloc: Global) -> Result<(), AllocError>
        ensures { self.new ≡ self.old }
    {
        if self.forgotten > FEW && self.forgotten > self.clauses.len() / 2 {
            self.compact(alloc)?;
        }
        Ok(())
    }

    /// Makes `literal` true and propagates what it forces. A conflict refutes the clauses.
    fn force(&mut self, alloc: Global, literal: Code) -> Result<(), AllocError>
        ensures sound { KeepsStoredModelsWith literal self.old self.new }
        ensures kept { IfOk result (λ done. has self.new.literals literal ≡ true) }
        ensures still { IfOk result (λ done. StoresStill self.old self.new) }
        ensures same { self.new.clauses ≡ self.old.clauses }
    {
        if self.trail.is_true(literal) {
            return Ok(());
        }
        let from = self.trail.len();
        self.trail.put(literal)?;
        if propagate(
            alloc,
            from,
            &mut self.clauses,
            &mut self.trail,
            &mut self.watches,
        )? {
            self.is_refuted = true;
        }
        Ok(())
    }

    /// Checks whether `lemma` follows by reverse unit propagation or is RAT on its first literal,
    /// and adds it if so. Returns whether it does; otherwise nothing changes. Once the clauses are
    /// refuted each lemma is accepted.
    pub(crate) fn derive(&mut self, alloc: Global, lemma: &[Code]) -> Result<bool, AllocError>
        ensures redundant { IfOk result
            (λ taken. IsTrue taken → IsStoredRedundant self.old lemma.now) }
        ensures refused { IfOk result (λ taken. taken ≡ false → RefusesBoth self.old lemma.now) }
        ensures unchanged { IfOk result (λ taken. taken ≡ false → self.new ≡ self.old) }
        ensures stored { IfOk result (λ taken. IsTrue taken → IsStored lemma.now self.new) }
        ensures still { IfOk result (λ taken. StoresStill self.old self.new) }
        ensures alone { IfOk result (λ taken. StoresAtMost lemma.now self.old self.new) }
        ensures kept { KeepsStoredSatisfiable self.old self.new }
    {
        if self.is_refuted {
            return Ok(true);
        }
        self.compact_in_time(alloc)?;
        let justified = is_justified(
            alloc,
            lemma,
            &mut self.clauses,
            &mut self.trail,
            &mut self.watches,
        )?;
        if justified {
            self.add(alloc, lemma)?;
        }
        Ok(justified)
    }

    /// Deletes one clause that has the same literals as `clause`, if there is one. Literals that it
    /// forced stay true.
    pub(crate) fn delete(&mut self, clause: &[Code]) -> Result<(), AllocError>
        ensures exact { DeletesStored clause.now self.old self.new }
        ensures found { IfOk result (λ done. HasAlikeStored clause.now self.old
            → IsStoredWithout clause.now self.old self.new) }
        ensures kept { KeepsStoredModels self.old self.new }
    {
        if self.clauses.delete(clause)? {
            self.forgotten = self.forgotten.saturating_add(1);
        }
        Ok(())
    }
}

/// Stores `clause` in `clauses`, with the literals of `watched` as its watched literals, and enters
/// it in their watch lists.
fn store(
    alloc: Global,
    clause: &[Code],
    watched: (Code, Code),
    clauses: &mut ClauseDb,
    watches: &mut Watches,
) -> Result<(), AllocError>
    ensures sound { AddsClause clause.now (kept_of clauses.old) (kept_of clauses.new) }
    ensures exact { IfOk result (λ done. clauses.new ≡ clauses.old ++ clause.now ∷ []) }
{
    let (first, second) = watched;
    let number = clauses.len();
    watches.make_room(alloc, clause)?;
    clauses.push(alloc, clause, first, second)?;
    let place = clauses.place(number);
    watches.push(
        first,
        Watcher {
            place,
            blocker: second,
        },
    )?;
    watches.push(
        second,
        Watcher {
            place,
            blocker: first,
        },
    )
}
