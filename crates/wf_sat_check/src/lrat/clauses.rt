//! The clause database by ids.

ghost use Rattle.std.specs.Prelude.{◌≡◌, ℕ, false, ◌<◌, ◌-◌, ◌^◌, ◌∷◌, ◌++◌, [], Some, None, IfOk, MatchOption, get_or, is_ok, if◌then◌else◌, length, replicate};
ghost use Rattle.wf_sat_text.specs.Drat.Codes.{literal_of};
ghost use Rattle.wf_sat_check.specs.Lrat.Hints.{has_literal};
ghost use Rattle.wf_sat_check.specs.Lrat.Ledger.{emptied, slot_of};
ghost use Rattle.wf_sat_check.specs.Lrat.Slots.{clause_of};

use crate::lrat::packing::pack;
use crate::lrat::scan::has_code;
use crate::store::FirstOccurrence;
use std::alloc::{AllocError, Global};
use std::marker::Model;
use wf_sat_text::drat::Code;

/// The largest number of words that the arena may have.
const MAX_WORDS: usize = u32::MAX as usize;

/// The largest index that the database notes for the literals of a clause. A clause with a larger
/// index is noted with this one.
const LAST: usize = u32::MAX as usize - 1;

/// The number of words of deleted clauses up to which the arena is never compacted.
const FEW: usize = 4096;

/// The clauses by their ids, from 1, one after the other in a single list of words, the arena. For
/// each clause the arena has the number of its literals, and then their codes.
///
/// Contracts see for each id its clause, or `None` if there is none.
#[derive(Drop)]
pub(crate) struct LratClauses {
    arena: Vec<Code>,
    // the index in the arena at which the literals of each id begin, or 0 if it has no clause
    places: Vec<u32>,
    // for each literal a lower bound on the indices of the clauses that have it; the index is the
    // id minus 1
    firsts: FirstOccurrence,
    // the number of words in the arena that belong to deleted clauses
    dead: usize,
}

impl Model for LratClauses {
    ghost use Rattle.std.specs.Prelude.{List, Option, length};
    ghost use Rattle.wf_sat_text.specs.Clauses.Formula.{Clause};
    ghost use Rattle.wf_sat_check.specs.Lrat.Slots.{AreFirsts, AreLaid, slots_in};

    ghost Value = { List (Option Clause) };

    ghost view = { λ c. slots_in c.arena.items c.places.items };

    ghost invariant = { λ c. record {
      laid : AreLaid c.arena.items 0 c.places.items (length c.arena.items);
      firsts : AreFirsts c.firsts (slots_in c.arena.items c.places.items);
    } };
}

impl LratClauses {
    /// Creates a database without clauses, with room for literals whose codes are below `codes`.
    pub(crate) fn new(alloc: Global, codes: usize) -> Result<LratClauses, AllocError>
        ensures { IfOk result (λ clauses. clauses ≡ []) }
    {
        Ok(LratClauses {
            arena: Vec::new(alloc),
            places: Vec::new(alloc),
            firsts: FirstOccurrence::new(alloc, codes)?,
            dead: 0,
        })
    }

    /// Returns the largest id that a clause ever had, or 0 if there was no clause.
    #[inline]
    pub(crate) fn len(&self) -> usize
        ensures exact { result ≡ length self.now }
        ensures small { result < 2 ^ 63 }
    {
        self.places.len()
    }

    /// Returns the literals of the clause with the id `id`, or `None` if there is no such clause or
    /// it was deleted.
    #[inline(always)]
    pub(crate) fn literals(&self, id: u64) -> Option<&[Code]>
        ensures { MatchOption result (slot_of self.now id ≡ None)
            (λ codes. slot_of self.now id ≡ Some (clause_of codes.now)) }
    {
        if id == 0 || id > self.places.len() as u64 {
            return None;
        }
        let place = self.places[(id - 1) as usize] as usize;
        if place == 0 {
            return None;
        }
        let size = self.arena[place - 1] as usize;
        Some(&self.arena[place..place + size])
    }

    /// Returns whether there is a clause with the id `id` and it has `literal`.
    pub(crate) fn has_literal(&self, id: u64, literal: Code) -> bool
        ensures { result ≡ has_literal (slot_of self.now id) (literal_of literal) }
    {
        match self.literals(id) {
            Some(clause) => has_code(clause, literal),
            None => false,
        }
    }

    /// Returns a lower bound on the indices of the clauses that have `literal`. The index of a
    /// clause is its id minus 1.
    pub(crate) fn first(&self, literal: Code) -> usize
        ensures { (k : ℕ) → k < result
            → has_literal (get_or self.now k None) (literal_of literal) ≡ false }
    {
        self.firsts.of(literal) as usize
    }

    /// Keeps `clause` under the id `id`, which has to be larger than all ids so far. The ids
    /// between have no clause.
    ///
    /// # Errors
    ///
    /// Returns `AllocError` if memory runs out, or if all clauses together would take more than
    /// 2^32 - 1 words (one and the literals for each; deleted clauses count until they are removed
    /// by [`compact_in_time`](LratClauses::compact_in_time)). The clauses are then unchanged.
    pub(crate) fn put(&mut self, id: usize, clause: &[Code]) -> Result<(), AllocError>
        requires { length self.old < id }
        ensures { self.new ≡ (if is_ok result then self.old
            ++ (replicate (id - 1 - length self.old)
            None ++ Some (clause_of clause.now) ∷ []) else self.old) }
    {
        let head = self.arena.len();
        if head >= MAX_WORDS || clause.len() > MAX_WORDS - 1 - head {
            return Err(AllocError);
        }
        self.firsts.note(clause, (id - 1).min(LAST) as u32)?;
        self.arena.push(clause.len() as u32)?;
        self.arena.extend_from_slice(clause)?;
        self.places.resize(id, 0)?;
        self.places[id - 1] = (head + 1) as u32;
        Ok(())
    }

    /// Deletes the clause with the id `id`, if there is one. Its words stay in the arena.
    pub(crate) fn delete(&mut self, id: u64)
        ensures { self.new ≡ emptied id self.old }
    {
        if id == 0 || id > self.places.len() as u64 {
            return;
        }
        let at = (id - 1) as usize;
        let size = self.words_at(at);
        self.dead = self.dead.saturating_add(size);
        self.places[at] = 0;
    }

    /// Returns the number of words that the clause with the index `number` takes in the arena, or 0
    /// if there is none. The index of a clause is its id minus 1.
    fn words_at(&self, number: usize) -> usize
        requires { number < length self.now }
    {
        let place = self.places[number] as usize;
        if place == 0 {
            return 0;
        }
        self.arena[place - 1] as usize + 1
    }

    /// Removes the words of deleted clauses from the arena if there are more than [`FEW`] and they
    /// are more than half of all.
    #[inline]
    pub(crate) fn compact_in_time(&mut self)
        ensures { self.new ≡ self.old }
    {
        if self.dead > FEW && self.dead > self.arena.len() / 2 {
            self.compact();
        }
    }

    /// Removes the words of deleted clauses from the arena.
    fn compact(&mut self)
        ensures { self.new ≡ self.old }
    {
        pack(&mut self.arena, &mut self.places);
        self.dead = 0;
    }
}
