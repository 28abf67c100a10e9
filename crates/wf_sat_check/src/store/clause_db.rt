//! The clause database with a lookup by literals.

ghost use Rattle.std.specs.Prelude.{◌≡◌, ◌<◌, ◌≤◌, ◌↔◌, ◌∷◌, ◌++◌, ℕ, [], false, true, All, Contains, get_or, length, is_ok, IfOk, IfSome, IsTrue, None, OnErr, if◌then◌else◌};
ghost use Rattle.wf_sat_check.specs.Store.Index.{IsAlikeAt, IsFoundAt, IsOther, IsTaken};
ghost use Rattle.wf_sat_check.specs.Store.Literals.{has};

use crate::store::alike::same_literals;
use crate::store::clauses::Clauses;
use crate::store::firsts::FirstOccurrence;
use crate::store::hash::hash_of;
use crate::store::index::{HashEntry, Index};
use crate::store::trail::Trail;
use std::alloc::{AllocError, Global};
use std::marker::Model;
use wf_sat_text::drat::Code;

/// The position at which a lookup found a clause: the index `place` of its entry in the bucket, and
/// the `number` of the clause.
#[derive(Clone, Copy)]
struct FoundClause {
    place: usize,
    number: usize,
}

/// A clause database that finds clauses by their numbers and by their literals.
///
/// Clauses are numbered from 0 in the order in which they were stored. A deleted clause keeps its
/// number and has no literals. All clauses lie one after the other in a single list of 32-bit
/// words, so a clause may also be given by the index of its first word, which is faster.
///
/// Contracts see the list of clauses; which literals a clause watches and where it begins is not
/// part of that, because it only says where to look.
#[derive(Drop)]
pub struct ClauseDb {
    clauses: Clauses,
    index: Index,
    firsts: FirstOccurrence,
    // scratch space: the literals of a clause while it is hashed or compared
    seen: Trail,
}

impl Model for ClauseDb {
    ghost use Rattle.std.specs.Prelude.{List, ℕ};
    ghost use Rattle.wf_sat_check.specs.Store.FirstOccurrence.{AreFirsts};
    ghost use Rattle.wf_sat_check.specs.Store.Index.{IsIndexed};

    ghost Value = { List (List ℕ) };

    ghost view = { λ c. c.clauses };

    ghost invariant = { λ c. IsIndexed c.clauses c.index × AreFirsts c.firsts c.clauses };
}

impl ClauseDb {
    /// Creates a database without clauses, with room for literals whose codes are below `codes`. A
    /// clause may have larger codes too, which takes more memory.
    ///
    /// # Errors
    ///
    /// Returns `AllocError` if memory runs out.
    pub fn new(alloc: Global, codes: usize) -> Result<ClauseDb, AllocError>
        ensures { IfOk result (λ clauses. clauses ≡ []) }
    {
        Ok(ClauseDb {
            clauses: Clauses::new(alloc),
            index: Index::new(alloc)?,
            firsts: FirstOccurrence::new(alloc, codes)?,
            seen: Trail::new(alloc, codes)?,
        })
    }

    /// Returns the number of clauses that were stored, including those that were deleted since.
    #[inline]
    pub fn len(&self) -> usize
        ensures { result ≡ length self.now }
    {
        self.clauses.len()
    }

    /// Returns the literals of the clause `number`, or an empty slice if it was deleted.
    #[inline]
    pub fn literals(&self, number: usize) -> &[Code]
        requires { number < length self.now }
        ensures { result.now ≡ get_or self.now number result.now }
    {
        self.clauses.literals(number)
    }

    /// Returns the two literals that the clause `number` watches.
    #[inline]
    pub fn watched(&self, number: usize) -> (Code, Code)
        requires { number < length self.now }
    {
        self.clauses.watched(number)
    }

    /// Returns a lower bound for the numbers of the clauses that have `literal`.
    ///
    /// It is the number of the first clause that was stored with `literal`, deleted or not, or
    /// `u32::MAX` if there was none. It may be lower after a call of [`push`](ClauseDb::push) that
    /// failed.
    pub fn first_with(&self, literal: Code) -> usize
        ensures { (n : ℕ) → has (get_or self.now n []) literal ≡ true → result ≤ n }
    {
        self.firsts.of(literal) as usize
    }

    /// Returns the index of the first word of the clause `number` in the list of all words.
    /// [`watched_at`](ClauseDb::watched_at), [`literals_at`](ClauseDb::literals_at) and
    /// [`watch_at`](ClauseDb::watch_at) take such an index.
    #[inline]
    pub fn place(&self, number: usize) -> u32
        requires { number < length self.now }
    {
        self.clauses.place(number)
    }

    /// Returns the two literals that are watched by the clause whose first word has the index
    /// `place`. Returns `None` if no clause begins there. A deleted clause still has its two
    /// watched literals.
    #[inline]
    pub fn watched_at(&self, place: u32) -> Option<(Code, Code)> {
        self.clauses.watched_at(place)
    }

    /// Returns the literals of the clause whose first word has the index `place`. The slice is
    /// empty if that clause was deleted or no clause begins there.
    #[inline]
    pub fn literals_at(&self, place: u32) -> &[Code]
        ensures { 0 < length result.now → Contains self.now result.now }
    {
        self.clauses.literals_at(place)
    }

    /// Makes the clause whose first word has the index `place` watch `first` and `second`. Nothing
    /// changes if no clause begins there, or if one of the two is `u32::MAX`, which is no literal.
    #[inline]
    pub fn watch_at(&mut self, place: u32, first: Code, second: Code)
        ensures { self.new ≡ self.old }
    {
        self.clauses.watch_at(place, first, second);
    }

    /// Stores `clause` under the next number, with `first` and `second` as its watched literals.
    ///
    /// # Errors
    ///
    /// Returns `AllocError` if memory runs out, if all clauses together, deleted ones included,
    /// would take more than 2^32 - 2 words (four and the literals for each), or if a literal is
    /// `u32::MAX`. The list of clauses is then unchanged.
    pub fn push(
        &mut self,
        alloc: Global,
        clause: &[Code],
        first: Code,
        second: Code,
    ) -> Result<(), AllocError>
        ensures { self.new ≡ (if is_ok result then self.old ++ clause.now ∷ [] else self.old) }
    {
        let number = self.clauses.len();
        if number >= u32::MAX as usize {
            return Err(AllocError);
        }
        let hash = hash_of(&mut self.seen, clause)?;
        let entry = HashEntry {
            hash,
            number: number as u32,
        };
        self.firsts.note(clause, number as u32)?;
        self.index.push(alloc, entry)?;
        self.clauses.push(clause, first, second)
    }

    /// Deletes one clause that has the same literals as `clause`, regardless of order and
    /// repetition. Returns whether there was one; otherwise nothing changes. An empty `clause`
    /// matches none.
    ///
    /// # Errors
    ///
    /// Returns `AllocError` if memory runs out; the list of clauses is then unchanged.
    pub fn delete(&mut self, clause: &[Code]) -> Result<bool, AllocError>
        ensures taken { IfOk result (λ taken. IsTrue taken → IsTaken clause.now self.old self.new) }
        ensures none { IfOk result (λ taken. taken ≡ false
            → (n : ℕ) → IsAlikeAt self.old clause.now n → ⊥) }
        ensures unchanged { IfOk result (λ taken. taken ≡ false → self.new ≡ self.old) }
        ensures refused { OnErr result (self.new ≡ self.old) }
    {
        let hash = hash_of(&mut self.seen, clause)?;
        let Some(found) = find(
            self.index.bucket(hash),
            &self.clauses,
            &mut self.seen,
            hash,
            clause,
        )?
        else {
            return Ok(false);
        };
        self.index.take(hash, found.place);
        self.clauses.forget(found.number);
        Ok(true)
    }
}

/// Finds the first of `entries` that has the hash `hash` and names a clause with the same literals
/// as `clause` that was not deleted.
///
/// `seen` is scratch space.
fn find(
    entries: &[HashEntry],
    clauses: &Clauses,
    seen: &mut Trail,
    hash: u32,
    clause: &[Code],
) -> Result<Option<FoundClause>, AllocError>
    ensures some { IfOk result (λ found. IfSome found
        (IsFoundAt entries.now clauses.now clause.now)) }
    ensures none { IfOk result (λ found. found ≡ None
        → All (IsOther clauses.now hash clause.now) entries.now) }
{
    for (place, entry) in entries.iter().enumerate() {
        let number = entry.number as usize;
        if entry.hash == hash && is_alike(clauses, seen, number, clause)? {
            return Ok(Some(FoundClause { place, number }));
        }
    }
    Ok(None)
}

/// Returns whether the clause `number` exists, was not deleted, and has the same literals as
/// `clause`.
fn is_alike(
    clauses: &Clauses,
    seen: &mut Trail,
    number: usize,
    clause: &[Code],
) -> Result<bool, AllocError>
    ensures { IfOk result (λ alike. IsTrue alike ↔ IsAlikeAt clauses.now clause.now number) }
{
    if number >= clauses.len() {
        return Ok(false);
    }
    let literals = clauses.literals(number);
    if literals.is_empty() {
        return Ok(false);
    }
    same_literals(seen, clause, literals)
}
