//! The state of an elimination: stored equations, each solved for one of its unknowns.

use crate::fault::{EliminationFault, judge_entries};
use crate::kept::{Solved, Use};
use crate::ring::Ring;
use crate::row::{Coefficient, FIRST_ROOM, SparseRow};
use std::alloc::{AllocError, Global};

/// The number of stored entries for which memory is taken at first.
const ENTRY_ROOM: usize = 4 * FIRST_ROOM;

/// A system of linear equations modulo a prime power, each stored equation solved for an unknown of
/// its highest level.
///
/// Each unknown has a level below [`LEVELS`](crate::LEVELS). The first unknown is the constant: it
/// has level 0, and no other one has. An equation is built from terms by [`Elimination::add`] and
/// then taken in by [`Elimination::take_in`].
#[derive(Drop)]
pub struct Elimination {
    pub(crate) ring: Ring,
    pub(crate) row: SparseRow,
    // the terms of the current equation on one level, and then those on lower levels
    pub(crate) current: Vec<Coefficient>,
    // the terms of all stored equations
    pub(crate) entries: Vec<Coefficient>,
    pub(crate) solved: Vec<Solved>,
    pub(crate) uses: Vec<Use>,
    pub(crate) steps: u64,
}

impl Elimination {
    /// Creates a system without unknowns and equations.
    ///
    /// # Errors
    ///
    /// Returns `AllocError` if memory runs out.
    pub fn new(alloc: Global, ring: Ring) -> Result<Elimination, AllocError> {
        Ok(Elimination {
            ring,
            row: SparseRow::new(alloc)?,
            current: Vec::with_capacity(alloc, FIRST_ROOM)?,
            entries: Vec::with_capacity(alloc, ENTRY_ROOM)?,
            solved: Vec::with_capacity(alloc, FIRST_ROOM)?,
            uses: Vec::with_capacity(alloc, ENTRY_ROOM)?,
            steps: 0,
        })
    }

    /// Adds an unknown of the given level, and returns its number. Numbers begin with 0 and
    /// increase by one each, as long as no equation has been taken in: taking one in may add
    /// unknowns of its own.
    ///
    /// # Errors
    ///
    /// - [`EliminationFault::Internal`]: there is no such level.
    /// - [`EliminationFault::TooManyUnknowns`]: there are [`MAX_UNKNOWNS`](crate::MAX_UNKNOWNS)
    ///   already.
    /// - [`EliminationFault::OutOfMemory`]: memory ran out.
    pub fn add_unknown(&mut self, level: u8) -> Result<u32, EliminationFault> {
        self.row.add_unknown(level)
    }

    /// Adds the term `factor` times `unknown` to the equation that is taken in next. `factor` is
    /// less than the modulus.
    ///
    /// # Errors
    ///
    /// Returns [`EliminationFault::Internal`] if there is no such unknown, and
    /// [`EliminationFault::OutOfMemory`] if memory runs out.
    pub fn add(&mut self, unknown: u32, factor: u32) -> Result<(), EliminationFault> {
        self.row.add(self.ring, Coefficient { unknown, factor }, 1)
    }

    /// Fails with `TooManyEntries` if more is stored than the limit allows.
    pub(crate) fn judge_size(&self) -> Result<(), EliminationFault> {
        judge_entries((self.entries.len() as u64).saturating_add(self.uses.len() as u64))
    }
}
