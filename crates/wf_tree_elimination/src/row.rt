//! The current equation: a sum of unknowns with coefficients that is 0.

use crate::fault::{EliminationFault, judge_unknowns, number};
use crate::queue::Queue;
use crate::ring::{Ring, divides};
use std::alloc::{AllocError, Global};

/// The number of levels of unknowns. Levels begin with 0; only the constant has level 0.
pub const LEVELS: u8 = 5;

/// The number of unknowns for which memory is taken at first, so that small systems seldom need
/// more.
pub(crate) const FIRST_ROOM: usize = 64;

/// A term: an unknown and its coefficient in an equation.
#[derive(Clone, Copy)]
pub(crate) struct Coefficient {
    pub(crate) unknown: u32,
    pub(crate) factor: u32,
}

/// The state of an unknown.
#[derive(Clone, Copy)]
struct Unknown {
    // its coefficient in the current equation
    factor: u32,
    // the number of stored equations in which it occurs
    met: u32,
    // the rank of the equation that is solved for it, among those of its level
    rank: Option<u32>,
    level: u8,
    // whether it is in the list of its level
    listed: bool,
}

/// A term that an equation may be solved for.
#[derive(Clone, Copy)]
struct Pivot {
    place: usize,
    unknown: u32,
    // whether the coefficient is 1 or -1
    sign: bool,
    // the number of stored equations in which the unknown occurs
    met: u32,
}

impl Pivot {
    /// Returns whether to solve for this term rather than for `other`. A coefficient of 1 or -1 is
    /// preferred, which keeps coefficients small; then an unknown that occurs in fewer stored
    /// equations; then one with a greater number.
    fn goes_before(self, other: Pivot) -> bool {
        if self.sign != other.sign {
            return self.sign;
        }
        self.met < other.met || self.met == other.met && self.unknown > other.unknown
    }
}

/// The unknowns of one level.
#[derive(Drop)]
struct Level {
    // the unknowns whose coefficient in the current equation may differ from 0
    listed: Vec<u32>,
    // the ranks of the stored equations that are solved for one of the listed unknowns
    due: Queue,
    // the indices of the equations that are solved for an unknown of this level, by rank
    solved: Vec<u32>,
}

/// The current equation as a coefficient for each unknown, with a list of the unknowns on each
/// level whose coefficient may differ from 0.
#[derive(Drop)]
pub(crate) struct SparseRow {
    unknowns: Vec<Unknown>,
    levels: Vec<Level>,
}

impl SparseRow {
    /// Creates an empty equation of no unknowns.
    pub(crate) fn new(alloc: Global) -> Result<SparseRow, AllocError> {
        let mut levels = Vec::new(alloc);
        for _ in 0..LEVELS {
            levels.push(Level {
                listed: Vec::with_capacity(alloc, FIRST_ROOM)?,
                due: Queue::new(alloc),
                solved: Vec::with_capacity(alloc, FIRST_ROOM)?,
            })?;
        }
        Ok(SparseRow {
            unknowns: Vec::with_capacity(alloc, FIRST_ROOM)?,
            levels,
        })
    }

    /// Adds an unknown of the level `level`, and returns its number.
    pub(crate) fn add_unknown(&mut self, level: u8) -> Result<u32, EliminationFault> {
        if level >= LEVELS {
            return Err(EliminationFault::Internal);
        }
        let place = self.unknowns.len();
        judge_unknowns((place as u64).saturating_add(1))?;
        self.unknowns.push(Unknown {
            factor: 0,
            met: 0,
            rank: None,
            level,
            listed: false,
        })?;
        number(place)
    }

    /// Adds `times` times the term `entry` to the equation.
    #[inline]
    pub(crate) fn add(
        &mut self,
        ring: Ring,
        entry: Coefficient,
        times: u32,
    ) -> Result<(), EliminationFault> {
        let Some(unknown) = self.unknowns.get_mut(entry.unknown as usize) else {
            return Err(EliminationFault::Internal);
        };
        unknown.factor = ring.add_product(unknown.factor, entry.factor, times);
        if unknown.listed {
            return Ok(());
        }
        unknown.listed = true;
        let level = unknown.level;
        let rank = unknown.rank;
        self.list(entry.unknown, level, rank)
    }

    /// Adds `unknown` to the list of its level. If a stored equation is solved for it, adds the
    /// `rank` of that equation to the queue of the level.
    fn list(&mut self, unknown: u32, level: u8, rank: Option<u32>) -> Result<(), EliminationFault> {
        let Some(level) = self.levels.get_mut(level as usize) else {
            return Err(EliminationFault::Internal);
        };
        level.listed.push(unknown)?;
        match rank {
            Some(rank) => level.due.put(rank),
            None => Ok(()),
        }
    }

    /// Returns the oldest stored equation in the queue of `level`, and removes it from there. Its
    /// unknown may have a coefficient other than 0 in the current equation.
    pub(crate) fn next_due(&mut self, level: u8) -> Result<Option<u32>, EliminationFault> {
        let Some(level) = self.levels.get_mut(level as usize) else {
            return Err(EliminationFault::Internal);
        };
        let Some(rank) = level.due.take()? else {
            return Ok(None);
        };
        match level.solved.get(rank as usize) {
            Some(solved) => Ok(Some(*solved)),
            None => Err(EliminationFault::Internal),
        }
    }

    /// Returns the coefficient of `unknown` in the current equation.
    pub(crate) fn factor(&self, unknown: u32) -> Result<u32, EliminationFault> {
        match self.unknowns.get(unknown as usize) {
            Some(unknown) => Ok(unknown.factor),
            None => Err(EliminationFault::Internal),
        }
    }

    /// Returns the number of unknowns.
    pub(crate) fn count(&self) -> usize {
        self.unknowns.len()
    }

    /// Returns the indices of the stored equations that are solved for an unknown of `level`,
    /// oldest first.
    pub(crate) fn solved(&self, level: u8) -> Result<&[u32], EliminationFault> {
        match self.levels.get(level as usize) {
            Some(level) => Ok(&level.solved),
            None => Err(EliminationFault::Internal),
        }
    }

    /// Moves the terms of the equation on `level` to the end of `entries`. The equation has no term
    /// on this level afterwards.
    pub(crate) fn move_level(
        &mut self,
        level: u8,
        entries: &mut Vec<Coefficient>,
    ) -> Result<(), EliminationFault> {
        let Some(level) = self.levels.get_mut(level as usize) else {
            return Err(EliminationFault::Internal);
        };
        for number in &level.listed {
            let Some(unknown) = self.unknowns.get_mut(*number as usize) else {
                return Err(EliminationFault::Internal);
            };
            let factor = unknown.factor;
            unknown.factor = 0;
            unknown.listed = false;
            if let Some(rank) = unknown.rank {
                level.due.clear_word(rank)?;
            }
            if factor != 0 {
                entries.push(Coefficient {
                    unknown: *number,
                    factor,
                })?;
            }
        }
        level.listed.clear();
        Ok(())
    }

    /// Returns whether `divisor` divides all coefficients of the current equation on `level`.
    pub(crate) fn is_divided(&self, level: u8, divisor: u32) -> Result<bool, EliminationFault> {
        let Some(level) = self.levels.get(level as usize) else {
            return Err(EliminationFault::Internal);
        };
        for unknown in &level.listed {
            if !divides(divisor, self.factor(*unknown)?) {
                return Ok(false);
            }
        }
        Ok(true)
    }

    /// Returns the index of the best of `entries` to solve for, or `None` if no coefficient has an
    /// inverse.
    pub(crate) fn best(
        &self,
        ring: Ring,
        entries: &[Coefficient],
    ) -> Result<Option<usize>, EliminationFault> {
        let mut best: Option<Pivot> = None;
        for (place, entry) in entries.iter().enumerate() {
            if ring.is_unit(entry.factor) {
                let pivot = self.pivot(ring, place, *entry)?;
                if best.is_none_or(|best| pivot.goes_before(best)) {
                    best = Some(pivot);
                }
            }
        }
        Ok(best.map(|pivot| pivot.place))
    }

    /// Returns the term `entry`, which has the index `place`, as a candidate to solve for.
    fn pivot(
        &self,
        ring: Ring,
        place: usize,
        entry: Coefficient,
    ) -> Result<Pivot, EliminationFault> {
        match self.unknowns.get(entry.unknown as usize) {
            Some(unknown) => Ok(Pivot {
                place,
                unknown: entry.unknown,
                sign: ring.is_plus_or_minus_one(entry.factor),
                met: unknown.met,
            }),
            None => Err(EliminationFault::Internal),
        }
    }

    /// Records that one more stored equation has the unknown.
    pub(crate) fn count_occurrence(&mut self, unknown: u32) -> Result<(), EliminationFault> {
        match self.unknowns.get_mut(unknown as usize) {
            Some(unknown) => unknown.met = unknown.met.saturating_add(1),
            None => return Err(EliminationFault::Internal),
        }
        Ok(())
    }

    /// Records that the stored equation with the index `solved` is solved for `unknown`, which has
    /// the level `level`.
    pub(crate) fn solve(
        &mut self,
        unknown: u32,
        level: u8,
        solved: u32,
    ) -> Result<(), EliminationFault> {
        let Some(level) = self.levels.get_mut(level as usize) else {
            return Err(EliminationFault::Internal);
        };
        let rank = number(level.solved.len())?;
        level.solved.push(solved)?;
        level.due.make_room(rank)?;
        match self.unknowns.get_mut(unknown as usize) {
            Some(unknown) => unknown.rank = Some(rank),
            None => return Err(EliminationFault::Internal),
        }
        Ok(())
    }
}
