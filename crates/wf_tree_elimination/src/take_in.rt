//! Taking equations in: each one is reduced by the stored ones, and what remains is stored.

ghost use Rattle.std.specs.Prelude.{◌<◌};

use crate::elimination::Elimination;
use crate::fault::{EliminationFault, MAX_STEPS, judge_steps};
use crate::kept::{Contradiction, Origin, PlaceRange, Use};
use crate::row::LEVELS;

/// The result of reducing an equation on one level.
enum LevelResult {
    /// The equation goes on to lower levels.
    GoOn,
    /// The equation was stored.
    Kept,
    /// The equation contradicts the stored ones.
    Contradicts(Contradiction),
}

impl Elimination {
    /// Takes in the equation whose terms have been added, under the number `equation`. Returns a
    /// contradiction if it contradicts those before it; no further equation may be taken in then.
    ///
    /// # Errors
    ///
    /// Returns the limit at which the elimination gave up, or [`EliminationFault::OutOfMemory`] if
    /// memory runs out.
    pub fn take_in(&mut self, equation: u32) -> Result<Option<Contradiction>, EliminationFault> {
        let first = self.uses.len();
        for lower in 1..LEVELS {
            let level = LEVELS - lower;
            self.reduce(level)?;
            self.current.clear();
            self.row.move_level(level, &mut self.current)?;
            if !self.current.is_empty() {
                match self.store_or_descend(equation, level, first)? {
                    LevelResult::GoOn => {}
                    LevelResult::Kept => return Ok(None),
                    LevelResult::Contradicts(found) => return Ok(Some(found)),
                }
            }
        }
        self.end(equation, first)
    }

    /// Subtracts stored equations until the current equation has no unknown on `level` that one of
    /// them is solved for.
    fn reduce(&mut self, level: u8) -> Result<(), EliminationFault> {
        for _ in 0..MAX_STEPS {
            let Some(solved) = self.row.next_due(level)? else {
                return Ok(());
            };
            self.subtract(solved)?;
        }
        Err(EliminationFault::TooManySteps { count: MAX_STEPS })
    }

    /// Subtracts the stored equation with the index `number` as often as its unknown occurs in the
    /// current equation.
    fn subtract(&mut self, number: u32) -> Result<(), EliminationFault> {
        let Some(solved) = self.solved.get(number as usize).copied() else {
            return Err(EliminationFault::Internal);
        };
        let times = self.row.factor(solved.unknown)?;
        if times == 0 {
            return Ok(());
        }
        let Some(entries) = self.entries.get(solved.entries.first..solved.entries.end) else {
            return Err(EliminationFault::Internal);
        };
        self.steps = self.steps.saturating_add(entries.len() as u64);
        judge_steps(self.steps)?;
        let back = self.ring.negative(times);
        for entry in entries {
            self.row.add(self.ring, *entry, back)?;
        }
        self.uses.push(Use {
            solved: number,
            times,
        })?;
        self.judge_size()
    }

    /// Decides what to do with an equation whose terms on `level` are in `current`. It is stored,
    /// or found to be a contradiction, or its terms on this level are replaced by a new unknown and
    /// it goes on to lower levels. `first` is the index of the equation's first use.
    fn store_or_descend(
        &mut self,
        equation: u32,
        level: u8,
        first: usize,
    ) -> Result<LevelResult, EliminationFault> {
        let origin = Origin {
            equation: Some(equation),
            uses: PlaceRange {
                first,
                end: self.uses.len(),
            },
            divisor: 1,
            times: 1,
        };
        if let Some(place) = self.row.best(self.ring, &self.current)? {
            self.move_below(level)?;
            self.keep(level, place, origin)?;
            return Ok(LevelResult::Kept);
        }
        let part = self.common_part();
        if self.is_divided_below(level, part)? {
            self.move_below(level)?;
            self.keep_divided(level, part, origin)?;
            return Ok(LevelResult::Kept);
        }
        if level == 1 {
            let found = self.contradiction(part, equation, origin.uses)?;
            return Ok(LevelResult::Contradicts(found));
        }
        self.split(level, part, origin)?;
        Ok(LevelResult::GoOn)
    }

    /// Returns the largest power of the prime that divides all coefficients in `current`.
    fn common_part(&self) -> u32
        ensures { 0 < result }
    {
        let mut least = self.ring.modulus();
        for entry in &self.current {
            least = least.min(self.ring.part(entry.factor));
        }
        least
    }

    /// Returns whether `divisor` divides all coefficients of the current equation on the levels
    /// below `level`.
    fn is_divided_below(&self, level: u8, divisor: u32) -> Result<bool, EliminationFault> {
        for lower in 0..level {
            if !self.row.is_divided(lower, divisor)? {
                return Ok(false);
            }
        }
        Ok(true)
    }

    /// Appends the terms of the current equation on the levels below `level` to `current`, highest
    /// level first.
    fn move_below(&mut self, level: u8) -> Result<(), EliminationFault> {
        for more in 0..level {
            self.row.move_level(level - 1 - more, &mut self.current)?;
        }
        Ok(())
    }

    /// Returns the contradiction of an equation whose constant is not divisible by `part`, while
    /// all its other coefficients are: multiplied by the modulus over `part`, nothing but the
    /// constant remains.
    fn contradiction(
        &self,
        part: u32,
        equation: u32,
        uses: PlaceRange,
    ) -> Result<Contradiction, EliminationFault>
        requires { 0 < part }
    {
        let times = self.ring.share(part);
        Ok(Contradiction {
            equation,
            times,
            uses,
            constant: self.ring.product(self.row.factor(0)?, times),
        })
    }

    /// Ends an equation of which only the constant remains. If that is not 0, returns it as a
    /// contradiction; otherwise clears the equation and drops its uses, which begin at index
    /// `first`.
    fn end(
        &mut self,
        equation: u32,
        first: usize,
    ) -> Result<Option<Contradiction>, EliminationFault> {
        let constant = self.row.factor(0)?;
        if constant == 0 {
            self.current.clear();
            self.row.move_level(0, &mut self.current)?;
            self.uses.truncate(first);
            return Ok(None);
        }
        Ok(Some(Contradiction {
            equation,
            times: 1,
            uses: PlaceRange {
                first,
                end: self.uses.len(),
            },
            constant,
        }))
    }
}
