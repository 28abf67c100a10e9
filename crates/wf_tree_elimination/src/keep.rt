//! The last step of taking an equation in: storing it.

ghost use Rattle.std.specs.Prelude.{◌<◌};

use crate::elimination::Elimination;
use crate::fault::{EliminationFault, number};
use crate::kept::{Origin, PlaceRange, Solved};
use crate::row::Coefficient;

impl Elimination {
    /// Stores the terms in `current` as an equation that is solved for the term at index `place`,
    /// whose unknown has the level `level`. `origin` says how the equation was made.
    pub(crate) fn keep(
        &mut self,
        level: u8,
        place: usize,
        origin: Origin,
    ) -> Result<(), EliminationFault> {
        let Some(entry) = self.current.get(place).copied() else {
            return Err(EliminationFault::Internal);
        };
        let times = self.ring.inverse(entry.factor);
        let solved = number(self.solved.len())?;
        let entries = self.store(times)?;
        self.row.solve(entry.unknown, level, solved)?;
        self.solved.push(Solved {
            unknown: entry.unknown,
            entries,
            origin: Origin { times, ..origin },
        })?;
        self.judge_size()
    }

    /// Stores the terms in `current`, multiplied by `times`, and returns their range in `entries`.
    fn store(&mut self, times: u32) -> Result<PlaceRange, EliminationFault> {
        let first = self.entries.len();
        for entry in &self.current {
            let factor = self.ring.product(entry.factor, times);
            self.entries.push(Coefficient {
                unknown: entry.unknown,
                factor,
            })?;
            self.row.count_occurrence(entry.unknown)?;
        }
        Ok(PlaceRange {
            first,
            end: self.entries.len(),
        })
    }

    /// Divides the terms in `current` by `part`, a power of the prime, and stores the equation. The
    /// division loses information modulo the modulus, for which it adds a slack unknown of the
    /// level `level`.
    pub(crate) fn keep_divided(
        &mut self,
        level: u8,
        part: u32,
        origin: Origin,
    ) -> Result<(), EliminationFault>
        requires { 0 < part }
    {
        self.divide(part);
        self.add_slack(level, part)?;
        let place = self.first_unit()?;
        let divisor = part;
        self.keep(level, place, Origin { divisor, ..origin })
    }

    /// Divides the terms in `current` by `part`, a power of the prime, and stores an equation that
    /// defines a new unknown of level 1 as the negative of the quotient. The current equation gets
    /// a multiple of this unknown in place of these terms.
    pub(crate) fn split(
        &mut self,
        level: u8,
        part: u32,
        origin: Origin,
    ) -> Result<(), EliminationFault>
        requires { 0 < part }
    {
        self.divide(part);
        let place = self.first_unit()?;
        let unknown = self.row.add_unknown(1)?;
        self.current.push(Coefficient { unknown, factor: 1 })?;
        self.add_slack(level, part)?;
        let uses = PlaceRange {
            first: origin.uses.end,
            end: origin.uses.end,
        };
        let equation = None;
        self.keep(
            level,
            place,
            Origin {
                equation,
                uses,
                ..origin
            },
        )?;
        let factor = self.ring.negative(part);
        self.row.add(self.ring, Coefficient { unknown, factor }, 1)
    }

    /// Divides the coefficients in `current` by `part`, which divides each of them.
    fn divide(&mut self, part: u32)
        requires { 0 < part }
    {
        for entry in self.current.iter_mut() {
            entry.factor /= part;
        }
    }

    /// Adds a slack unknown of the level `level` to the terms in `current`. Its coefficient is the
    /// modulus divided by `part`, which vanishes if it is multiplied by `part`.
    fn add_slack(&mut self, level: u8, part: u32) -> Result<(), EliminationFault>
        requires { 0 < part }
    {
        let unknown = self.row.add_unknown(level)?;
        let factor = self.ring.share(part);
        self.current.push(Coefficient { unknown, factor })?;
        Ok(())
    }

    /// Returns the index of the first term in `current` whose coefficient has an inverse.
    fn first_unit(&self) -> Result<usize, EliminationFault> {
        let ring = self.ring;
        let place = self
            .current
            .iter()
            .position(|entry| ring.is_unit(entry.factor));
        place.ok_or(EliminationFault::Internal)
    }
}
