//! The multipliers of a contradiction.

use crate::elimination::Elimination;
use crate::fault::EliminationFault;
use crate::kept::{Contradiction, Multiple, Origin, PlaceRange};
use std::alloc::Global;

impl Elimination {
    /// Returns the multipliers of the contradiction `found`, which this elimination has returned:
    /// if each equation that was taken in is multiplied by its multipliers and all are added up,
    /// nothing but the constant of the contradiction remains.
    ///
    /// The multiplier of the last equation comes first; the others follow from the newest stored
    /// equation to the oldest. An equation may have several multipliers, which add up.
    ///
    /// # Errors
    ///
    /// Returns [`EliminationFault::OutOfMemory`] if memory runs out, and
    /// [`EliminationFault::Internal`] if `found` refers to equations that this elimination does not
    /// have.
    pub fn multipliers(
        &self,
        alloc: Global,
        found: Contradiction,
    ) -> Result<Vec<Multiple>, EliminationFault> {
        let mut multipliers = Vec::new(alloc);
        multipliers.push(Multiple {
            equation: found.equation,
            factor: found.times,
        })?;
        let mut owed = Vec::new(alloc);
        owed.resize(self.solved.len(), 0)?;
        self.collect_multipliers(found, &mut owed, &mut multipliers)?;
        Ok(multipliers)
    }

    /// Appends to `multipliers` those of all stored equations that the contradiction uses, directly
    /// or through others. `owed` has an entry for each stored equation, all of them 0 at first.
    fn collect_multipliers(
        &self,
        found: Contradiction,
        owed: &mut Vec<u32>,
        multipliers: &mut Vec<Multiple>,
    ) -> Result<(), EliminationFault> {
        self.subtract_uses(owed, found.uses, found.times)?;
        for (place, solved) in self.solved.iter().enumerate().rev() {
            let Some(factor) = owed.get(place).copied() else {
                return Err(EliminationFault::Internal);
            };
            if let (true, Some(equation)) = (factor != 0, solved.origin.equation) {
                let factor = self.undivided(factor, solved.origin)?;
                multipliers.push(Multiple { equation, factor })?;
                self.subtract_uses(owed, solved.origin.uses, factor)?;
            }
        }
        Ok(())
    }

    /// Returns how often the original equation occurs in `factor` times the stored equation of
    /// `origin`.
    fn undivided(&self, factor: u32, origin: Origin) -> Result<u32, EliminationFault> {
        let whole = self.ring.product(factor, origin.times);
        if origin.divisor == 0 || whole % origin.divisor != 0 {
            return Err(EliminationFault::Internal);
        }
        Ok(whole / origin.divisor)
    }

    /// For each record in `uses`, subtracts its number of uses times `times` from the entry of
    /// `owed` for its equation.
    fn subtract_uses(
        &self,
        owed: &mut Vec<u32>,
        uses: PlaceRange,
        times: u32,
    ) -> Result<(), EliminationFault> {
        let Some(uses) = self.uses.get(uses.first..uses.end) else {
            return Err(EliminationFault::Internal);
        };
        let back = self.ring.negative(times);
        for used in uses {
            let Some(place) = owed.get_mut(used.solved as usize) else {
                return Err(EliminationFault::Internal);
            };
            *place = self.ring.add_product(*place, used.times, back);
        }
        Ok(())
    }
}
