//! Solutions of the equations that were taken in.

use crate::elimination::Elimination;
use crate::fault::EliminationFault;
use crate::kept::Solved;
use crate::row::LEVELS;
use std::alloc::Global;

/// The value of the constant.
const CONSTANT: u32 = 1;

impl Elimination {
    /// Returns a solution of the equations that were taken in, provided that none contradicted
    /// those before it: a value below the modulus for each unknown, by its number. The constant is
    /// 1, and unknowns that no equation is solved for are 0. The list includes the unknowns that
    /// the elimination added itself.
    ///
    /// Levels are solved from the lowest to the highest, and equations of a level from the newest
    /// to the oldest: apart from the unknown it is solved for, an equation has only unknowns of
    /// lower levels, and unknowns of its level that no older equation is solved for.
    ///
    /// # Errors
    ///
    /// Returns [`EliminationFault::OutOfMemory`] if memory runs out.
    pub fn solution(&self, alloc: Global) -> Result<Vec<u32>, EliminationFault> {
        let mut values = Vec::new(alloc);
        values.resize(self.row.count(), 0)?;
        if let Some(constant) = values.first_mut() {
            *constant = CONSTANT;
        }
        for level in 1..LEVELS {
            self.solve_level(level, &mut values)?;
        }
        Ok(values)
    }

    /// Sets the values of the unknowns of `level`. Those of lower levels have been set before.
    fn solve_level(&self, level: u8, values: &mut Vec<u32>) -> Result<(), EliminationFault> {
        for number in self.row.solved(level)?.iter().rev() {
            let Some(solved) = self.solved.get(*number as usize).copied() else {
                return Err(EliminationFault::Internal);
            };
            self.set(solved, values)?;
        }
        Ok(())
    }

    /// Sets the value of the unknown that `solved` is solved for. Its other unknowns have been set
    /// before.
    fn set(&self, solved: Solved, values: &mut Vec<u32>) -> Result<(), EliminationFault> {
        let others = self.sum_of(solved, values)?;
        match values.get_mut(solved.unknown as usize) {
            Some(value) => *value = self.ring.negative(others),
            None => return Err(EliminationFault::Internal),
        }
        Ok(())
    }

    /// Returns the sum of the terms of `solved`. The unknown it is solved for still has the value
    /// 0.
    fn sum_of(&self, solved: Solved, values: &[u32]) -> Result<u32, EliminationFault> {
        let Some(entries) = self.entries.get(solved.entries.first..solved.entries.end) else {
            return Err(EliminationFault::Internal);
        };
        let mut sum = 0;
        for entry in entries {
            let Some(value) = values.get(entry.unknown as usize) else {
                return Err(EliminationFault::Internal);
            };
            sum = self.ring.add_product(sum, entry.factor, *value);
        }
        Ok(sum)
    }
}
