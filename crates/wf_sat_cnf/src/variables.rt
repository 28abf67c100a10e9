//! The variables of a formula, one for each point and value.

ghost use Rattle.std.specs.Prelude.{◌≡◌, ◌<◌, ◌≤◌, ◌*◌, IfOk, length};
ghost use Rattle.wf_model.specs.Limits.{most_points};
ghost use Rattle.wf_base.specs.Set.Sets.{values_in};
ghost use Rattle.wf_sat_formula.specs.Encoding.{variable};
ghost use Rattle.wf_sat_cnf.specs.Variables.{IsNumbered};

use std::alloc::{AllocError, Global};
use wf_base::set::{Mask, contains, count};

/// The numbering of a formula's variables: point by point, and at each point by ascending value.
/// The variables are numbered from 1.
#[derive(Drop)]
pub struct Variables {
    /// The values that a point may have.
    pub values: Mask,
    /// The number of values.
    pub width: u32,
    /// For each number below 256, the number of values that are smaller.
    pub ranks: Vec<u32>,
}

impl Variables {
    /// Creates the numbering for points that may have the values `values`.
    ///
    /// # Errors
    ///
    /// Returns `AllocError` if memory runs out.
    pub fn of(alloc: Global, values: Mask) -> Result<Variables, AllocError>
        ensures values { IfOk result (λ v. v.values ≡ values) }
        ensures numbered { IfOk result IsNumbered }
    {
        let mut ranks = Vec::new(alloc);
        let mut smaller = 0;
        for value in 0..256u32 {
            ranks.push(smaller)?;
            if contains(values, value as u8) {
                smaller += 1;
            }
        }
        let width = count(values);
        Ok(Variables {
            values,
            width,
            ranks,
        })
    }

    /// Returns the number of the variable that says that `point` has `value`, which has to be one
    /// of the values.
    pub fn number(&self, point: u32, value: u8) -> u32
        requires numbered { IsNumbered self.now }
        requires point { point < most_points }
        ensures { result ≡ variable (values_in self.now.values) point value }
    {
        point * self.width + self.ranks[value as usize] + 1
    }

    /// Returns the number of variables of a formula with `points` points.
    pub fn count(&self, points: u32) -> u32
        requires numbered { IsNumbered self.now }
        requires few { points ≤ most_points }
        ensures { result ≡ points * length (values_in self.now.values) }
    {
        points * self.width
    }
}
