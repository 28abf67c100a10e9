//! The map that a model of a formula gives.

ghost use Rattle.std.specs.Prelude.{◌≡◌, ◌≤◌, ◌<◌, IfOk, map};
ghost use Rattle.wf_model.specs.Limits.{most_points};
ghost use Rattle.wf_model.specs.Lists.{below};
ghost use Rattle.wf_base.specs.Set.Sets.{values_in};
ghost use Rattle.wf_sat_formula.specs.Encoding.{least_true};
ghost use Rattle.wf_sat_cnf.specs.Variables.{IsNumbered};
ghost use Rattle.wf_sat_cnf.specs.Models.{assigned};

use crate::variables::Variables;
use std::alloc::{AllocError, Global};
use wf_base::set::split_first;

/// Returns for each point from 0 to `points` - 1 the least value whose variable is true, or 0 if
/// none is. Variables beyond the end of `truths` are false.
pub(crate) fn least_values(
    alloc: Global,
    variables: &Variables,
    truths: &[bool],
    points: u32,
) -> Result<Vec<u8>, AllocError>
    requires numbered { IsNumbered variables.now }
    requires few { points ≤ most_points }
    ensures { IfOk result (λ found. found.items
        ≡ map (least_true (values_in variables.now.values) (assigned truths.now)) (below points)) }
{
    let mut found = Vec::new(alloc);
    for point in 0..points {
        found.push(least_value(variables, truths, point))?;
    }
    Ok(found)
}

/// Returns the least value at `point` whose variable is true, or 0 if none is.
fn least_value(variables: &Variables, truths: &[bool], point: u32) -> u8
    requires numbered { IsNumbered variables.now }
    requires point { point < most_points }
    ensures { result ≡ least_true (values_in variables.now.values) (assigned truths.now) point }
{
    let values = variables.values;
    let mut left = values;
    'values: while let Some(next) = split_first(left) {
        let (value, others) = next;
        left = others;
        if is_true(truths, variables.number(point, value)) {
            return value;
        }
    }
    0
}

/// Returns whether the variable with the number `variable` is true. It is false if `truths` is too
/// short.
fn is_true(truths: &[bool], variable: u32) -> bool
    ensures { result ≡ assigned truths.now variable }
{
    let place = variable as usize;
    place < truths.len() && truths[place]
}
