//! The clauses that exclude the values that a branch leaves out.

ghost use Rattle.std.specs.Prelude.{◌≡◌, ◌<◌, ◌≤◌, ◌+◌, IfSome, length, map};
ghost use Rattle.wf_model.specs.Limits.{most_points};
ghost use Rattle.wf_base.specs.Set.Sets.{values_in};
ghost use Rattle.wf_sat_formula.specs.Branches.{missing, ruled_out};
ghost use Rattle.wf_sat_cnf.specs.Variables.{IsNumbered};
ghost use Rattle.wf_sat_cnf.specs.Exclusions.{exclusions_on, sets_in};
ghost use Rattle.wf_sat_cnf.specs.Tokens.{clause_tokens, formula_tokens};

use crate::taker::TokenSink;
use crate::variables::Variables;
use wf_base::set::{Mask, count, difference, split_first};

/// A branch of a question: it asks for a decision map whose value at each point is one of the
/// point's candidates in the branch.
#[derive(Clone, Copy)]
pub struct Branch<'a> {
    /// The index of the branch, from 0.
    pub number: u32,
    /// The number of branches into which the question is split.
    pub count: u32,
    /// The candidates of each point in the branch, by the index of the point.
    pub sets: &'a [Mask],
}

/// Returns the candidates of each point in `branch`, or an empty slice if `branch` is `None`.
pub(crate) fn candidates_of<'a>(branch: Option<Branch<'a>>) -> &'a [Mask]
    ensures { result.now ≡ sets_in branch.entry }
{
    match branch {
        Some(branch) => branch.sets,
        None => &[],
    }
}

/// Returns those of `values` that are not in the set of `point`, which is `sets[point]`.
pub fn missing_in(values: Mask, sets: &[Mask], point: usize) -> Mask
    requires { point < length sets.now }
    ensures { values_in result ≡ missing (values_in values) (map values_in sets.now) point }
{
    let set = sets[point];
    difference(values, set)
}

/// Returns `clauses` plus the number of unit clauses that exclude at each point the values that are
/// in `values` but not in the point's set in `sets`. Returns `None` if the sum exceeds `u64::MAX`.
pub(crate) fn count_exclusions(clauses: u64, values: Mask, sets: &[Mask]) -> Option<u64>
    ensures { IfSome result (λ n. n ≡ clauses
        + length (exclusions_on (values_in values) (map values_in sets.now))) }
{
    let mut total = clauses;
    for point in 0..sets.len() {
        let missing = missing_in(values, sets, point);
        total = total.checked_add(u64::from(count(missing)))?;
    }
    Some(total)
}

/// Passes to `taker` the unit clauses that exclude at each point the values that are not in the
/// point's set in `sets`, point by point.
pub(crate) fn give_exclusions<T, K: TokenSink<T>>(
    taker: &mut K,
    to: &mut T,
    variables: &Variables,
    sets: &[Mask],
) -> Result<(), K::Fault>
    requires ready { K.is_open to.old }
    requires numbered { IsNumbered variables.now }
    requires few { length sets.now ≤ most_points }
    ensures { K.takes (formula_tokens (exclusions_on (values_in variables.now.values)
        (map values_in sets.now))) taker.old to.old taker.new to.new result }
{
    for point in 0..sets.len() {
        let missing = missing_in(variables.values, sets, point);
        give_missing(taker, to, variables, point as u32, missing)?;
    }
    Ok(())
}

/// Passes to `taker` a unit clause for each value in `missing`, in ascending order, that excludes
/// it at `point`.
fn give_missing<T, K: TokenSink<T>>(
    taker: &mut K,
    to: &mut T,
    variables: &Variables,
    point: u32,
    missing: Mask,
) -> Result<(), K::Fault>
    requires ready { K.is_open to.old }
    requires numbered { IsNumbered variables.now }
    requires point { point < most_points }
    ensures { K.takes (formula_tokens (map (ruled_out (values_in variables.now.values) point)
        (values_in missing))) taker.old to.old taker.new to.new result }
{
    let mut left = missing;
    'values: while let Some(next) = split_first(left) {
        let (value, others) = next;
        left = others;
        give_ruled_out(taker, to, variables, point, value)?;
    }
    Ok(())
}

/// Passes to `taker` the unit clause that excludes `value` at `point`.
fn give_ruled_out<T, K: TokenSink<T>>(
    taker: &mut K,
    to: &mut T,
    variables: &Variables,
    point: u32,
    value: u8,
) -> Result<(), K::Fault>
    requires ready { K.is_open to.old }
    requires numbered { IsNumbered variables.now }
    requires point { point < most_points }
    ensures { K.takes (clause_tokens (ruled_out (values_in variables.now.values) point value))
        taker.old to.old taker.new to.new result }
{
    taker.negative(to, variables.number(point, value))?;
    taker.end_clause(to)
}
