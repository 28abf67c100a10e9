//! The clauses of the points and of the executions.

ghost use Rattle.std.specs.Prelude.{◌≡◌, ◌<◌, ◌≤◌, ◌+◌, All, IfSome, List, length, map, ℕ};
ghost use Rattle.wf_model.specs.Limits.{most_points};
ghost use Rattle.wf_model.specs.Lists.{below};
ghost use Rattle.wf_base.specs.Set.Sets.{values_in};
ghost use Rattle.wf_sat_formula.specs.Encoding.{at_least_one};
ghost use Rattle.wf_sat_cnf.specs.Patterns.{pattern_seen, patterns_seen};
ghost use Rattle.wf_sat_cnf.specs.Variables.{IsNumbered};
ghost use Rattle.wf_sat_cnf.specs.Clauses.{AreCovered, AreFew, HasPoints, clauses_on, denied_at};
ghost use Rattle.wf_sat_cnf.specs.Tokens.{clause_tokens, formula_tokens};

use crate::patterns::{Pattern, Patterns};
use crate::taker::TokenSink;
use crate::variables::Variables;
use wf_base::set::split_first;
use wf_complex::Protocol;

/// Returns the number of clauses of all points and executions of `protocol`, or `None` if it
/// exceeds `u64::MAX`. `patterns` has the forbidden patterns of each input simplex, by its index.
pub(crate) fn count_clauses(patterns: &[Patterns], protocol: &Protocol) -> Option<u64>
    requires { AreCovered (map patterns_seen patterns.now) protocol.now }
    ensures { (values : List ℕ) → IfSome result (λ n. n ≡ length protocol.now.points
        + length (clauses_on values (map patterns_seen patterns.now) protocol.now)) }
{
    let mut clauses = u64::from(protocol.points());
    for execution in 0..protocol.executions() {
        let simplex = protocol.simplex_of(execution) as usize;
        clauses = clauses.checked_add(patterns[simplex].count())?;
    }
    Some(clauses)
}

/// Passes to `taker` the clauses of the points from 0 to `points` - 1, in this order.
pub(crate) fn give_points<T, K: TokenSink<T>>(
    taker: &mut K,
    to: &mut T,
    variables: &Variables,
    points: u32,
) -> Result<(), K::Fault>
    requires ready { K.is_open to.old }
    requires numbered { IsNumbered variables.now }
    requires few { points ≤ most_points }
    ensures { K.takes (formula_tokens (map (at_least_one (values_in variables.now.values))
        (below points))) taker.old to.old taker.new to.new result }
{
    for point in 0..points {
        give_point(taker, to, variables, point)?;
    }
    Ok(())
}

/// Passes to `taker` the clause of `point`: it has at least one of the values.
fn give_point<T, K: TokenSink<T>>(
    taker: &mut K,
    to: &mut T,
    variables: &Variables,
    point: u32,
) -> Result<(), K::Fault>
    requires ready { K.is_open to.old }
    requires numbered { IsNumbered variables.now }
    requires point { point < most_points }
    ensures { K.takes (clause_tokens (at_least_one (values_in variables.now.values) point))
        taker.old to.old taker.new to.new result }
{
    let values = variables.values;
    let mut left = values;
    'values: while let Some(next) = split_first(left) {
        let (value, others) = next;
        left = others;
        taker.positive(to, variables.number(point, value))?;
    }
    taker.end_clause(to)
}

/// Passes to `taker` the clauses of all executions of `protocol`, in order. `patterns` has the
/// forbidden patterns of each input simplex, by its index.
pub(crate) fn give_executions<T, K: TokenSink<T>>(
    taker: &mut K,
    to: &mut T,
    variables: &Variables,
    patterns: &[Patterns],
    protocol: &Protocol,
) -> Result<(), K::Fault>
    requires ready { K.is_open to.old }
    requires numbered { IsNumbered variables.now }
    requires covered { AreCovered (map patterns_seen patterns.now) protocol.now }
    ensures { K.takes (formula_tokens (clauses_on (values_in variables.now.values)
        (map patterns_seen patterns.now) protocol.now)) taker.old to.old taker.new to.new
        result }
{
    for execution in 0..protocol.executions() {
        let simplex = protocol.simplex_of(execution) as usize;
        let points = protocol.points_of(execution);
        give_patterns(taker, to, variables, &patterns[simplex], points)?;
    }
    Ok(())
}

/// Passes to `taker` the clauses of an execution with the points `points`, one for each of the
/// forbidden patterns `patterns`.
fn give_patterns<T, K: TokenSink<T>>(
    taker: &mut K,
    to: &mut T,
    variables: &Variables,
    patterns: &Patterns,
    points: &[u32],
) -> Result<(), K::Fault>
    requires ready { K.is_open to.old }
    requires numbered { IsNumbered variables.now }
    requires places { All (HasPoints points.now) (patterns_seen patterns.now) }
    requires few { AreFew points.now }
    ensures { K.takes (formula_tokens (map (denied_at (values_in variables.now.values)
        points.now) (patterns_seen patterns.now))) taker.old to.old taker.new to.new result }
{
    if patterns.nothing_is_allowed {
        return taker.end_clause(to);
    }
    give_others(taker, to, variables, &patterns.others, points)
}

/// Passes to `taker` for each of `patterns` the clause that forbids it at `points`, the points of
/// an execution.
fn give_others<T, K: TokenSink<T>>(
    taker: &mut K,
    to: &mut T,
    variables: &Variables,
    patterns: &[Pattern],
    points: &[u32],
) -> Result<(), K::Fault>
    requires ready { K.is_open to.old }
    requires numbered { IsNumbered variables.now }
    requires places { All (HasPoints points.now) (map pattern_seen patterns.now) }
    requires few { AreFew points.now }
    ensures { K.takes (formula_tokens (map (denied_at (values_in variables.now.values)
        points.now) (map pattern_seen patterns.now))) taker.old to.old taker.new to.new
        result }
{
    for pattern in patterns {
        give_denied(taker, to, variables, pattern, points)?;
    }
    Ok(())
}

/// Passes to `taker` the clause that forbids `pattern` at `points`, the points of an execution:
/// they do not have all of the pattern's values at its places.
fn give_denied<T, K: TokenSink<T>>(
    taker: &mut K,
    to: &mut T,
    variables: &Variables,
    pattern: &Pattern,
    points: &[u32],
) -> Result<(), K::Fault>
    requires ready { K.is_open to.old }
    requires numbered { IsNumbered variables.now }
    requires places { HasPoints points.now (pattern_seen pattern.now) }
    requires few { AreFew points.now }
    ensures { K.takes (clause_tokens (denied_at (values_in variables.now.values) points.now
        (pattern_seen pattern.now))) taker.old to.old taker.new to.new result }
{
    let size = pattern.places.size().min(pattern.values.size());
    for at in 0..size {
        let point = points[pattern.places.value(at) as usize];
        taker.negative(to, variables.number(point, pattern.values.value(at)))?;
    }
    taker.end_clause(to)
}
