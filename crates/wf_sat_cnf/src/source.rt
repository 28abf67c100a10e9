//! The clauses of a question, in order.

ghost use Rattle.std.specs.Prelude.{◌≤◌, length, map};
ghost use Rattle.wf_model.specs.Limits.{most_points};
ghost use Rattle.wf_base.specs.Set.Sets.{values_in};
ghost use Rattle.wf_sat_cnf.specs.Patterns.{patterns_seen};
ghost use Rattle.wf_sat_cnf.specs.Variables.{IsNumbered};
ghost use Rattle.wf_sat_cnf.specs.Clauses.{AreCovered};
ghost use Rattle.wf_sat_cnf.specs.Exclusions.{clauses_with};
ghost use Rattle.wf_sat_cnf.specs.Tokens.{formula_tokens};

use crate::clauses::{give_executions, give_points};
use crate::exclusions::give_exclusions;
use crate::patterns::Patterns;
use crate::taker::TokenSink;
use crate::variables::Variables;
use wf_base::set::Mask;
use wf_complex::Protocol;

/// The data from which the clauses of a question are generated.
#[derive(Clone, Copy)]
pub(crate) struct ClauseSource<'a> {
    pub(crate) variables: &'a Variables,
    // the minimal forbidden patterns of each input simplex, by its index
    pub(crate) patterns: &'a [Patterns],
    pub(crate) protocol: &'a Protocol,
    // the candidates of each point if the question is that of a branch, and else empty
    pub(crate) sets: &'a [Mask],
}

/// Passes all clauses to `taker`: those of the points, then those of the executions, and then the
/// unit clauses that exclude the values outside `source.sets`.
pub(crate) fn give_clauses<T, K: TokenSink<T>>(
    taker: &mut K,
    to: &mut T,
    source: &ClauseSource,
) -> Result<(), K::Fault>
    requires ready { K.is_open to.old }
    requires numbered { IsNumbered source.now.variables.now }
    requires covered { let s = source.now in
        AreCovered (map patterns_seen s.patterns.now) s.protocol.now }
    requires few { length source.now.sets.now ≤ most_points }
    ensures { let s = source.now in K.takes (formula_tokens (clauses_with
        (values_in s.variables.now.values) (map patterns_seen s.patterns.now) s.protocol.now
        (map values_in s.sets.now))) taker.old to.old taker.new to.new result }
{
    let variables = source.variables;
    give_points(taker, to, variables, source.protocol.points())?;
    give_executions(taker, to, variables, source.patterns, source.protocol)?;
    give_exclusions(taker, to, variables, source.sets)
}
