//! Passing the question of a task, or of a branch, to a proof checker.

ghost use Rattle.std.specs.Prelude.{◌≡◌, ◌≤◌, IfOk, length, map};
ghost use Rattle.wf_model.specs.Limits.{most_points};
ghost use Rattle.wf_model.specs.Problem.{problem_of};
ghost use Rattle.wf_model.specs.Task.{values};
ghost use Rattle.wf_complex.specs.Protocol.{IsProtocol};
ghost use Rattle.wf_base.specs.Set.Sets.{values_in};
ghost use Rattle.wf_sat_formula.specs.Branches.{formula_in};
ghost use Rattle.wf_sat_formula.specs.Encoding.{question};
ghost use Rattle.wf_sat_cnf.specs.Exclusions.{exclusions_on};
ghost use Rattle.wf_sat_cnf.specs.Posed.{with_clauses};

use crate::checkers::{ClauseSink, PendingClause};
use crate::question::all_patterns;
use crate::source::{ClauseSource, give_clauses};
use crate::variables::Variables;
use std::alloc::{AllocError, Global};
use wf_base::set::Mask;
use wf_complex::Protocol;
use wf_task::Task;

/// Creates a proof checker that knows the formula of the task's question over `protocol`, and
/// nothing else. A proof that refutes it shows that the task has no decision map there.
///
/// The clauses are added in the order in which [`CnfFormula`](crate::CnfFormula) writes them. The
/// memory grows with the number of clauses and their literals.
///
/// # Errors
///
/// Returns `AllocError` if memory runs out.
pub fn pose<C: ClauseSink>(alloc: Global, task: &Task, protocol: &Protocol) -> Result<C, AllocError>
    requires { IsProtocol task.now protocol.now.rounds protocol.now }
    ensures { IfOk result (C.is_posed (question task.now protocol.now.rounds)) }
{
    posed(alloc, task, protocol, &[])
}

/// Creates a proof checker that knows the formula of a branch of the task's question over
/// `protocol`, and nothing else. `sets` has the candidates of each point in the branch. A proof
/// that refutes the formula shows that no map with values from `sets` is a decision map of the task
/// there.
///
/// The unit clauses that exclude the other values are added after the clauses of the whole
/// question. The memory grows with the number of clauses and their literals.
///
/// # Errors
///
/// Returns `AllocError` if memory runs out.
pub fn pose_branch<C: ClauseSink>(
    alloc: Global,
    task: &Task,
    protocol: &Protocol,
    sets: &[Mask],
) -> Result<C, AllocError>
    requires protocol { IsProtocol task.now protocol.now.rounds protocol.now }
    requires sets { length sets.now ≡ length protocol.now.points }
    ensures { IfOk result (C.is_posed (formula_in (problem_of task.now protocol.now.rounds)
        (map values_in sets.now))) }
{
    // for its contract, which bounds the number of points and so that of the sets
    let _points = protocol.points();
    posed(alloc, task, protocol, sets)
}

/// Creates a proof checker that knows the formula of the task's question and the unit clauses that
/// exclude the values that are not in `sets`. If `sets` is empty, nothing is excluded.
fn posed<C: ClauseSink>(
    alloc: Global,
    task: &Task,
    protocol: &Protocol,
    sets: &[Mask],
) -> Result<C, AllocError>
    requires protocol { IsProtocol task.now protocol.now.rounds protocol.now }
    requires few { length sets.now ≤ most_points }
    ensures { IfOk result (C.is_posed (with_clauses
        (exclusions_on (values task.now) (map values_in sets.now))
        (question task.now protocol.now.rounds))) }
{
    let variables = Variables::of(alloc, task.values())?;
    let patterns = all_patterns(alloc, task)?;
    let source = ClauseSource {
        variables: &variables,
        patterns: &patterns,
        protocol,
        sets,
    };
    let mut checker = C::on_variables(alloc, variables.count(protocol.points()))?;
    let mut clause = PendingClause {
        alloc,
        literals: Vec::new(alloc),
    };
    give_clauses(&mut clause, &mut checker, &source)?;
    Ok(checker)
}
