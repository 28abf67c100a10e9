//! The formula of a task, in conjunctive normal form: it has a model exactly if the task has a
//! decision map.
//!
//! `wf_sat_text` defines formulas and models. In this crate's `specs/`, `Patterns` defines which
//! combinations of values the tuples of a rule forbid, `Encoding` the formula of a problem,
//! `Dimacs` its text, and `SolverText` the output of a SAT solver. `Branches` defines the formula
//! for the maps in a given box, so that each branch of a problem is a question of its own.
//!
//! The functions below are laws: their bodies are empty, and their clauses are what is proved. Each
//! clause is one name, which `specs/Laws` or `specs/BranchLaws` defines. Begin with
//! [`the_formula_has_a_model_exactly_where_there_is_a_decision_map`].
#![tactic(auto)]

ghost use Rattle.wf_sat_formula.specs.Laws.{FormulasNameTheirVariables, ModelsAreSolutions};
ghost use Rattle.wf_sat_formula.specs.Laws.{SolutionsAreModels, ModelsAreDecisionMaps};
ghost use Rattle.wf_sat_formula.specs.Laws.{DecisionMapsAreModels};
ghost use Rattle.wf_sat_formula.specs.Laws.{FormulaHasAModelExactlyWhereThereIsADecisionMap};
ghost use Rattle.wf_sat_formula.specs.Laws.{FormulaIsUnsatisfiableExactlyWhereThereIsNoDecisionMap};
ghost use Rattle.wf_sat_formula.specs.BranchLaws.{FormulasInABoxNameTheirVariables};
ghost use Rattle.wf_sat_formula.specs.BranchLaws.{ModelsInABoxAreSolutionsThere};
ghost use Rattle.wf_sat_formula.specs.BranchLaws.{SolutionsInABoxAreModelsThere};
ghost use Rattle.wf_sat_formula.specs.BranchLaws.{FormulaInABoxHasAModelExactlyWhereASolutionLiesThere};
ghost use Rattle.wf_sat_formula.specs.BranchLaws.{BranchesAreUnsatisfiableExactlyWhereThereIsNoDecisionMap};
ghost use Rattle.wf_sat_formula.specs.BranchLaws.{LeastDecisionMapLiesInTheFirstBranchWithAModel};

/// States that a problem's formula uses only its own variables, which are numbered from 1 to the
/// number of points times the number of values.
pub fn formulas_name_their_variables()
    ensures { FormulasNameTheirVariables }
{}

/// States how the models of a problem's formula correspond to the problem's solutions: taking at
/// each point the least value whose variable is true turns a model into a solution, and the
/// assignment that states a solution's values is a model.
pub fn models_are_solutions()
    ensures models { ModelsAreSolutions }
    ensures solutions { SolutionsAreModels }
{}

/// States how the models of a task's formula correspond to its decision maps: a model, read as a
/// function on the views by the numbers of their points, is a decision map; and the assignment that
/// states a decision map's values is a model.
pub fn models_are_decision_maps()
    ensures models { ModelsAreDecisionMaps }
    ensures maps { DecisionMapsAreModels }
{}

/// States that the formula of a task has a model if and only if some function on the views is a
/// decision map.
pub fn the_formula_has_a_model_exactly_where_there_is_a_decision_map()
    ensures { FormulaHasAModelExactlyWhereThereIsADecisionMap }
{}

/// States that the formula of a task is unsatisfiable if and only if no function on the views is a
/// decision map.
pub fn the_formula_is_unsatisfiable_exactly_where_there_is_no_decision_map()
    ensures { FormulaIsUnsatisfiableExactlyWhereThereIsNoDecisionMap }
{}

/// States that a problem's formula for the maps in a box uses only its own variables.
pub fn formulas_in_a_box_name_their_variables()
    ensures { FormulasInABoxNameTheirVariables }
{}

/// States how the models of a problem's formula for a box correspond to the solutions in that box.
/// In particular, the formula has a model if and only if a solution lies in the box.
pub fn models_in_a_box_are_solutions_there()
    ensures models { ModelsInABoxAreSolutionsThere }
    ensures solutions { SolutionsInABoxAreModelsThere }
    ensures exactly { FormulaInABoxHasAModelExactlyWhereASolutionLiesThere }
{}

/// States that the formulas of all branches of a task are unsatisfiable if and only if no function
/// on the views is a decision map.
pub fn the_branches_are_unsatisfiable_exactly_where_there_is_no_decision_map()
    ensures { BranchesAreUnsatisfiableExactlyWhereThereIsNoDecisionMap }
{}

/// States that, if the formula of one branch has a model and those of all earlier branches are
/// unsatisfiable, then the least decision map lies in that branch.
pub fn the_least_decision_map_lies_in_the_first_branch_with_a_model()
    ensures { LeastDecisionMapLiesInTheFirstBranchWithAModel }
{}
