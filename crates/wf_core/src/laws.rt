//! What holds after every list of legal events. Each law is a function with an empty body, and its
//! contract is what is proved.

ghost use Rattle.wf_core.specs.Laws.{EventsThatAreNotRefusedHaveAStep, AStepLeavesOneState};
ghost use Rattle.wf_core.specs.Laws.{ListsRunOrStop, ListsThatRunDoNotStop, ARunLeavesOneState, ListsStopAtOnePlace};
ghost use Rattle.wf_core.specs.Laws.{LeastIsPosted, SeenWasPosted, CutLiesAbove, HeldIsHeld, OneWorker, OneBranch};
ghost use Rattle.wf_core.specs.Laws.{FirstTruePlace};
ghost use Rattle.wf_core.specs.Laws.{AccountsHaveAllBranches, AccountsAddUp, NoneIsCutWithoutAPost};

/// States that an event is illegal if and only if it has no step, and that each step leads to
/// exactly one state.
pub fn steps_are_legal()
    ensures legal { EventsThatAreNotRefusedHaveAStep }
    ensures one { AStepLeavesOneState }
{}

/// States that a list of events either runs to its end, in exactly one state, or has exactly one
/// first illegal event, with exactly one reason.
pub fn lists_run_or_stop()
    ensures either { ListsRunOrStop }
    ensures not_both { ListsThatRunDoNotStop }
    ensures one_state { ARunLeavesOneState }
    ensures one_place { ListsStopAtOnePlace }
{}

/// States the invariants of every run of legal events: the least number is the least posted branch,
/// or the number of branches if none is posted; a number that a worker has seen is a posted branch
/// or the number of branches, and not below the least number; and each cut branch is above a posted
/// one.
pub fn what_runs_keep()
    ensures least { LeastIsPosted }
    ensures seen { SeenWasPosted }
    ensures cut { CutLiesAbove }
{}

/// States that the statuses say who holds what: a branch has the status `Held(w)` if and only if
/// worker `w` took it and has not settled it since. No branch is held by two workers, and no worker
/// holds two branches.
pub fn no_branch_is_held_twice()
    ensures status { HeldIsHeld }
    ensures one_worker { OneWorker }
    ensures one_branch { OneBranch }
{}

/// States that, once all branches are settled, the least number is the first branch that has a map,
/// or the number of branches if none has. Which branches have a map may be any list of truth values
/// that is true at the posted branches and false at the refuted ones; a cut branch may have one or
/// not.
pub fn first_true_place()
    ensures { FirstTruePlace }
{}

/// States that the account of a state adds up: once all branches are settled, each was either
/// searched or cut. If none is posted, then none was cut, and `least` is the number of branches.
pub fn accounts_add_up()
    ensures branches { AccountsHaveAllBranches }
    ensures sum { AccountsAddUp }
    ensures no_post { NoneIsCutWithoutAPost }
{}
