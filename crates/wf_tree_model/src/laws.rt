//! The laws that make obstructions sound, for every number of rounds.

ghost use Rattle.wf_tree_model.specs.Laws.{AnObstructionLeavesNoMap, BalancesLeaveNoMap, CasesLeaveNoMap, CoversLeaveNoMap, SplitsLeaveNoMap, StarsAreConnected};

/// States that stars of the protocol complex are strongly connected: let a function have equal
/// values on any two executions that agree on the last views at some places and differ at one
/// place. Then it has equal values on all executions that agree on these views.
pub fn stars_are_connected()
    ensures { StarsAreConnected }
{}

/// States that a task with a balance has no decision map after any number of rounds. The law is for
/// tasks with first block 1.
pub fn balances_leave_no_map()
    ensures { BalancesLeaveNoMap }
{}

/// States that a task has no decision map if none of the cases of one of its input simplices has
/// one. A case allows only one connected component of the simplex's tuples. The law is for tasks
/// with first block 1.
pub fn cases_leave_no_map()
    ensures { CasesLeaveNoMap }
{}

/// States that a task that is not symmetric has no decision map if the task after a split of one of
/// its input simplices has none. The law is for tasks with first block 1.
pub fn splits_leave_no_map()
    ensures { SplitsLeaveNoMap }
{}

/// States that a task that is not symmetric has no decision map if the task after a cover of one of
/// its input simplices has none. The law is for tasks with first block 1.
pub fn covers_leave_no_map()
    ensures { CoversLeaveNoMap }
{}

/// States that a task with an obstruction has no decision map after any number of rounds.
pub fn an_obstruction_leaves_no_map()
    ensures { AnObstructionLeavesNoMap }
{}
