//! The laws of the check's result.

ghost use Rattle.wf_tree_check.specs.Laws.{WhatIsAcceptedIsAnObstruction, WhatIsRefusedIsNone};

/// States that nodes without a fault are the nodes of an obstruction of the task.
pub fn what_is_accepted_is_an_obstruction()
    ensures { WhatIsAcceptedIsAnObstruction }
{}

/// States that nodes with a fault, other than a limit, are not the nodes of an obstruction of the
/// task.
pub fn what_is_refused_is_none()
    ensures { WhatIsRefusedIsNone }
{}
