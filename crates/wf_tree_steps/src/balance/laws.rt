//! The law of the check's result.

ghost use Rattle.wf_tree_steps.specs.Balance.Judge.{NoFaultExactlyIfBalance};

/// States that multipliers have no fault exactly if they are a balance.
pub fn no_fault_exactly_if_balance()
    ensures { NoFaultExactlyIfBalance }
{}
