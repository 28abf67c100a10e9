//! Laws that relate unit propagation and RAT to entailment and satisfiability. Each is the contract
//! of an empty function.

ghost use Rattle.wf_sat_check.specs.Rup.Laws.{WhatFollowsIsEntailed, WhatIsJustifiedIsRedundant};

/// States that a clause that follows by unit propagation from the known clauses is entailed by
/// them. The function does nothing when it is called.
pub fn what_follows_is_entailed()
    ensures { WhatFollowsIsEntailed }
{}

/// Proves that adding a lemma that follows by unit propagation, or is a resolution asymmetric
/// tautology on its first literal, keeps satisfiability: what has a model has one afterwards too.
/// So a checker that adds no other lemmas never refutes what has a model. The function does nothing
/// when it is called.
pub fn what_is_justified_is_redundant()
    ensures { WhatIsJustifiedIsRedundant }
{}
