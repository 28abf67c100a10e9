//! Well-known tasks that have no decision map after any number of rounds.

ghost use Rattle.std.specs.Prelude.{[], ◌∷◌};
ghost use Rattle.wf_model.specs.Presets.{own, renaming, set_agreement};
ghost use Rattle.wf_tree_model.specs.KnownResults.{HasNoMap, symmetry_breaking};
ghost use Rattle.wf_tree_model.specs.Trees.{IsObstruction};
ghost use Rattle.wf_tree_model.specs.KnownResults.{hourglass, hourglass_by_cases, loop_agreement, majority_consensus, one_of_three, punctured_torus};

/// States that consensus of two, three and four processes, each with its own number as its input,
/// has no decision map after any number of rounds (Fischer, Lynch and Paterson 1985; Loui and
/// Abu-Amara 1987).
pub fn consensus_has_no_map()
    ensures two { HasNoMap (set_agreement 2 1 own) }
    ensures three { HasNoMap (set_agreement 3 1 own) }
    ensures four { HasNoMap (set_agreement 4 1 own) }
{}

/// States that set agreement has no decision map after any number of rounds: for three processes
/// that may decide two different values, and for four that may decide three. The input of each
/// process is its own number (Borowsky and Gafni, Herlihy and Shavit, Saks and Zaharoglou 1993).
pub fn set_agreement_has_no_map()
    ensures three { HasNoMap (set_agreement 3 2 own) }
    ensures four { HasNoMap (set_agreement 4 3 own) }
{}

/// States that weak symmetry breaking of three and of four processes has no decision map after any
/// number of rounds.
pub fn symmetry_breaking_has_no_map()
    ensures three { HasNoMap (symmetry_breaking 3) }
    ensures four { HasNoMap (symmetry_breaking 4) }
{}

/// States that renaming of three processes with four names has no decision map after any number of
/// rounds.
pub fn renaming_has_no_map()
    ensures { HasNoMap (renaming 3 4) }
{}

/// States that the hourglass task has no decision map after any number of rounds.
///
/// The hourglass has two obstructions here: one split above a balance proves that there is no map,
/// and `hourglass_by_cases`, two cases with a balance each, is an obstruction as well. No balance
/// alone is one.
pub fn the_hourglass_has_no_map()
    ensures none { HasNoMap (hourglass 1) }
    ensures cases { IsObstruction (hourglass 1) hourglass_by_cases }
{}

/// States that majority consensus of three processes with the inputs 0, 1 and 1 has no decision map
/// after any number of rounds.
pub fn majority_consensus_has_no_map()
    ensures { HasNoMap (majority_consensus (0 ∷ 1 ∷ 1 ∷ [])) }
{}

/// States that `one_of_three`, a task of four processes, has no decision map after any number of
/// rounds. Its obstruction splits the simplex on which all four processes take part.
pub fn one_of_three_has_no_map()
    ensures { HasNoMap one_of_three }
{}

/// States that loop agreement on a punctured torus has no decision map after any number of rounds.
///
/// The loop is the boundary of the triangle that was removed from the torus. It also bounds the
/// rest of the torus, so no balance of the task itself is enough; a cover with two sheets is.
pub fn loops_on_a_punctured_torus_have_no_map()
    ensures { HasNoMap (loop_agreement punctured_torus) }
{}
