//! Multipliers in the order in which the text lists them.

ghost use Rattle.std.specs.Prelude.{◌≡◌, ◌<◌, IfOk, length};
ghost use Rattle.wf_model.specs.Lists.{in_order};
ghost use Rattle.wf_tree_steps.specs.Balance.Multipliers.{multiplier_seen, multipliers_seen};
ghost use Rattle.wf_tree_explain.specs.Lists.{same_line};
ghost use Rattle.wf_tree_explain.specs.Words.{first_of, multiplier_cmp};

use std::alloc::{AllocError, Global};
use std::cmp::Ordering;
use std::marker::Model;
use wf_tree_steps::balance::{Multiplier, Others};

/// A multiplier in the order of the text: by simplex, then by place, by weight and by values.
///
/// Clauses see it as a multiplier of the definitions.
#[derive(Clone, Copy, Debug)]
pub(crate) struct MultiplierEntry {
    pub(crate) simplex: u32,
    pub(crate) weight: u32,
    pub(crate) place: u8,
    pub(crate) others: Others,
}

impl Model for MultiplierEntry {
    ghost use Rattle.std.specs.Prelude.{refl};
    ghost use Rattle.wf_tree_model.specs.Balance.{Multiplier};

    ghost Value = { Multiplier };

    ghost view = { λ e. record {
      simplex = e.simplex;
      place = e.place;
      others = e.others;
      weight = e.weight;
    } };

    ghost inverse = { λ x. record {
      simplex = x.simplex;
      weight = x.weight;
      place = x.place;
      others = x.others;
    } };

    ghost inverse_ok = { λ e h. refl };
}

impl MultiplierEntry {
    /// Creates the entry of `multiplier`, with the same contents.
    pub(crate) fn of(multiplier: &Multiplier) -> MultiplierEntry
        ensures { result ≡ multiplier_seen multiplier.now }
    {
        MultiplierEntry {
            simplex: multiplier.simplex,
            weight: multiplier.weight,
            place: multiplier.place,
            others: multiplier.others,
        }
    }

    /// Returns the values of the other participants.
    pub(crate) fn values(&self) -> &[u8]
        ensures { result.now ≡ self.now.others }
    {
        self.others.as_slice()
    }

    /// Returns whether both multipliers belong on one line: they have the same simplex, place and
    /// weight.
    pub(crate) fn is_same_line(&self, other: &MultiplierEntry) -> bool
        ensures { result ≡ same_line self.now other.now }
    {
        self.simplex == other.simplex && self.place == other.place && self.weight == other.weight
    }
}

/// Returns the first of `entries`.
#[tactic(auto, using(crate::proofs::Firsts::first_is))]
pub(crate) fn first_of(entries: &[MultiplierEntry]) -> MultiplierEntry
    requires { 0 < length entries.now }
    ensures { result ≡ first_of entries.now }
{
    entries[0]
}

/// Returns the multipliers in ascending order and without duplicates. Takes time O(n log n).
pub(crate) fn in_order(
    alloc: Global,
    multipliers: &[Multiplier],
) -> Result<Vec<MultiplierEntry>, AllocError>
    ensures { IfOk result (λ entries.
        entries.items ≡ in_order multiplier_cmp (multipliers_seen multipliers.now)) }
{
    let mut entries = Vec::with_capacity(alloc, multipliers.len())?;
    for multiplier in multipliers {
        entries.push(MultiplierEntry::of(multiplier))?;
    }
    entries.sort_unstable();
    entries.dedup();
    Ok(entries)
}

impl PartialEq for MultiplierEntry {
    ghost use Rattle.std.specs.Cmp.{partial_equiv_from_equiv};
    ghost use Rattle.wf_tree_explain.specs.Order.{same_multiplier};
    ghost use Rattle.wf_tree_explain.specs.Order.{same_multiplier-equivalence};

    ghost eq = { same_multiplier };

    ghost laws = { partial_equiv_from_equiv same_multiplier-equivalence };

    fn eq(&self, other: &MultiplierEntry) -> bool {
        self.is_same_line(other) && self.values() == other.values()
    }
}

impl Eq for MultiplierEntry {
    ghost use Rattle.wf_tree_explain.specs.Order.{same_multiplier-equivalence};

    ghost laws = { same_multiplier-equivalence };
}

impl Ord for MultiplierEntry {
    ghost use Rattle.std.specs.Prelude.{refl};
    ghost use Rattle.wf_tree_explain.specs.Words.{multiplier_cmp};
    ghost use Rattle.wf_tree_explain.specs.Order.{multiplier_cmp-total, same_multiplier-ties};

    ghost cmp = { multiplier_cmp };

    ghost total = { multiplier_cmp-total };

    ghost matches_partial_cmp = { λ s t. refl };

    ghost matches_eq = { same_multiplier-ties };

    fn cmp(&self, other: &MultiplierEntry) -> Ordering {
        let by_place = self
            .simplex
            .cmp(&other.simplex)
            .then(self.place.cmp(&other.place));
        let by_line = by_place.then(self.weight.cmp(&other.weight));
        by_line.then(self.values().cmp(&other.values()))
    }
}

impl PartialOrd for MultiplierEntry {
    ghost use Rattle.std.specs.Cmp.{po};
    ghost use Rattle.std.specs.Ordering.{as_partial_cmp};
    ghost use Rattle.wf_tree_explain.specs.Words.{multiplier_cmp};
    ghost use Rattle.wf_tree_explain.specs.Order.{multiplier_cmp-total, same_multiplier-ties};

    ghost partial_cmp = { as_partial_cmp multiplier_cmp };

    ghost laws = { po multiplier_cmp-total same_multiplier-ties };

    fn partial_cmp(&self, other: &MultiplierEntry) -> Option<Ordering> {
        Some(self.cmp(other))
    }
}
