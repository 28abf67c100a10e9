//! Balances in the form in which the finder makes them.

use crate::digits::{elements_after, number_at};
use std::alloc::{AllocError, Global};
use wf_tree_elimination::Ring;
use wf_tree_steps::balance::{Balance, Multiplier, Others};

/// The number of values that a process may decide.
const VALUES: u64 = 256;

/// The largest number of other participants.
const MAX_OTHERS: usize = 3;

/// A multiplier of a found balance: its equation, given by an input simplex, a place and the values
/// of the others, and its weight.
#[derive(Clone, Copy, PartialEq, Eq, PartialOrd, Ord)]
pub(crate) struct FoundMultiplier {
    pub(crate) simplex: u32,
    pub(crate) place: u8,
    /// The number of other participants.
    pub(crate) others: u8,
    /// The values of the other participants, as a list of digits.
    pub(crate) rest: u64,
    pub(crate) weight: u32,
}

/// A found balance: multipliers with which each allowed tuple counts 0, and the sum of those of
/// vertices. Its modulus is that of the ring in which it was found.
#[derive(Drop)]
pub(crate) struct FoundBalance {
    pub(crate) sum: u32,
    pub(crate) multipliers: Vec<FoundMultiplier>,
}

/// Adds up the multipliers of each equation. The result is sorted by equation, has each equation
/// once, and omits those whose sum is 0.
pub(crate) fn add_up(
    alloc: Global,
    ring: Ring,
    placed: Vec<FoundMultiplier>,
) -> Result<Vec<FoundMultiplier>, AllocError> {
    let mut placed = placed;
    placed.sort_unstable();
    let mut sums: Vec<FoundMultiplier> = Vec::new(alloc);
    let mut sum = 0;
    for (place, one) in placed.iter().enumerate() {
        sum = ring.sum(sum, one.weight);
        if !is_same(*one, placed.get(place.saturating_add(1))) {
            if sum != 0 {
                sums.push(FoundMultiplier {
                    weight: sum,
                    ..*one
                })?;
            }
            sum = 0;
        }
    }
    Ok(sums)
}

/// Returns whether `next` exists and belongs to the same equation as `one`.
fn is_same(one: FoundMultiplier, next: Option<&FoundMultiplier>) -> bool {
    match next {
        Some(next) => {
            next.simplex == one.simplex && next.place == one.place && next.rest == one.rest
        }
        None => false,
    }
}

impl FoundBalance {
    /// Multiplies the balance by a unit of `ring` so that its sum becomes a power of the prime.
    pub(crate) fn scaled(self, ring: Ring) -> FoundBalance {
        let FoundBalance {
            sum,
            mut multipliers,
        } = self;
        let part = ring.part(sum);
        let times = ring.inverse(sum / part);
        for one in multipliers.iter_mut() {
            one.weight = ring.product(one.weight, times);
        }
        FoundBalance {
            sum: ring.product(sum, times),
            multipliers,
        }
    }

    /// Returns the balance modulo `modulus`, which is `times` as large as the ring's modulus: its
    /// sum and weights are multiplied by `times`.
    pub(crate) fn find_balance_modulo(
        &self,
        alloc: Global,
        modulus: u32,
        times: u32,
    ) -> Result<Balance, AllocError> {
        let mut multipliers = Vec::with_capacity(alloc, self.multipliers.len())?;
        for one in &self.multipliers {
            multipliers.push(Multiplier {
                simplex: one.simplex,
                place: one.place,
                others: others(one.rest, one.others),
                weight: one.weight.saturating_mul(times),
            })?;
        }
        Ok(Balance {
            modulus,
            sum: self.sum.saturating_mul(times),
            multipliers,
        })
    }
}

/// Returns the `count` values in the list of digits `rest`. There are at most three.
fn others(rest: u64, count: u8) -> Others {
    let mut values = [0; MAX_OTHERS];
    for (place, value) in values.iter_mut().enumerate() {
        let digit = number_at(rest, elements_after(count, place as u8));
        *value = (digit % VALUES) as u8;
    }
    let count = (count as usize).min(MAX_OTHERS);
    Others::new(&values[..count])
}
