//! The weights of multipliers, added up by the keys of their equations.

ghost use Rattle.std.specs.Prelude.{◌≡◌, ◌<◌, ◌+◌, ◌%◌, ◌==◌, ℕ, All, IfOk, OnOk, unwrap_or, if◌then◌else◌};
ghost use Rattle.std.specs.BTreeMap.{get};
ghost use Rattle.std.specs.Ordering.{nat_cmp};
ghost use Rattle.wf_tree_model.specs.Balance.{IsMultiplier};
ghost use Rattle.wf_tree_steps.specs.Balance.Keys.{weight_under};
ghost use Rattle.wf_tree_steps.specs.Balance.Multipliers.{multipliers_seen};

use crate::balance::key::{key_of, labels_code, values_code};
use crate::balance::multiplier::Multiplier;
use std::alloc::{AllocError, Global};
use std::collections::BTreeMap;
use wf_task::Task;

/// Stands in a key where the place of the equation's participant would stand, on the side of the
/// equation without that participant; and for "skip no place". The places of a simplex are 0 to 3.
pub(crate) const WHOLE: u8 = 4;

/// Returns the sums of the weights of `multipliers` by key, modulo `modulus`. Each multiplier has
/// two keys, one for each side of its equation: with and without its participant.
pub(crate) fn weights_of(
    alloc: Global,
    task: &Task,
    modulus: u32,
    multipliers: &[Multiplier],
) -> Result<BTreeMap<u128, u32>, AllocError>
    requires some { 0 < modulus }
    requires fit { All (IsMultiplier task.now modulus) (multipliers_seen multipliers.now) }
    ensures weights { IfOk result (λ m. (q : ℕ) → unwrap_or (get nat_cmp m q) 0
        ≡ weight_under task.now (multipliers_seen multipliers.now) q % modulus) }
    ensures digits { OnOk result
        (All (λ x. All (λ v. v < 2047) x.others) (multipliers_seen multipliers.now)) }
{
    let symmetric = task.symmetric();
    let simplices = task.inputs().simplices();
    let mut weights = BTreeMap::new(alloc);
    'multipliers: for multiplier in multipliers {
        let simplex = simplices[multiplier.simplex as usize];
        let values = values_code(multiplier.others.as_slice(), WHOLE);
        let whole = labels_code(symmetric, &simplex, WHOLE);
        let with = key_of(multiplier.place, whole, values);
        put(&mut weights, with, multiplier.weight, modulus)?;
        let face = labels_code(symmetric, &simplex, multiplier.place);
        let without = key_of(WHOLE, face, values);
        put(&mut weights, without, multiplier.weight, modulus)?;
    }
    Ok(weights)
}

/// Adds `weight` to the sum that `weights` has for `key`, modulo `modulus`. A missing sum is 0.
fn put(
    weights: &mut BTreeMap<u128, u32>,
    key: u128,
    weight: u32,
    modulus: u32,
) -> Result<(), AllocError>
    requires { 0 < modulus }
    ensures { IfOk result (λ done. (q : ℕ) → unwrap_or (get nat_cmp weights.new q) 0
        ≡ (if key == q then (unwrap_or (get nat_cmp weights.old q) 0 + weight) % modulus
        else unwrap_or (get nat_cmp weights.old q) 0)) }
{
    let sum = weights.entry(key)?.or_insert(0);
    *sum = ((u64::from(*sum) + u64::from(weight)) % u64::from(modulus)) as u32;
    Ok(())
}

/// Returns the sum of weights that `weights` has for `key`, or 0 if it has none.
pub(crate) fn weight_under(weights: &BTreeMap<u128, u32>, key: u128) -> u32
    ensures { result ≡ unwrap_or (get nat_cmp weights.now key) 0 }
{
    weights.get(&key).copied().unwrap_or(0)
}
