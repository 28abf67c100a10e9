//! The check whether multipliers are a balance of a task.

ghost use Rattle.std.specs.Prelude.{◌≡◌, ◌<◌, ◌≤◌, ◌%◌, ◌^◌, All, Bool, OnOk, map, unwrap_or, vec_items};
ghost use Rattle.std.specs.BTreeMap.{get};
ghost use Rattle.std.specs.Ordering.{nat_cmp};
ghost use Rattle.wf_model.specs.Simplex.{Simplex};
ghost use Rattle.wf_model.specs.Task.{Tuple};
ghost use Rattle.wf_tree_model.specs.Balance.{IsBalance, IsMultiplier, weight_of_vertices};
ghost use Rattle.wf_tree_refine.specs.AtHand.{at_hand};
ghost use Rattle.wf_tree_steps.specs.Balance.AtHand.{FitsInputs};
ghost use Rattle.wf_tree_steps.specs.Balance.Judge.{Judges, balance_fault, rules_fault, tuples_fault};
ghost use Rattle.wf_tree_steps.specs.Balance.Keys.{IsTestAt, IsTestOf, is_settled};
ghost use Rattle.wf_tree_steps.specs.Balance.Multipliers.{multipliers_seen};

use crate::balance::fault::BalanceFault;
use crate::balance::judge::judge_multipliers;
use crate::balance::key::{key_of, labels_code, values_code};
use crate::balance::multiplier::{Balance, Multiplier};
use crate::balance::weights::{WHOLE, weight_under, weights_of};
use std::alloc::Global;
use std::collections::BTreeMap;
use wf_task::{Row, Task};

/// Checks that `balance` is a balance of the task with the tuples `rows`: `rows` holds the tuples
/// of each input simplex of `task`, in the order of the simplices.
///
/// The check looks up two keys for each multiplier, and for each row one more key than it has
/// values. Its memory is a map with at most two entries a multiplier.
///
/// # Errors
///
/// Returns the first fault, in the order of the variants of [`BalanceFault`], or
/// [`BalanceFault::OutOfMemory`] if memory runs out.
pub fn is_balance(
    alloc: Global,
    task: &Task,
    rows: &[Vec<Row>],
    balance: &Balance,
) -> Result<(), BalanceFault>
    requires { FitsInputs task.now (map vec_items rows.now) }
    ensures judged { let t = at_hand task.now (map vec_items rows.now) in
        let xs = multipliers_seen balance.now.multipliers.items in
        Judges result (balance_fault t balance.now.modulus balance.now.sum xs) }
    ensures balance { let t = at_hand task.now (map vec_items rows.now) in
        let xs = multipliers_seen balance.now.multipliers.items in
        OnOk result (IsBalance t balance.now.modulus balance.now.sum xs) }
{
    // for the proof only: the clauses of this call state that `task` is a task
    let _ = task.processes();
    let modulus = balance.modulus;
    let multipliers = balance.multipliers.as_slice();
    if balance.sum == 0 || balance.sum >= modulus {
        return Err(BalanceFault::SumRange);
    }
    judge_multipliers(task, modulus, multipliers)?;
    if sum_of_vertices(task, modulus, multipliers) != balance.sum {
        return Err(BalanceFault::OtherSum);
    }
    let weights = weights_of(alloc, task, modulus, multipliers)?;
    judge_rows(task, rows, modulus, &weights)
}

/// Returns the sum of the weights of all multipliers whose simplex is a vertex, modulo `modulus`.
fn sum_of_vertices(task: &Task, modulus: u32, multipliers: &[Multiplier]) -> u32
    requires some { 0 < modulus }
    requires fit { All (IsMultiplier task.now modulus) (multipliers_seen multipliers.now) }
    ensures { result ≡ weight_of_vertices task.now (multipliers_seen multipliers.now) % modulus }
{
    let simplices = task.inputs().simplices();
    let mut sum: u32 = 0;
    'multipliers: for multiplier in multipliers {
        if simplices[multiplier.simplex as usize].colours() == 1 {
            sum = ((u64::from(sum) + u64::from(multiplier.weight)) % u64::from(modulus)) as u32;
        }
    }
    sum
}

/// Checks the rows of each input simplex, in order, and fails with the first row that counts other
/// than 0 modulo `modulus`.
///
/// The clause is stated for any test that agrees with `weights` on rows of bytes; the test in the
/// definition of a balance does.
fn judge_rows(
    task: &Task,
    rows: &[Vec<Row>],
    modulus: u32,
    weights: &BTreeMap<u128, u32>,
) -> Result<(), BalanceFault>
    requires some { 0 < modulus }
    requires fit { FitsInputs task.now (map vec_items rows.now) }
    ensures { let rules = (at_hand task.now (map vec_items rows.now)).delta in
        (test : Simplex → Tuple → Bool)
        → IsTestAt task.now (λ q. unwrap_or (get nat_cmp weights.now q) 0) modulus test rules
        → Judges result (rules_fault test 0 rules) }
{
    let symmetric = task.symmetric();
    let simplices = task.inputs().simplices();
    'simplices: for number in 0..simplices.len() {
        let labels = labels_code(symmetric, &simplices[number], WHOLE);
        judge_tuples(number as u64, labels, &rows[number], modulus, weights)?;
    }
    Ok(())
}

/// Checks the rows `tuples` of the input simplex `simplex`, and fails with the first row that
/// counts other than 0 modulo `modulus`. `labels` is the code of the simplex's vertices.
///
/// The clause is stated for any test that agrees with `weights` on rows of bytes.
fn judge_tuples(
    simplex: u64,
    labels: u64,
    tuples: &[Row],
    modulus: u32,
    weights: &BTreeMap<u128, u32>,
) -> Result<(), BalanceFault>
    requires some { 0 < modulus }
    requires labels { labels < 2 ^ 44 }
    ensures { (test : Tuple → Bool)
        → IsTestOf (λ q. unwrap_or (get nat_cmp weights.now q) 0) modulus labels test tuples.now
        → Judges result (tuples_fault test simplex 0 tuples.now) }
{
    'tuples: for (place, tuple) in tuples.iter().enumerate() {
        if !cancels(labels, tuple, modulus, weights) {
            let tuple = place as u64;
            return Err(BalanceFault::NotBalanced { simplex, tuple });
        }
    }
    Ok(())
}

/// Returns whether `tuple` counts 0 modulo `modulus`: whether the equations of its own simplex
/// count it as often as the equations of simplices with one more participant, who is left out.
/// `labels` is the code of the simplex's vertices.
fn cancels(labels: u64, tuple: &Row, modulus: u32, weights: &BTreeMap<u128, u32>) -> bool
    requires some { 0 < modulus }
    requires labels { labels < 2 ^ 44 }
    ensures settled { result
        ≡ is_settled (λ q. unwrap_or (get nat_cmp weights.now q) 0) modulus labels tuple.now }
    ensures small { All (λ x. x ≤ 255) tuple.now }
{
    let mut with: u64 = 0;
    'places: for place in 0..tuple.size() {
        let others = values_code(tuple.as_slice(), place);
        with += u64::from(weight_under(weights, key_of(place, labels, others)));
    }
    let values = values_code(tuple.as_slice(), WHOLE);
    let without = weight_under(weights, key_of(WHOLE, labels, values));
    with % u64::from(modulus) == u64::from(without % modulus)
}
