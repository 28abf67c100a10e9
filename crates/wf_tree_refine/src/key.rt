//! Keys of tuples: numbers by which tuples that agree at all places but one are found.

ghost use Rattle.std.specs.Prelude.{◌≡◌, ◌==◌, ◌≤◌, ℕ, All, IfOk, Some, nat_eq, unwrap_or, if◌then◌else◌};
ghost use Rattle.std.specs.HashMap.{get};
ghost use Rattle.wf_tree_refine.specs.Keys.{key_without};

use std::alloc::AllocError;
use std::collections::HashMap;
use wf_task::Row;

/// Returns the values of `row` as one number, with 0 in place of the value at the place `skipped`.
/// Tuples of one length have the same key exactly if they agree at all other places.
pub(crate) fn key_without(row: &Row, skipped: u8) -> u32
    ensures key { result ≡ key_without skipped 0 row.now }
    ensures small { All (λ x. x ≤ 255) row.now }
{
    let mut key = 0;
    'places: for place in (0..row.size()).rev() {
        let value = if place == skipped {
            0
        } else {
            row.value(place)
        };
        key = key * 256 + u32::from(value);
    }
    key
}

/// Returns the number stored under `key` in `firsts`. If there is none, stores `number` and returns
/// it.
pub(crate) fn get_or_insert(
    firsts: &mut HashMap<u32, u32>,
    key: u32,
    number: u32,
) -> Result<u32, AllocError>
    ensures first { IfOk result (λ first. first ≡ unwrap_or (get nat_eq firsts.old key) number) }
    ensures kept { IfOk result (λ first. (q : ℕ) → get nat_eq firsts.new q
        ≡ (if key == q then Some first else get nat_eq firsts.old q)) }
{
    match firsts.get(&key).copied() {
        Some(first) => Ok(first),
        None => {
            firsts.insert(key, number)?;
            Ok(number)
        }
    }
}
