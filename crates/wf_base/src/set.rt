//! Sets of values from 0 to 255, as four machine words: value `v` is bit `v % 64` of word `v / 64`.
//!
//! [`Mask`] is the set, and [`set64`] has most of the same functions for a single word. Contracts
//! see a set as the ascending list of its values, `values_in`, and every function says exactly what
//! it returns, so callers need not know the words and bits.
//!
//! No function allocates.

pub mod set64;

ghost use Rattle.std.specs.Prelude.{◌≡◌, ◌<◌, ◌==◌, ◌||◌, ◌∷◌, ℕ, [], not, nat_lt, filter, length, slice_index, MatchOption};
ghost use Rattle.wf_model.specs.Lists.{has};
ghost use Rattle.wf_base.specs.Set.Parts.{part_limit, part_values};
ghost use Rattle.wf_base.specs.Set.Sets.{values_in};

use set64::Set64;

/// A set of values from 0 to 255.
pub type Mask = [u64; 4];

/// Returns the empty set.
pub fn empty() -> Mask
    ensures { values_in result ≡ [] }
{
    [0; 4]
}

/// Returns the set of the values in `part`, all of them below 64.
pub fn from_set64(part: Set64) -> Mask
    ensures { values_in result ≡ part_values part }
{
    [part, 0, 0, 0]
}

/// Returns the values of `set` that are below 64.
pub fn low_set64(set: Mask) -> Set64
    ensures { part_values result ≡ filter (λ v. nat_lt v part_limit) (values_in set) }
{
    set[0]
}

/// Returns `true` if `set` is empty.
pub fn is_empty(set: Mask) -> bool
    ensures { result ≡ (length (values_in set) == 0) }
{
    let [a, b, c, d] = set;
    set64::is_empty(a) & set64::is_empty(b) & set64::is_empty(c) & set64::is_empty(d)
}

/// Returns the number of values in `set`.
pub fn count(set: Mask) -> u32
    ensures { result ≡ length (values_in set) }
{
    let [a, b, c, d] = set;
    set64::count(a) + set64::count(b) + set64::count(c) + set64::count(d)
}

/// Returns `true` if `set` has at least two values.
pub fn has_two(set: Mask) -> bool
    ensures { result ≡ nat_lt 1 (length (values_in set)) }
{
    count(set) > 1
}

/// Returns `true` if `set` contains `value`.
pub fn contains(set: Mask, value: u8) -> bool
    ensures { result ≡ has (values_in set) value }
{
    set64::contains(set[(value / 64) as usize], value % 64)
}

/// Returns the singleton of `value`.
pub fn singleton(value: u8) -> Mask
    ensures { values_in result ≡ value ∷ [] }
{
    let bit = set64::singleton(value % 64);
    if value < 64 {
        [bit, 0, 0, 0]
    } else if value < 128 {
        [0, bit, 0, 0]
    } else if value < 192 {
        [0, 0, bit, 0]
    } else {
        [0, 0, 0, bit]
    }
}

/// Returns `set` with `value` added.
pub fn with(set: Mask, value: u8) -> Mask
    ensures { (v : ℕ) → has (values_in result) v ≡ (has (values_in set) v || value == v) }
{
    let [a, b, c, d] = set;
    let bit = set64::singleton(value % 64);
    if value < 64 {
        [a | bit, b, c, d]
    } else if value < 128 {
        [a, b | bit, c, d]
    } else if value < 192 {
        [a, b, c | bit, d]
    } else {
        [a, b, c, d | bit]
    }
}

/// Returns `set` with `value` removed.
pub fn without(set: Mask, value: u8) -> Mask
    ensures { values_in result ≡ filter (λ v. not (v == value)) (values_in set) }
{
    let [a, b, c, d] = set;
    let bit = value % 64;
    if value < 64 {
        [set64::without(a, bit), b, c, d]
    } else if value < 128 {
        [a, set64::without(b, bit), c, d]
    } else if value < 192 {
        [a, b, set64::without(c, bit), d]
    } else {
        [a, b, c, set64::without(d, bit)]
    }
}

/// Returns the intersection of `set` and `other`.
pub fn intersection(set: Mask, other: Mask) -> Mask
    ensures { values_in result ≡ filter (has (values_in other)) (values_in set) }
{
    let [a, b, c, d] = set;
    let [e, f, g, h] = other;
    [
        set64::intersection(a, e),
        set64::intersection(b, f),
        set64::intersection(c, g),
        set64::intersection(d, h),
    ]
}

/// Returns the difference of `set` and `other`: the values of `set` that `other` lacks.
pub fn difference(set: Mask, other: Mask) -> Mask
    ensures { values_in result ≡ filter (λ v. not (has (values_in other) v)) (values_in set) }
{
    let [a, b, c, d] = set;
    let [e, f, g, h] = other;
    [
        set64::difference(a, e),
        set64::difference(b, f),
        set64::difference(c, g),
        set64::difference(d, h),
    ]
}

/// Returns the least value of `set`, which must not be empty.
pub fn first(set: Mask) -> u8
    requires { 0 < length (values_in set) }
    ensures { result ≡ slice_index (values_in set) 0 }
{
    match split_first(set) {
        Some((value, _)) => value,
        None => unreachable!(),
    }
}

/// Returns the least value of `set`, and `set` without it; or `None` if `set` is empty.
pub fn split_first(set: Mask) -> Option<(u8, Mask)>
    ensures { MatchOption result (values_in set ≡ []) (λ r. values_in set ≡ r.0 ∷ values_in r.1) }
{
    let [a, b, c, d] = set;
    if let Some((value, rest)) = set64::split_first(a) {
        return Some((value, [rest, b, c, d]));
    }
    if let Some((value, rest)) = set64::split_first(b) {
        return Some((64 + value, [0, rest, c, d]));
    }
    if let Some((value, rest)) = set64::split_first(c) {
        return Some((128 + value, [0, 0, rest, d]));
    }
    match set64::split_first(d) {
        Some((value, rest)) => Some((192 + value, [0, 0, 0, rest])),
        None => None,
    }
}
