//! Sets of values from 0 to 63, as one machine word: value `v` is bit `v`.
//!
//! Contracts see such a set as the ascending list of its values, `part_values`, and every function
//! says exactly what it returns. No function allocates.

ghost use Rattle.std.specs.Prelude.{◌≡◌, ◌<◌, ◌≤◌, ◌==◌, ◌∷◌, [], true, not, filter, length, slice_index, IfSome, MatchOption};
ghost use Rattle.wf_model.specs.Lists.{has};
ghost use Rattle.wf_base.specs.Set.Parts.{part_limit, part_values};

/// A set of values from 0 to 63: one word of a [`Mask`](crate::set::Mask).
pub type Set64 = u64;

/// Returns `true` if `part` is empty.
pub fn is_empty(part: Set64) -> bool
    ensures { result ≡ (length (part_values part) == 0) }
{
    part == 0
}

/// Returns the number of values in `part`.
pub fn count(part: Set64) -> u32
    ensures count { result ≡ length (part_values part) }
    ensures few { result ≤ part_limit }
{
    part.count_ones()
}

/// Returns `true` if `part` contains `value`. Any `value` is allowed; one of 64 or more is never
/// contained.
pub fn contains(part: Set64, value: u8) -> bool
    ensures has { result ≡ has (part_values part) value }
    ensures small { result ≡ true → value < part_limit }
{
    value < 64 && has_bit(part, value)
}

/// Returns `true` if the bit of `value`, which is below 64, is set in `part`.
fn has_bit(part: Set64, value: u8) -> bool
    requires { value < part_limit }
    ensures { result ≡ has (part_values part) value }
{
    part >> value & 1 == 1
}

/// Returns the singleton of `value`, which must be below 64.
pub fn singleton(value: u8) -> Set64
    requires { value < part_limit }
    ensures { part_values result ≡ value ∷ [] }
{
    1 << value
}

/// Returns `part` with `value` removed. `value` must be below 64.
pub fn without(part: Set64, value: u8) -> Set64
    requires { value < part_limit }
    ensures { part_values result ≡ filter (λ v. not (v == value)) (part_values part) }
{
    part & !(1 << value)
}

/// Returns the intersection of `part` and `other`.
pub fn intersection(part: Set64, other: Set64) -> Set64
    ensures { part_values result ≡ filter (has (part_values other)) (part_values part) }
{
    part & other
}

/// Returns the difference of `part` and `other`: the values of `part` that `other` lacks.
pub fn difference(part: Set64, other: Set64) -> Set64
    ensures { part_values result
        ≡ filter (λ v. not (has (part_values other) v)) (part_values part) }
{
    part & !other
}

/// Returns the least value of `part`, which must not be empty.
pub fn first(part: Set64) -> u8
    requires { 0 < length (part_values part) }
    ensures first { result ≡ slice_index (part_values part) 0 }
    ensures small { result < part_limit }
{
    part.trailing_zeros() as u8
}

/// Returns `part` without its least value. `part` must not be empty.
pub fn rest(part: Set64) -> Set64
    requires { 0 < length (part_values part) }
    ensures { part_values part ≡ slice_index (part_values part) 0 ∷ part_values result }
{
    part & (part - 1)
}

/// Returns the least value of `part`, and `part` without it; or `None` if `part` is empty.
pub fn split_first(part: Set64) -> Option<(u8, Set64)>
    ensures split { MatchOption result (part_values part ≡ [])
        (λ r. part_values part ≡ r.0 ∷ part_values r.1) }
    ensures small { IfSome result (λ r. r.0 < part_limit) }
{
    if is_empty(part) {
        return None;
    }
    Some((first(part), rest(part)))
}
