//! Keys: an integer for each simplex, such that integers and simplices have the same order.
//!
//! The highest digit of a key is the simplex's size. Then comes one digit of nine bits for each
//! process from 0 to 3: its value, or 256 if the process is absent.

ghost use Rattle.std.specs.Prelude.{◌≡◌, ◌+◌, ◌-◌, ◌*◌, ◌<◌, ◌≤◌};
ghost use Rattle.wf_simplex.specs.Entries.{is_within};
ghost use Rattle.wf_simplex.specs.Keys.{absent, one_vertex, key_limit, unit_of, digit_at, entry_of};

/// The number of bits in a digit.
const DIGIT_BITS: u8 = 9;

/// The base of the digits: the least power of two above [`ABSENT`].
const DIGITS: u64 = 512;

/// The digit of an absent process: one more than the largest value.
///
/// It is above all values because of the order. If two simplices of one size first differ at a
/// process that only one of them has, then that one comes first: the other goes on with a later
/// process.
pub(crate) const ABSENT: u64 = 256;

/// The key before any vertex is added: size 0 and four absent processes. It is not the key of a
/// simplex.
pub(crate) const NO_VERTEX: u64 = ((ABSENT * DIGITS + ABSENT) * DIGITS + ABSENT) * DIGITS + ABSENT;

/// The amount by which the size digit of a key grows with each vertex.
pub(crate) const ONE_VERTEX: u64 = DIGITS * DIGITS * DIGITS * DIGITS;

/// The process with the lowest digit.
const LAST_PROCESS: u8 = 3;

/// Returns the digit of `process` in `key`.
pub(crate) fn digit(key: u64, process: u8) -> u64
    requires { process < 4 }
    ensures { result ≡ digit_at key process }
{
    (key >> (DIGIT_BITS * (LAST_PROCESS - process))) % DIGITS
}

/// Returns the value that `digit` stands for, or `None` if it says that the process is absent.
pub(crate) fn entry(digit: u64) -> Option<u8>
    ensures { result ≡ entry_of digit }
{
    if digit < ABSENT {
        Some(digit as u8)
    } else {
        None
    }
}

/// Returns `true` if the vertex that `digit` stands for, if any, is also the one that `other`
/// stands for: if `digit` is that of an absent process, or both are equal.
pub(crate) fn is_within(digit: u64, other: u64) -> bool
    ensures { result ≡ is_within (entry_of digit) (entry_of other) }
{
    ABSENT <= digit || digit == other
}

/// Returns `key` with the vertex of `process` and `value` added. `process` must be absent in `key`.
pub(crate) fn key_with(key: u64, process: u8, value: u8) -> u64
    requires process { process < 4 }
    requires few { key < key_limit }
    ensures key { result ≡ key + one_vertex - (absent - value) * unit_of process }
    ensures few { result ≤ key + one_vertex }
    ensures value { value ≤ 255 }
{
    key + ONE_VERTEX - (ABSENT - u64::from(value)) * digit_weight(process)
}

/// Returns the weight of the digit of `process` in a key.
fn digit_weight(process: u8) -> u64
    requires { process < 4 }
    ensures unit { result ≡ unit_of process }
    ensures few { result ≤ unit_of 0 }
{
    match process {
        0 => DIGITS * DIGITS * DIGITS,
        1 => DIGITS * DIGITS,
        2 => DIGITS,
        _ => 1,
    }
}
