//! Lists of at most four numbers below 2048, each stored in one number with a digit of 11 bits for
//! each element, the first element in the highest digit.

ghost use Rattle.std.specs.Prelude.{◌≤◌};

/// The number of bits of a digit.
const DIGIT_BITS: u8 = 11;

/// The number of values of a digit.
const DIGITS: u64 = 2048;

/// The largest number of digits that may follow another one in a list.
const MAX_FOLLOWERS: u8 = 3;

/// Returns the number of bits of `behind` digits, at most three.
fn bits(behind: u8) -> u8
    ensures { result ≤ 33 }
{
    DIGIT_BITS * behind.min(MAX_FOLLOWERS)
}

/// Appends `number` to `list`.
pub(crate) fn with_last(list: u64, number: u64) -> u64 {
    (list << DIGIT_BITS) | number
}

/// Returns the element of `list` that is followed by `behind` others.
pub(crate) fn number_at(list: u64, behind: u8) -> u64 {
    (list >> bits(behind)) % DIGITS
}

/// Removes from `list` the element that is followed by `behind` others.
pub(crate) fn without(list: u64, behind: u8) -> u64 {
    let bits = bits(behind);
    let rest = list & !(u64::MAX << bits);
    (list >> bits >> DIGIT_BITS << bits) | rest
}

/// Returns how many elements follow the one at `place` in a list of `size` elements.
pub(crate) fn elements_after(size: u8, place: u8) -> u8 {
    size.saturating_sub(place).saturating_sub(1)
}
