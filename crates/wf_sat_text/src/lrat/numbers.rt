//! Decimal numbers in a piece of text.

ghost use Rattle.std.specs.Prelude.{◌≡◌, ◌≤◌, IsTrue, length};
ghost use Rattle.std.specs.Char.{is_ascii_digit};
ghost use Rattle.wf_sat_text.specs.Lrat.Moves.{AreDigits};
ghost use Rattle.wf_sat_text.specs.Lrat.Text.{with_digit};

/// The largest value that the parser represents, 2^60. Larger numbers are read as this one; no
/// clause has so large an id.
pub const MAX_NUMBER: u64 = 1_152_921_504_606_846_976;

/// A run of decimal digits in a piece of text.
#[derive(Clone, Copy)]
pub(crate) struct NumberRead {
    /// The index of the first byte after the digits, or the length of the piece.
    pub(crate) end: usize,
    /// The number that the digits spell, or [`MAX_NUMBER`] if it is larger; 0 if there are no
    /// digits.
    pub(crate) value: u64,
}

/// Reads the longest run of digits that begins at the index `from` of `piece`. The run may be
/// empty.
#[inline(always)]
pub(crate) fn number_from(piece: &[u8], from: usize) -> NumberRead
    requires { from ≤ length piece.now }
    ensures { AreDigits piece.now from result }
{
    let mut value = 0;
    'bytes: for at in from..piece.len() {
        let byte = piece[at];
        if !byte.is_ascii_digit() {
            return NumberRead { end: at, value };
        }
        value = with_digit(value, byte);
    }
    NumberRead {
        end: piece.len(),
        value,
    }
}

/// Appends a decimal digit to the number `value`. The result is [`MAX_NUMBER`] if it would be
/// larger.
///
/// `digit` is the ASCII byte of the digit.
#[inline]
pub(crate) fn with_digit(value: u64, digit: u8) -> u64
    requires { IsTrue (is_ascii_digit digit) }
    ensures { result ≡ with_digit value digit }
{
    let whole = value.min(MAX_NUMBER) * 10 + u64::from(digit - b'0');
    whole.min(MAX_NUMBER)
}
