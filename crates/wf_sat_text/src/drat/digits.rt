//! Decimal digits in a piece of text.

ghost use Rattle.std.specs.Prelude.{◌≡◌, ◌≤◌, IsTrue, length};
ghost use Rattle.std.specs.Char.{is_ascii_digit};
ghost use Rattle.wf_sat_text.specs.Drat.Moves.{AreDigits};
ghost use Rattle.wf_sat_text.specs.Drat.Text.{with_digit};

/// A run of decimal digits in a piece of text.
#[derive(Clone, Copy)]
pub(crate) struct Digits {
    /// The index of the first byte after the digits, or the length of the piece.
    pub(crate) end: usize,
    /// The number that the digits spell, or `u32::MAX` if it is larger; 0 if there are no digits.
    pub(crate) value: u32,
}

/// Reads the longest run of digits that begins at the index `from` of `piece`. The run may be
/// empty.
#[inline]
pub(crate) fn digits_from(piece: &[u8], from: usize) -> Digits
    requires { from ≤ length piece.now }
    ensures { AreDigits piece.now from result }
{
    let mut value = 0;
    'bytes: for at in from..piece.len() {
        let byte = piece[at];
        if !byte.is_ascii_digit() {
            return Digits { end: at, value };
        }
        value = with_digit(value, byte);
    }
    Digits {
        end: piece.len(),
        value,
    }
}

/// Appends a decimal digit to the number `value`. The result is `u32::MAX` if it would be larger.
///
/// `digit` is the ASCII byte of the digit.
#[inline]
pub(crate) fn with_digit(value: u32, digit: u8) -> u32
    requires { IsTrue (is_ascii_digit digit) }
    ensures { result ≡ with_digit value digit }
{
    let whole = u64::from(value) * 10 + u64::from(digit - b'0');
    whole.min(u64::from(u32::MAX)) as u32
}
