//! Computes transitions of the LRAT parser from the current token alone, or for [`after_id`] from
//! the token and the number of literals read.

ghost use Rattle.std.specs.Prelude.{◌≡◌, IsTrue};
ghost use Rattle.std.specs.Char.{is_ascii_digit};
ghost use Rattle.wf_sat_text.specs.Drat.Text.{is_blank, is_of_text};
ghost use Rattle.wf_sat_text.specs.Lrat.Text.{comment_transition, digit_transition, deletion_transition, hint_transition, id_transition, after_id, between_steps, sign_transition, parse_error};

use crate::lrat::numbers::with_digit;
use crate::lrat::reader::{Hint, LratParseError, LratToken, LratTransition};

/// Returns the transition for a number at the beginning of a step, which is the id of the step.
#[inline(always)]
pub(crate) fn id_transition(is_negative: bool, value: u64) -> LratTransition
    ensures { result ≡ id_transition is_negative value }
{
    if is_negative {
        LratTransition::Stops {
            flaw: LratParseError::NotALiteral,
        }
    } else {
        LratTransition::Begins { id: value }
    }
}

/// Returns the transition for a number among hints: a hint, or the 0 that ends the step.
#[inline(always)]
pub(crate) fn hint_transition(is_negative: bool, value: u64) -> LratTransition
    ensures { result ≡ hint_transition is_negative value }
{
    if value == 0 {
        if is_negative {
            LratTransition::Stops {
                flaw: LratParseError::NotALiteral,
            }
        } else {
            LratTransition::Ends
        }
    } else {
        LratTransition::Names {
            hint: Hint {
                id: value,
                is_negative,
            },
        }
    }
}

/// Returns the transition for a number in a deletion: the id of a clause, or the 0 that ends the
/// step.
#[inline(always)]
pub(crate) fn deletion_transition(is_negative: bool, value: u64) -> LratTransition
    ensures { result ≡ deletion_transition is_negative value }
{
    if is_negative {
        LratTransition::Stops {
            flaw: LratParseError::NotALiteral,
        }
    } else if value == 0 {
        LratTransition::Ends
    } else {
        LratTransition::Deletes { id: value }
    }
}

/// Returns the transition for a byte within a comment. A line feed ends the comment.
pub(crate) fn comment_transition(byte: u8) -> LratTransition
    ensures { result ≡ comment_transition byte }
{
    if byte == b'\n' {
        LratTransition::GoesOn {
            reading: LratToken::Blank,
        }
    } else {
        LratTransition::GoesOn {
            reading: LratToken::Comment,
        }
    }
}

/// Returns the transition for a byte after a minus sign, which has to be a digit.
pub(crate) fn sign_transition(byte: u8) -> LratTransition
    ensures { result ≡ sign_transition byte }
{
    if byte.is_ascii_digit() {
        digit_transition(true, 0, byte)
    } else {
        parse_error(byte)
    }
}

/// Returns the transition for a byte that is between two steps and is neither white space, a minus
/// sign nor a digit. It may begin a comment.
pub(crate) fn between_steps(byte: u8) -> LratTransition
    ensures { result ≡ between_steps byte }
{
    match byte {
        // a comment; `%` is how PicoSAT begins the first line of a proof
        b'c' | b'%' => LratTransition::GoesOn {
            reading: LratToken::Comment,
        },
        // the byte that marks a clause in the binary form
        b'a' => LratTransition::Stops {
            flaw: LratParseError::Binary,
        },
        _ => parse_error(byte),
    }
}

/// Returns the transition for a byte that begins no number, after the id of a step and `literals`
/// literals. A `d` directly after the id makes the step a deletion; all else is an error.
pub(crate) fn after_id(literals: usize, byte: u8) -> LratTransition
    ensures { result ≡ after_id literals byte }
{
    if literals == 0 && byte == b'd' {
        LratTransition::BeginsDeletion
    } else {
        parse_error(byte)
    }
}

/// Returns the transition for a byte that no number can have: an error, which names the binary form
/// if the byte can't occur in a text.
pub(crate) fn parse_error(byte: u8) -> LratTransition
    ensures { result ≡ parse_error byte }
{
    let flaw = if is_of_text(byte) {
        LratParseError::NotALiteral
    } else {
        LratParseError::Binary
    };
    LratTransition::Stops { flaw }
}

/// Returns the transition for one more digit of a number whose digits so far spell `value`.
#[inline]
pub(crate) fn digit_transition(is_negative: bool, value: u64, digit: u8) -> LratTransition
    requires { IsTrue (is_ascii_digit digit) }
    ensures { result ≡ digit_transition is_negative value digit }
{
    let value = with_digit(value, digit);
    LratTransition::GoesOn {
        reading: LratToken::Number { is_negative, value },
    }
}

/// Returns whether `byte` is a space, a tab, a carriage return or a line feed.
#[inline(always)]
pub(crate) fn is_blank(byte: u8) -> bool
    ensures { result ≡ is_blank byte }
{
    byte == b' ' || byte == b'\t' || byte == b'\r' || byte == b'\n'
}

/// Returns whether `byte` may occur in a text proof: printable ASCII or white space, but no other
/// control character and no byte from 0x7F on.
fn is_of_text(byte: u8) -> bool
    ensures { result ≡ is_of_text byte }
{
    is_blank(byte) || (b' ' <= byte && byte <= b'~')
}
