//! Splitting text at a byte, and reading decimal numbers.

ghost use Rattle.std.specs.Prelude.{◌≡◌, ◌<◌, ◌++◌, ◌∷◌, true, MatchOption};
ghost use Rattle.wf_model.specs.Report.{number_upto};
ghost use Rattle.wf_report.specs.Numbers.{digits_upto, is_misspelt};
ghost use Rattle.wf_report.specs.Reading.{lacks};

/// Splits `text` at the first occurrence of `byte`, and returns the parts before and after it, like
/// [`str::split_once`]. Returns `None` if `text` does not contain `byte`.
pub fn split_once(text: &[u8], byte: u8) -> Option<(&[u8], &[u8])>
    ensures cases { MatchOption result (lacks byte text.now ≡ true) (λ parts.
        (text.now ≡ parts.0.now ++ byte ∷ parts.1.now) × (lacks byte parts.0.now ≡ true)) }
{
    for (place, found) in text.iter().enumerate() {
        if *found == byte {
            return Some((&text[..place], &text[place + 1..]));
        }
    }
    None
}

/// Parses `word` as a decimal number of at most `most`.
///
/// Returns `None` if the number is larger, the word is empty, or it has a sign or a leading zero.
pub fn number(word: &[u8], most: u32) -> Option<u32>
    ensures { result ≡ number_upto most word.now }
{
    if is_empty_or_zero_led(word) {
        return None;
    }
    digits(word, most)
}

/// Parses the decimal digits of `word` as a number of at most `most`. Leading zeros are allowed,
/// and an empty word is 0. Returns `None` for a byte that is no digit, and for a larger number.
fn digits(word: &[u8], most: u32) -> Option<u32>
    ensures { result ≡ digits_upto most 0 word.now }
{
    let mut number: u64 = 0;
    for byte in word {
        if !byte.is_ascii_digit() {
            return None;
        }
        number = 10 * number + u64::from(*byte - b'0');
        if number > u64::from(most) {
            return None;
        }
    }
    Some(number as u32)
}

/// Returns whether `word` is empty, or has a leading zero before another byte.
fn is_empty_or_zero_led(word: &[u8]) -> bool
    ensures { result ≡ is_misspelt word.now }
{
    word.is_empty() || (word[0] == b'0' && word.len() > 1)
}
