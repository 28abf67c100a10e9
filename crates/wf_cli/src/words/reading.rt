//! Matches words against a command line.

ghost use Rattle.std.specs.Prelude.{◌≡◌, IfErr, IfOk, map, string_bytes, true};
ghost use Rattle.std.specs.List.{list_any};
ghost use Rattle.clap.specs.Words.{app_of, fault_of, is_simple_and_free};
ghost use Rattle.wf_cli.specs.Words.Asked.{IsRefusal, IsTaken, is_negative};

use crate::words::fault::WordsFault;
use clap::error::ErrorKind;
use clap::{ArgMatches, Command};

/// Matches the command-line arguments `words` against `command`. The first argument is the
/// program's own name.
///
/// # Errors
///
/// Returns `WordsFault::Clap` with the text to be printed if `clap` refuses the arguments or if
/// they ask for help or the version, and `WordsFault::OutOfMemory`, never wrapped in a `clap`
/// error, if memory runs out.
pub fn parse<'a>(command: Command<'a>, words: &'a [String]) -> Result<ArgMatches<'a>, WordsFault>
    requires simple { is_simple_and_free (app_of command) ≡ true }
    ensures ok { IfOk result
        (IsTaken (app_of command.entry) (map string_bytes words.entry.now)) }
    ensures err { IfErr result (IsRefusal
        (fault_of (app_of command.entry) (map string_bytes words.entry.now))
        (list_any is_negative (map string_bytes words.entry.now))) }
{
    match command.try_get_matches_from(words) {
        Ok(found) => Ok(found),
        Err(error) => match error.kind() {
            ErrorKind::OutOfMemory => Err(WordsFault::OutOfMemory),
            _ => Err(WordsFault::Clap {
                error,
                negative: has_negative(words),
            }),
        },
    }
}

/// Returns whether one of `words` looks like a negative number.
fn has_negative(words: &[String]) -> bool
    ensures { result ≡ list_any (λ word. is_negative (string_bytes word)) words.now }
{
    words.iter().any(|word| is_negative(word))
}

/// Returns whether `word` begins with a minus sign and a digit.
fn is_negative(word: &str) -> bool
    ensures { result ≡ is_negative word.now }
{
    match word.as_bytes() {
        [sign, digit, ..] => *sign == b'-' && b'0' <= *digit && *digit <= b'9',
        _ => false,
    }
}
