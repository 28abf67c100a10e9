//! Reads options and flags from words that `clap` accepted.

ghost use Rattle.std.specs.Prelude.{◌≡◌, option_map};
ghost use Rattle.clap.specs.Words.{first_of, found_of, rows_of};
ghost use Rattle.wf_cli.specs.Words.Given.{has_flag, number_of};

use clap::ArgMatches;

/// Returns the number that the option `name` has, or `None` if the option isn't given.
pub fn number(found: &ArgMatches<'_>, name: &str) -> Option<u32>
    ensures { result ≡ number_of name.now (rows_of (found_of found.now)) }
{
    found.get_one::<u32>(name)
}

/// Returns the text that the option `name` has, or `None` if the option isn't given.
pub fn text<'a>(found: &ArgMatches<'a>, name: &str) -> Option<&'a str>
    ensures { option_map (λ s. s.now) result ≡ first_of name.now (rows_of (found_of found.now)) }
{
    found.get_str(name)
}

/// Returns whether the flag `name` is given.
pub fn flag(found: &ArgMatches<'_>, name: &str) -> bool
    ensures { result ≡ has_flag name.now (rows_of (found_of found.now)) }
{
    match text(found, name) {
        Some(value) => value == "true",
        None => false,
    }
}
