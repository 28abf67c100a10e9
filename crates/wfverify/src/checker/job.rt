//! The job that a command line asks for.

ghost use Rattle.std.specs.Prelude.{◌≡◌, map, string_bytes};
ghost use Rattle.clap.specs.Words.{found_of, rows_of};
ghost use Rattle.wf_cli.specs.Words.Asked.{Answers};
ghost use Rattle.wfverify.specs.Checker.Asked.{check_asked, job_asked, check_in};

use crate::checker::command::whole_command;
use clap::ArgMatches;
use std::alloc::Global;
use wf_cli::words::found::{flag, number, text};
use wf_cli::words::{ArgName, UsageError, WordsFault, missing, parse};

/// A kind of certificate, with the options of its check.
#[derive(Clone, Copy, Debug, PartialEq, Eq)]
pub enum Check {
    /// A report or an obstruction.
    Certificate {
        /// The number of rounds that a report has to be about. With `None` any number is accepted.
        rounds: Option<u32>,
        /// Whether a report may have up to 2^62 bytes, instead of 16,777,216.
        long: bool,
    },
    /// A solver's clausal proof (DRAT) that the task has no decision map after the given number of
    /// rounds.
    Proof(u32),
    /// A solver's clausal proof with hints (LRAT) that the task has no decision map after the given
    /// number of rounds.
    HintedProof(u32),
}

/// The job of the checker: a check of the certificate on standard input about the task in a file.
#[derive(Debug, Drop)]
pub struct CheckJob {
    /// The path of the file with the task.
    pub task: String,
    /// The kind of certificate, with the options of its check.
    pub check: Check,
}

/// Parses the command-line arguments `words` into a job. The first of them is the program's own
/// name.
///
/// # Errors
///
/// Returns `WordsFault::Clap` with the text to be printed if `clap` refuses the arguments or if
/// they ask for help or the version, `WordsFault::Words` if an option is missing or options exclude
/// each other, and `WordsFault::OutOfMemory`, never wrapped in a `clap` error, if memory runs out.
pub fn read_words(alloc: Global, words: &[String]) -> Result<CheckJob, WordsFault>
    ensures { Answers (job_asked (map string_bytes words.now)) result }
{
    match parse(whole_command(alloc)?, words) {
        Ok(found) => job_in(alloc, &found),
        Err(fault) => Err(fault),
    }
}

/// Returns the job for the options in `found`, which `clap` accepted.
fn job_in(alloc: Global, found: &ArgMatches<'_>) -> Result<CheckJob, WordsFault>
    ensures { Answers (check_asked (rows_of (found_of found.now))) result }
{
    let Some(task) = text(found, "task") else {
        return Err(missing(ArgName::Task));
    };
    match check_in(found) {
        Ok(check) => Ok(CheckJob {
            task: String::from_str(alloc, task)?,
            check,
        }),
        Err(mistake) => Err(WordsFault::Words(mistake)),
    }
}

/// Returns the check for the options in `found`. `--proof` and `--lrat` exclude each other and need
/// `--rounds`; `--long` goes with neither.
fn check_in(found: &ArgMatches<'_>) -> Result<Check, UsageError>
    ensures { result ≡ check_in (rows_of (found_of found.now)) }
{
    let rounds = number(found, "rounds");
    match (
        flag(found, "proof"),
        flag(found, "lrat"),
        flag(found, "long"),
    ) {
        (false, false, long) => Ok(Check::Certificate { rounds, long }),
        (true, false, false) => match rounds {
            Some(rounds) => Ok(Check::Proof(rounds)),
            None => Err(UsageError::Needs(ArgName::Proof, ArgName::Rounds)),
        },
        (false, true, false) => match rounds {
            Some(rounds) => Ok(Check::HintedProof(rounds)),
            None => Err(UsageError::Needs(ArgName::Lrat, ArgName::Rounds)),
        },
        (true, true, _) => Err(UsageError::Conflict(ArgName::Proof, ArgName::Lrat)),
        (true, false, true) => Err(UsageError::Conflict(ArgName::Long, ArgName::Proof)),
        (false, true, true) => Err(UsageError::Conflict(ArgName::Long, ArgName::Lrat)),
    }
}
