//! The command line of `wfcheck`: turns words into a [`Job`].
//!
//! [`read_words`] parses the words, and [`usage_of`] returns a hint for words that it refuses.
//! `specs/Asked.antt` defines which words ask for which job, and `specs/CommandLine.antt` the
//! options of each subcommand.
#![tactic(auto)]

ghost use Rattle.std.specs.Prelude.{◌≡◌, [], IfOk, IfErr, map, string_bytes};
ghost use Rattle.clap.specs.Words.{fault_of, subcommand_of, subcommand_rows_of};
ghost use Rattle.std.specs.List.{list_any};
ghost use Rattle.wf_cli.specs.Words.Asked.{Answers, IsRefusal, is_negative};
ghost use Rattle.wf_cli_args.specs.Asked.{job_asked};
ghost use Rattle.wf_cli_args.specs.CommandLine.{command_line};
ghost use Rattle.wf_cli_args.specs.Job.{CanBeDone};

mod asked;
mod command;
mod forms;
mod jobs;
mod limits;
mod presets;
mod usage;

use crate::command::whole_command;
use crate::jobs::job_in;
pub use asked::{Job, ProofJob, SolveJob, StdinJob, TaskFileJob, TextJob};
use clap::ArgMatches;
use std::alloc::Global;
pub use usage::usage_of;
use wf_cli::words::WordsFault;

/// Returns the job that `words` ask for. The first word is the program's own name.
///
/// # Errors
///
/// Returns `WordsFault::Clap` with the text to be printed if `clap` refuses the words or if they
/// ask for help or the version, `WordsFault::Words` if the options don't go together, and
/// `WordsFault::OutOfMemory`, never wrapped in a `clap` error, if memory runs out.
pub fn read_words(alloc: Global, words: &[String]) -> Result<Job, WordsFault>
    ensures answer { Answers (job_asked (map string_bytes words.now)) result }
    ensures can_be_done { IfOk result CanBeDone }
{
    match parse(alloc, words) {
        Ok(found) => job_in(alloc, &found),
        Err(fault) => Err(fault),
    }
}

/// Matches `words` against the command line.
fn parse<'a>(alloc: Global, words: &'a [String]) -> Result<ArgMatches<'a>, WordsFault>
    ensures ok { IfOk result (λ m. (fault_of command_line (map string_bytes words.entry.now) ≡ [])
        × (subcommand_rows_of m ≡ subcommand_of command_line (map string_bytes words.entry.now))) }
    ensures err { IfErr result (IsRefusal
        (fault_of command_line (map string_bytes words.entry.now))
        (list_any is_negative (map string_bytes words.entry.now))) }
{
    wf_cli::words::parse(whole_command(alloc)?, words)
}
