//! The command line of the checker, as it is parsed and as its help shows it.

ghost use Rattle.std.specs.Prelude.{◌≡◌, IfOk};
ghost use Rattle.clap.specs.Words.{app_of};
ghost use Rattle.wfverify.specs.Checker.CommandLine.{command_line};

use clap::Command;
use std::alloc::{AllocError, Global};
use wf_cli::words::VERSION;
use wf_cli::words::options::{flag, optional, task, with_arg};

/// The end of the help: what a certificate is, what the exit statuses mean, and an example.
const ANSWERS: &str =
    "Standard input has the certificate: a report or an obstruction, as wfcheck writes them. With --proof or --lrat it is a\nclausal proof as text that the question has no model, which wfcheck cnf writes for these rounds.\nStatus 0: accepted, and standard output says what is. Status 2: refused. 3: out of memory. 4: a failed read or write.\nExample: wfverify --task examples/path-3.json < map.txt";

/// Creates the command line of the checker.
pub(crate) fn whole_command<'a>(alloc: Global) -> Result<Command<'a>, AllocError>
    ensures { IfOk result (λ c. app_of c ≡ command_line) }
{
    let command = Command::new(alloc, "wfverify")
        .about("Check a report, an obstruction or a clausal proof about a task, without a search")
        .version(VERSION)
        .after_help(ANSWERS)
        .arg(task(alloc));
    let command = with_arg(
        command,
        optional(
            alloc,
            "rounds",
            "Accept a report only if it is about this many rounds; a proof needs the number",
        ),
    );
    let command = with_arg(
        command,
        flag(
            alloc,
            "proof",
            "The certificate is a clausal proof (DRAT), as solvers write it with --no-binary",
        ),
    );
    let command = with_arg(
        command,
        flag(
            alloc,
            "lrat",
            "The certificate is a clausal proof with hints (LRAT), as text; not with --proof",
        ),
    );
    with_arg(
        command,
        flag(
            alloc,
            "long",
            "A report may have 2^62 bytes, in place of 16,777,216",
        ),
    )
}
