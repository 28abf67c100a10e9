//! The reasons for which a program refuses, with their texts and exit statuses.

ghost use Rattle.std.specs.Prelude.{◌≡◌};
ghost use Rattle.wf_cli.specs.Service.Refusals.{as_file_refusal, as_refusal, fault_status, refusal_status, refusal_text};

use crate::service::files::FileState;
use crate::service::notes::{NoteLine, file_note, note_of};
use crate::words::UsageError;
use clap::error::ErrorKind;
use std::fmt;
use wf_run::RunFault;

/// The name of a program, and the hints that it prints about words that it doesn't accept. Each
/// hint is a sentence without its full stop.
#[derive(Clone, Copy, Debug)]
pub struct Program {
    /// The name of the program.
    pub name: &'static str,
    /// The hint for an unknown or a missing word: how the program is called.
    pub usage: &'static str,
    /// The hint for a word that looks like a negative number, which no option takes.
    pub negative_number: &'static str,
}

/// The reason for which a program refuses.
#[derive(Drop)]
pub enum Refusal {
    /// A run that reads at most one text was refused, or memory ran out before a run began.
    Run(RunFault),
    /// A run that reads two texts was refused: the task in a file, and another text on standard
    /// input.
    RunWithFile {
        /// The reason of the refusal.
        fault: RunFault,
        /// What became of the file.
        file: FileState,
    },
    /// Refusal 32: `clap` accepted the words but the program refuses what they ask for, or a word
    /// isn't UTF-8.
    Words(UsageError),
    /// `clap` refused the words.
    Clap {
        /// The error of `clap`, whose text is printed.
        error: clap::Error,
        /// Whether one of the words looks like a negative number.
        negative: bool,
        /// The program whose command line refused the words.
        program: Program,
    },
}

/// A refusal with the name of the program that reports it. Its `Display` text is what standard
/// error gets, and ends in a line feed.
#[derive(Drop)]
pub(crate) struct RefusalText {
    pub(crate) program: &'static str,
    pub(crate) refusal: Refusal,
}

impl fmt::Display for RefusalText {
    ghost output = { λ told. refusal_text told.program.now told.refusal };

    fn fmt<W: fmt::Write>(&self, f: &mut fmt::Formatter<W>) -> fmt::Result {
        let name = self.program;
        match &self.refusal {
            Refusal::Run(fault) => {
                let note = NoteLine(note_of(fault));
                write!(f, "{name}: {fault}\n{note}")
            }
            Refusal::RunWithFile { fault, file } => {
                let about = NoteLine(file_note(fault, *file));
                let note = NoteLine(note_of(fault));
                write!(f, "{name}: {fault}\n{about}{note}")
            }
            Refusal::Words(mistake) => writeln!(f, "{name}: 32 Words\nerror: {mistake}"),
            Refusal::Clap {
                error,
                negative,
                program,
            } => {
                write!(f, "{error}")?;
                match (error.kind(), *negative) {
                    (ErrorKind::UnknownArgument, true) => {
                        writeln!(f, "\n  note: {}", program.negative_number)
                    }
                    (
                        ErrorKind::UnknownArgument
                        | ErrorKind::InvalidSubcommand
                        | ErrorKind::MissingRequiredArgument,
                        _,
                    ) => writeln!(f, "\n  note: {}", program.usage),
                    _ => Ok(()),
                }
            }
        }
    }
}

impl Refusal {
    /// Returns the exit status of the program: 2 if an input or the words are refused, 3 if memory
    /// ran out, and 4 if a read or a write failed.
    pub fn status(&self) -> u8
        ensures { result ≡ refusal_status self.now }
    {
        match self {
            Refusal::Run(fault) => status_of(fault),
            Refusal::RunWithFile { fault, .. } => status_of(fault),
            Refusal::Words(_) | Refusal::Clap { .. } => 2,
        }
    }
}

/// Wraps the fault of a run that reads at most one text in a [`Refusal`].
pub(crate) fn as_refusal(found: Result<(), RunFault>) -> Result<(), Refusal>
    ensures { result ≡ as_refusal found }
{
    match found {
        Ok(()) => Ok(()),
        Err(fault) => Err(Refusal::Run(fault)),
    }
}

/// Wraps the fault of a run that reads two texts in a [`Refusal`]. `file` is what became of the
/// task's file.
///
/// # Errors
///
/// Returns the wrapped fault if `found` is an error.
pub fn as_file_refusal(found: Result<(), RunFault>, file: FileState) -> Result<(), Refusal>
    ensures { result ≡ as_file_refusal file found }
{
    match found {
        Ok(()) => Ok(()),
        Err(fault) => Err(Refusal::RunWithFile { fault, file }),
    }
}

/// Returns the exit status for `fault`.
fn status_of(fault: &RunFault) -> u8
    ensures { result ≡ fault_status fault.now }
{
    match fault {
        RunFault::TooLong
        | RunFault::Task(_)
        | RunFault::Build(_)
        | RunFault::Cert(_)
        | RunFault::Model(_)
        | RunFault::Proof(_)
        | RunFault::Hints(_)
        | RunFault::Obstruction(_)
        | RunFault::OtherRounds
        | RunFault::NoMap
        | RunFault::NoBranch { .. }
        | RunFault::OtherPart
        | RunFault::NotInBranch
        | RunFault::NoPart { .. }
        | RunFault::InPart { .. }
        | RunFault::TooManyParts { .. } => 2,
        RunFault::OutOfMemory => 3,
        RunFault::Read | RunFault::Write => 4,
    }
}
