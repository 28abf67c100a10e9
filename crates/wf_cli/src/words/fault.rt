//! Why a command line can't be followed.

ghost use Rattle.std.specs.Prelude.{◌≡◌};
ghost use Rattle.wf_cli.specs.declared.words.fault.WordsFault.TheVariants as fault;
ghost use Rattle.wf_cli.specs.declared.words.mistake.UsageError.TheVariants as mistake;

use crate::words::mistake::{ArgName, UsageError};
use std::alloc::AllocError;
use std::io;

/// The reason why the command-line arguments gave no job. A request for help or for the version is
/// one of them, since `clap` reports it as an error.
#[derive(Drop)]
pub enum WordsFault {
    /// `clap` refused the words, or they ask for help or for the version.
    Clap {
        /// The error of `clap`, whose text is to be printed.
        error: clap::Error,
        /// Whether one of the words looks like a negative number, which no option takes.
        negative: bool,
    },
    /// `clap` accepted the words but the program refuses what they ask for, or a word isn't UTF-8.
    Words(UsageError),
    /// Memory ran out.
    OutOfMemory,
}

impl From<AllocError> for WordsFault {
    ghost use Rattle.std.specs.Prelude.{◌≡◌};
    ghost use Rattle.wf_cli.specs.declared.words.fault.WordsFault.TheVariants.{OutOfMemory};

    ghost from_gives = { λ _ e. e ≡ OutOfMemory };

    fn from(_refused: AllocError) -> WordsFault {
        WordsFault::OutOfMemory
    }
}

impl From<io::Error> for WordsFault {
    ghost use Rattle.std.specs.IoError.{error_kind};
    ghost use Rattle.wf_cli.specs.Words.Arguments.{IsFaultOf};

    ghost from_gives = { λ x e. IsFaultOf (error_kind x) e };

    fn from(error: io::Error) -> WordsFault {
        match error.kind() {
            io::ErrorKind::OutOfMemory => WordsFault::OutOfMemory,
            _ => WordsFault::Words(UsageError::NotUtf8),
        }
    }
}

/// Returns the error for the required argument `what`, which is missing.
pub fn missing(what: ArgName) -> WordsFault
    ensures { result ≡ fault.Words (mistake.Missing what) }
{
    WordsFault::Words(UsageError::Missing(what))
}
