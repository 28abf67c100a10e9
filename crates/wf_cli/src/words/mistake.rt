//! Mistakes in the words of a command line that `clap` doesn't find.

ghost use Rattle.std.specs.Prelude.{Some};
ghost use Rattle.wf_cli.specs.Words.Mistakes.{piece_text, mistake_text};

use std::fmt;

/// The largest number of workers that may share a search. `wf_pool`, which starts the workers, has
/// a constant of the same value; the contracts of both crates tie them to one definition.
pub const MAX_WORKERS: u32 = 64;

/// A part of the command line that a [`UsageError`] names: a subcommand, an option or a value. Its
/// `Display` text is what the user types, or the placeholder that the help shows.
#[derive(Clone, Copy, Debug, PartialEq, Eq)]
pub enum ArgName {
    /// The subcommand, the first word after the program's name.
    Command,
    /// The option `--rounds`.
    Rounds,
    /// The option `--workers`.
    Workers,
    /// The option `--task`.
    Task,
    /// The option `--verdict`.
    Verdict,
    /// The option `--least`.
    Least,
    /// The option `--account`.
    Account,
    /// The option `--branch`.
    Branch,
    /// The option `--long`.
    Long,
    /// The option `--proof`.
    Proof,
    /// The option `--lrat`.
    Lrat,
    /// The kind of task that `preset` writes.
    Kind,
    /// The option `--processes`.
    Processes,
    /// The option `--k`.
    K,
    /// The option `--values`.
    Values,
    /// The option `--names`.
    Names,
    /// The kind `set-agreement` of `preset`.
    SetAgreement,
    /// The kind `renaming` of `preset`.
    Renaming,
}

impl fmt::Display for ArgName {
    ghost output = { λ piece. Some (piece_text piece) };

    fn fmt<W: fmt::Write>(&self, f: &mut fmt::Formatter<W>) -> fmt::Result {
        let text = match self {
            ArgName::Command => "COMMAND",
            ArgName::Rounds => "--rounds",
            ArgName::Workers => "--workers",
            ArgName::Task => "--task",
            ArgName::Verdict => "--verdict",
            ArgName::Least => "--least",
            ArgName::Account => "--account",
            ArgName::Branch => "--branch",
            ArgName::Long => "--long",
            ArgName::Proof => "--proof",
            ArgName::Lrat => "--lrat",
            ArgName::Kind => "KIND",
            ArgName::Processes => "--processes",
            ArgName::K => "--k",
            ArgName::Values => "--values",
            ArgName::Names => "--names",
            ArgName::SetAgreement => "set-agreement",
            ArgName::Renaming => "renaming",
        };
        f.write_str(text)
    }
}

/// The reason why arguments are refused that `clap` accepts, or why the arguments could not be
/// read. Its `Display` text names the arguments in question.
#[derive(Clone, Copy, Debug, PartialEq, Eq)]
pub enum UsageError {
    /// A word isn't UTF-8, or the words could not be read.
    NotUtf8,
    /// The named argument is required but missing.
    Missing(ArgName),
    /// The first argument needs the second, which is missing.
    Needs(ArgName, ArgName),
    /// One of both arguments is required, and neither is given.
    Neither(ArgName, ArgName),
    /// The first argument can't be used together with the second.
    Conflict(ArgName, ArgName),
    /// The kind of preset is neither `set-agreement` nor `renaming`.
    UnknownKind,
    /// The number of workers is missing, or it is not from 1 to [`MAX_WORKERS`].
    Workers,
}

impl fmt::Display for UsageError {
    ghost output = { λ mistake. Some (mistake_text mistake) };

    fn fmt<W: fmt::Write>(&self, f: &mut fmt::Formatter<W>) -> fmt::Result {
        match self {
            UsageError::NotUtf8 => write!(f, "one of the words is no UTF-8 text"),
            UsageError::Missing(what) => write!(f, "the argument '{what}' is missing"),
            UsageError::Needs(who, what) => write!(f, "'{who}' needs the argument '{what}'"),
            UsageError::Neither(one, other) => {
                write!(f, "one of the arguments '{one}' and '{other}' is needed")
            }
            UsageError::Conflict(one, other) => {
                write!(f, "the argument '{one}' cannot be used with '{other}'")
            }
            UsageError::UnknownKind => write!(f, "a preset is 'set-agreement' or 'renaming'"),
            UsageError::Workers => write!(f, "'--workers' takes a number from 1 to {MAX_WORKERS}"),
        }
    }
}
