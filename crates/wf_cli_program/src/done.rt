//! The ends of runs that were not refused.

ghost use Rattle.std.specs.Prelude.{◌≡◌, Some};
ghost use Rattle.wf_cli_program.specs.AccountText.{account_line};
ghost use Rattle.wf_cli_program.specs.Program.{finished, note_line, outcome_status, searched, solved, sought, written};

use std::fmt;
use wf_cli::service::Refusal;
use wf_core::Account;
use wf_run::RunFault;
use wf_run_obstruction::{Finding, GaveUp, Tried};
use wf_run_solve::Outcome;

/// The end of a run that was not refused: its exit status, and a note for the error stream if there
/// is one.
#[derive(Clone, Copy, Debug)]
pub(crate) struct Done {
    pub(crate) status: u8,
    pub(crate) note: Option<Note>,
}

/// A note that the error stream gets after a run that was not refused.
#[derive(Clone, Copy, Debug)]
pub(crate) enum Note {
    /// The account of a search: how many branches were searched, and how many were cut.
    Account(Account),
    /// No obstruction was found with what was tried.
    NoObstruction(Tried),
    /// Refusal 60: the search for an obstruction stopped at a limit.
    GaveUp(GaveUp),
}

impl fmt::Display for Note {
    ghost output = { λ note. Some (note_line note) };

    fn fmt<W: fmt::Write>(&self, f: &mut fmt::Formatter<W>) -> fmt::Result {
        match *self {
            Note::Account(account) => write!(f, "{}", AccountLine(account)),
            Note::NoObstruction(tried) => writeln!(f, "{tried}"),
            Note::GaveUp(gave_up) => writeln!(f, "wfcheck: {gave_up}"),
        }
    }
}

/// The line that prints an account.
#[derive(Clone, Copy, Debug)]
struct AccountLine(Account);

impl fmt::Display for AccountLine {
    ghost output = { λ line. Some (account_line line.0) };

    fn fmt<W: fmt::Write>(&self, f: &mut fmt::Formatter<W>) -> fmt::Result {
        let Account {
            branches,
            searched,
            cut,
            ..
        } = self.0;
        writeln!(
            f,
            "account branches {branches} searched {searched} cut {cut}"
        )
    }
}

/// Returns the end of a search whose account is printed.
pub(crate) fn after_solving(found: Result<(Outcome, Account), RunFault>) -> Result<Done, Refusal>
    ensures { result ≡ solved found }
{
    match found {
        Ok((outcome, account)) => Ok(Done {
            status: status_of(outcome),
            note: Some(Note::Account(account)),
        }),
        Err(fault) => Err(Refusal::Run(fault)),
    }
}

/// Returns the end of a search without an account.
pub(crate) fn after_searching(found: Result<Outcome, RunFault>) -> Result<Done, Refusal>
    ensures { result ≡ searched found }
{
    match found {
        Ok(outcome) => Ok(Done {
            status: status_of(outcome),
            note: None,
        }),
        Err(fault) => Err(Refusal::Run(fault)),
    }
}

/// Returns the exit status of a search: 0 for a map, and 1 if there is none.
fn status_of(outcome: Outcome) -> u8
    ensures { result ≡ outcome_status outcome }
{
    match outcome {
        Outcome::Map => 0,
        Outcome::Nothing => 1,
    }
}

/// Returns the end of a run that only writes a text.
pub(crate) fn after_writing(found: Result<(), RunFault>) -> Result<Done, Refusal>
    ensures { result ≡ written found }
{
    match found {
        Ok(()) => Ok(Done {
            status: 0,
            note: None,
        }),
        Err(fault) => Err(Refusal::Run(fault)),
    }
}

/// Returns the end of a job that has no result of its own.
pub(crate) fn after_doing(found: Result<(), Refusal>) -> Result<Done, Refusal>
    ensures { result ≡ finished found }
{
    match found {
        Ok(()) => Ok(Done {
            status: 0,
            note: None,
        }),
        Err(refusal) => Err(refusal),
    }
}

/// Returns the end of a search for an obstruction. The exit status is 0 if one was found, 1 if none
/// was, and 2 if the search gave up.
pub(crate) fn after_seeking(found: Result<Finding, RunFault>) -> Result<Done, Refusal>
    ensures { result ≡ sought found }
{
    match found {
        Ok(Finding::Found) => Ok(Done {
            status: 0,
            note: None,
        }),
        Ok(Finding::NotFound(tried)) => Ok(Done {
            status: 1,
            note: Some(Note::NoObstruction(tried)),
        }),
        Ok(Finding::GaveUp(gave_up)) => Ok(Done {
            status: 2,
            note: Some(Note::GaveUp(gave_up)),
        }),
        Err(fault) => Err(Refusal::Run(fault)),
    }
}
