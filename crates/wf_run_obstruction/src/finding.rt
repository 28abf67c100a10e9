//! The result of a search for an obstruction, and its texts.

ghost use Rattle.std.specs.Prelude.{◌≡◌, Some};
ghost use Rattle.wf_run_obstruction.specs.Finding.{gave_up_text, limit_text, steps_text, tried_text};

use std::fmt;

/// The result of a search for an obstruction.
#[derive(Clone, Copy, Debug, PartialEq, Eq)]
pub enum Finding {
    /// An obstruction was found; its text was written.
    Found,
    /// No obstruction was found among those that were tried. The task may have one nevertheless.
    NotFound(Tried),
    /// The search stopped at a limit. This says nothing about the task.
    GaveUp(GaveUp),
}

/// The obstructions that were tried without success. Its `Display` text is the line that `wfcheck
/// obstruction` prints.
#[derive(Clone, Copy, Debug, PartialEq, Eq)]
pub enum Tried {
    /// Obstructions whose balances have this modulus.
    Only {
        /// The modulus.
        modulus: u32,
        /// Whether covers were tried too.
        covers: bool,
    },
    /// Obstructions whose balances have one of [`MODULI`](crate::MODULI) as their modulus.
    Each {
        /// Whether covers were tried too.
        covers: bool,
    },
    /// Obstructions of every modulus, without covers. A task that splits and cases led to, and
    /// could not take further apart, has an integer solution of its equations, so no modulus has a
    /// balance of it.
    AllNumbers,
}

/// The point at which a search for an obstruction stopped before its end. Its `Display` text begins
/// with the number of the refusal, 60.
#[derive(Clone, Copy, Debug, PartialEq, Eq)]
pub struct GaveUp {
    /// The modulus of the system of equations in which the search stopped; `None` if it stopped
    /// elsewhere.
    pub modulus: Option<u32>,
    /// The limit.
    pub limit: SearchLimit,
}

/// The limits of a search for an obstruction. Each number is the count at which the search stopped.
#[derive(Clone, Copy, Debug, PartialEq, Eq)]
pub enum SearchLimit {
    /// A system of equations has at least this number of unknowns, which is too many.
    Unknowns(u64),
    /// A system of equations has at least this number of equations, which is too many.
    Equations(u64),
    /// A system of equations needs at least this number of stored entries, which is too many.
    Entries(u64),
    /// A system of equations needs at least this number of steps, which is too many.
    Steps(u64),
    /// The tree needs more than this number of nodes.
    Nodes(u64),
    /// The tree needs more than this number of nodes with subtrees on one path.
    Levels(u64),
    /// This number of covers was tried, and the next one would make too many tuples.
    Covers(u64),
    /// The text of the obstruction that was found is longer than `verify` reads.
    Length,
    /// The finder met an inconsistency, or what it found was refused by the check. This is not
    /// known to happen for any task, and not proved never to happen.
    Internal,
}

impl fmt::Display for Tried {
    ghost output = { λ tried. Some (tried_text tried) };

    fn fmt<W: fmt::Write>(&self, f: &mut fmt::Formatter<W>) -> fmt::Result {
        match *self {
            Tried::Only { modulus, covers } => {
                write!(f, "no obstruction by {} modulo {modulus}", steps(covers))
            }
            Tried::Each { covers } => write!(
                f,
                "no obstruction by {} modulo 2, 3, 4, 5, 7, 8, 9, 2147483647",
                steps(covers)
            ),
            Tried::AllNumbers => { write!(f, "no obstruction by {} of any modulus", steps(false)) }
        }
    }
}

/// Returns the words for the kinds of nodes that were tried, with or without covers.
fn steps(covers: bool) -> &'static str
    ensures { result.now ≡ steps_text covers }
{
    if covers {
        "covers, splits, cases and balances"
    } else {
        "splits, cases and balances"
    }
}

impl fmt::Display for GaveUp {
    ghost output = { λ gave_up. Some (gave_up_text gave_up) };

    fn fmt<W: fmt::Write>(&self, f: &mut fmt::Formatter<W>) -> fmt::Result {
        match self.modulus {
            Some(modulus) => write!(f, "60 GaveUp modulo {modulus}: {}", self.limit),
            None => write!(f, "60 GaveUp: {}", self.limit),
        }
    }
}

impl fmt::Display for SearchLimit {
    ghost output = { λ limit. Some (limit_text limit) };

    fn fmt<W: fmt::Write>(&self, f: &mut fmt::Formatter<W>) -> fmt::Result {
        match *self {
            SearchLimit::Unknowns(count) => write!(f, "{count} unknowns"),
            SearchLimit::Equations(count) => write!(f, "{count} equations"),
            SearchLimit::Entries(count) => write!(f, "{count} entries"),
            SearchLimit::Steps(count) => write!(f, "{count} steps"),
            SearchLimit::Nodes(count) => write!(f, "{count} nodes"),
            SearchLimit::Levels(count) => write!(f, "{count} levels"),
            SearchLimit::Covers(count) => write!(f, "{count} covers"),
            SearchLimit::Length => write!(f, "a longer text than verify reads"),
            SearchLimit::Internal => write!(f, "an internal error"),
        }
    }
}
