//! The errors of the finder, and its limits.

ghost use Rattle.std.specs.Prelude.{◌≡◌, ◌<◌, ◌≤◌, MatchResult};
ghost use Rattle.wf_tree_finder.specs.declared.fault.FinderFault.TheVariants.{OutOfMemory, TooManyEquations};

use std::alloc::{AllocError, AllocFailed};
use wf_tree_elimination::EliminationFault;

/// The largest number of equations of a system.
pub const MAX_EQUATIONS: u64 = 4_000_000;

/// The reasons for which the finder gives up. They say nothing about whether the task has a
/// balance.
#[derive(Clone, Copy, Debug, PartialEq, Eq)]
pub enum FinderFault {
    /// The system has more than [`MAX_UNKNOWNS`](crate::MAX_UNKNOWNS) unknowns.
    TooManyUnknowns {
        /// The number of unknowns when the finder gave up.
        count: u64,
    },
    /// The system has more than [`MAX_EQUATIONS`] equations.
    TooManyEquations {
        /// The number of equations when the finder gave up.
        count: u64,
    },
    /// The system needs more than [`MAX_ENTRIES`](crate::MAX_ENTRIES) stored entries.
    TooManyEntries {
        /// The number of entries when the finder gave up.
        count: u64,
    },
    /// The system needs more than [`MAX_STEPS`](crate::MAX_STEPS) steps.
    TooManySteps {
        /// The number of steps when the finder gave up.
        count: u64,
    },
    /// The tree needs more than [`MAX_NODES`](crate::MAX_NODES) nodes.
    TooManyNodes {
        /// The number of nodes when the finder gave up.
        count: u64,
    },
    /// The tree needs more than [`MAX_LEVELS`](crate::MAX_LEVELS) nodes with subtrees on one
    /// path.
    TooManyLevels {
        /// The largest allowed number of levels.
        count: u64,
    },
    /// The tasks of all covers that were tried have more than
    /// [`MAX_COVER_TUPLES`](crate::MAX_COVER_TUPLES) tuples together.
    TooManyCovers {
        /// The number of covers that were tried before.
        count: u64,
    },
    /// An index is out of range, or a division leaves a remainder. This is not known to happen for
    /// any task, and not proved never to happen.
    Internal,
    /// Memory ran out.
    OutOfMemory,
}

impl From<AllocError> for FinderFault {
    ghost from_gives = { λ _ fault. fault ≡ OutOfMemory };

    fn from(_refused: AllocError) -> FinderFault {
        FinderFault::OutOfMemory
    }
}

impl<T: Drop> From<AllocFailed<T>> for FinderFault {
    ghost from_gives = { λ _ fault. fault ≡ OutOfMemory };

    fn from(_refused: AllocFailed<T>) -> FinderFault {
        FinderFault::OutOfMemory
    }
}

impl From<EliminationFault> for FinderFault {
    fn from(fault: EliminationFault) -> FinderFault {
        match fault {
            EliminationFault::TooManyUnknowns { count } => FinderFault::TooManyUnknowns { count },
            EliminationFault::TooManyEntries { count } => FinderFault::TooManyEntries { count },
            EliminationFault::TooManySteps { count } => FinderFault::TooManySteps { count },
            EliminationFault::Internal => FinderFault::Internal,
            EliminationFault::OutOfMemory => FinderFault::OutOfMemory,
        }
    }
}

/// Fails with `TooManyEquations` if `count` is more than [`MAX_EQUATIONS`].
pub(crate) fn judge_equations(count: u64) -> Result<(), FinderFault>
    ensures { MatchResult result (λ _. count ≤ MAX_EQUATIONS)
        (λ fault. (MAX_EQUATIONS < count) × (fault ≡ TooManyEquations count)) }
{
    if count > MAX_EQUATIONS {
        return Err(FinderFault::TooManyEquations { count });
    }
    Ok(())
}

/// Converts an index to four bytes, and fails if it does not fit.
pub(crate) fn number(place: usize) -> Result<u32, FinderFault> {
    match u32::try_from(place) {
        Ok(number) => Ok(number),
        Err(_) => Err(FinderFault::Internal),
    }
}
