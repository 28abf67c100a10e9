//! The errors of an elimination, and its limits.

ghost use Rattle.std.specs.Prelude.{◌≡◌, ◌<◌, ◌≤◌, MatchResult};
ghost use Rattle.wf_tree_elimination.specs.declared.fault.EliminationFault.TheVariants.{OutOfMemory, TooManyEntries, TooManySteps, TooManyUnknowns};

use std::alloc::{AllocError, AllocFailed};

/// The largest number of unknowns.
pub const MAX_UNKNOWNS: u64 = 4_000_000;

/// The largest number of entries stored at a time: terms of equations, and records of which
/// equations were subtracted from which.
pub const MAX_ENTRIES: u64 = 40_000_000;

/// The largest number of steps. In a step, a term of a stored equation is subtracted from the
/// current equation.
pub const MAX_STEPS: u64 = 1_073_741_824;

/// The reasons for which an elimination gives up. They say nothing about whether the equations
/// contradict one another.
#[derive(Clone, Copy, Debug, PartialEq, Eq)]
pub enum EliminationFault {
    /// There are more than [`MAX_UNKNOWNS`] unknowns.
    TooManyUnknowns {
        /// The number of unknowns.
        count: u64,
    },
    /// More than [`MAX_ENTRIES`] entries need to be stored.
    TooManyEntries {
        /// The number of entries when the elimination gave up.
        count: u64,
    },
    /// More than [`MAX_STEPS`] steps are needed.
    TooManySteps {
        /// The number of steps when the elimination gave up.
        count: u64,
    },
    /// An index is out of range, or a division leaves a remainder. Whether this can happen although
    /// all arguments are in range is not proved.
    Internal,
    /// Memory ran out.
    OutOfMemory,
}

impl From<AllocError> for EliminationFault {
    ghost from_gives = { λ _ fault. fault ≡ OutOfMemory };

    fn from(_refused: AllocError) -> EliminationFault {
        EliminationFault::OutOfMemory
    }
}

impl<T: Drop> From<AllocFailed<T>> for EliminationFault {
    ghost from_gives = { λ _ fault. fault ≡ OutOfMemory };

    fn from(_refused: AllocFailed<T>) -> EliminationFault {
        EliminationFault::OutOfMemory
    }
}

/// Fails with `TooManyUnknowns` if `count` is more than [`MAX_UNKNOWNS`].
pub(crate) fn judge_unknowns(count: u64) -> Result<(), EliminationFault>
    ensures { MatchResult result (λ _. count ≤ MAX_UNKNOWNS)
        (λ fault. (MAX_UNKNOWNS < count) × (fault ≡ TooManyUnknowns count)) }
{
    if count > MAX_UNKNOWNS {
        return Err(EliminationFault::TooManyUnknowns { count });
    }
    Ok(())
}

/// Fails with `TooManyEntries` if `count` is more than [`MAX_ENTRIES`].
pub(crate) fn judge_entries(count: u64) -> Result<(), EliminationFault>
    ensures { MatchResult result (λ _. count ≤ MAX_ENTRIES)
        (λ fault. (MAX_ENTRIES < count) × (fault ≡ TooManyEntries count)) }
{
    if count > MAX_ENTRIES {
        return Err(EliminationFault::TooManyEntries { count });
    }
    Ok(())
}

/// Fails with `TooManySteps` if `count` is more than [`MAX_STEPS`].
pub(crate) fn judge_steps(count: u64) -> Result<(), EliminationFault>
    ensures { MatchResult result (λ _. count ≤ MAX_STEPS)
        (λ fault. (MAX_STEPS < count) × (fault ≡ TooManySteps count)) }
{
    if count > MAX_STEPS {
        return Err(EliminationFault::TooManySteps { count });
    }
    Ok(())
}

/// Converts an index to four bytes, and fails if it does not fit.
pub(crate) fn number(place: usize) -> Result<u32, EliminationFault> {
    match u32::try_from(place) {
        Ok(number) => Ok(number),
        Err(_) => Err(EliminationFault::Internal),
    }
}
