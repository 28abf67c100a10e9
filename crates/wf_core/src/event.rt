//! Events of a pool of workers, and the reasons why an event is illegal.

ghost use Rattle.std.specs.Prelude.{◌≡◌};
ghost use Rattle.wf_core.specs.declared.event.CoreFault.TheVariants.{OutOfMemory};

use std::alloc::AllocError;
use thiserror::Error;

/// The status of a branch.
#[derive(Clone, Copy, Debug, PartialEq, Eq)]
pub enum Status {
    /// No worker has taken the branch.
    Free,
    /// The worker of this number has taken the branch and not settled it yet.
    Held(u32),
    /// The branch was searched and has no decision map.
    Refuted,
    /// The branch was searched and has a decision map.
    Posted,
    /// The branch was given up without a result, because a lower branch has a decision map.
    Cut,
}

/// An event: one atomic step of a worker. Workers and branches are numbered from 0.
#[derive(Clone, Copy, Debug, PartialEq, Eq)]
pub enum Event {
    /// The worker takes the free branch.
    Take { worker: u32, branch: u32 },
    /// The worker reads the least posted branch.
    Look { worker: u32 },
    /// The worker found a decision map in its branch, and posts it.
    Post { worker: u32, branch: u32 },
    /// The worker found that its branch has no decision map.
    Searched { worker: u32, branch: u32 },
    /// The worker gives up its branch, because it has seen a lower one posted.
    Cut { worker: u32, branch: u32 },
    /// The worker stops. It holds no branch.
    End { worker: u32 },
}

/// The reason why an event is illegal. If several hold, the first in this order is reported.
#[derive(Clone, Copy, Debug, PartialEq, Eq, Error)]
pub enum Illegal {
    /// No worker has this number.
    #[error("there is no such worker")]
    NoWorker,
    /// No branch has this number.
    #[error("there is no such branch")]
    NoBranch,
    /// The worker has already ended.
    #[error("the worker has ended")]
    Ended,
    /// The worker still holds a branch that it has not settled.
    #[error("the worker holds a branch")]
    Busy,
    /// The branch to take is not free.
    #[error("the branch is not free")]
    NotFree,
    /// The worker does not hold the branch that it settles.
    #[error("the worker does not hold the branch")]
    NotHeld,
    /// The worker has not seen a posted branch below the branch that it gives up.
    #[error("the worker has seen no lower branch posted")]
    NotBelow,
}

/// The reason why [`Core::run`](crate::Core::run) did not run a list of events to its end.
#[derive(Clone, Copy, Debug, PartialEq, Eq, Error)]
pub enum CoreFault {
    /// The event at index `at` of the list is the first illegal one, for the reason `why`.
    #[error("event {at} is illegal: {why}")]
    Illegal { at: usize, why: Illegal },
    /// Memory ran out for the opening state.
    #[error("out of memory")]
    OutOfMemory,
}

impl From<AllocError> for CoreFault {
    ghost from_gives = { λ _ fault. fault ≡ OutOfMemory };

    fn from(_: AllocError) -> CoreFault {
        CoreFault::OutOfMemory
    }
}

/// The result of a finished pool: `branches` is the number of branches, `least` the least posted
/// one (or `branches`, if none was posted), `searched` the number of branches that were searched,
/// with or without a map, and `cut` the number of branches given up.
#[derive(Clone, Copy, Debug, PartialEq, Eq)]
pub struct Account {
    pub branches: u32,
    pub least: u32,
    pub searched: u32,
    pub cut: u32,
}
