//! The error of a step that refines a task.

ghost use Rattle.std.specs.Prelude.{◌≡◌};
ghost use Rattle.wf_tree_refine.specs.declared.fault.RefineFault.TheVariants.{OutOfMemory};

use std::alloc::AllocError;

/// The largest name: names have to fit into a byte.
pub const MAX_NAME: u32 = 255;

/// The reasons for which a split or a cover of a task is refused.
#[derive(Clone, Copy, Debug, PartialEq, Eq)]
pub enum RefineFault {
    /// A name would be larger than [`MAX_NAME`].
    TooManyNames,
    /// The step would make more than [`MAX_TUPLES`](crate::MAX_TUPLES) tuples. A tuple that is
    /// made several times counts each time.
    TooManyTuples,
    /// Memory ran out.
    OutOfMemory,
}

impl From<AllocError> for RefineFault {
    ghost from_gives = { λ _ e. e ≡ OutOfMemory };

    fn from(_refused: AllocError) -> RefineFault {
        RefineFault::OutOfMemory
    }
}
