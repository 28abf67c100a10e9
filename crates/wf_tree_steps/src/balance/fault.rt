//! The faults for which multipliers are not a balance.

ghost use Rattle.std.specs.Prelude.{◌≡◌};
ghost use Rattle.wf_tree_steps.specs.declared.balance.fault.BalanceFault.TheVariants.{OutOfMemory};

use std::alloc::AllocError;

/// The reasons for which multipliers are not a balance of a task.
///
/// A check reports the first one that applies, in the order of the variants; but each multiplier is
/// checked completely before the next one. Multipliers are named by their index in the list.
#[derive(Clone, Copy, Debug, PartialEq, Eq)]
pub enum BalanceFault {
    /// The sum is 0, or at least the modulus.
    SumRange,
    /// The task has no input simplex with the index that this multiplier names.
    NoSimplex {
        /// The index of the multiplier.
        multiplier: u64,
    },
    /// The place that this multiplier names is not a place of its simplex.
    NoPlace {
        /// The index of the multiplier.
        multiplier: u64,
    },
    /// This multiplier does not have exactly one value for each other participant.
    OthersLength {
        /// The index of the multiplier.
        multiplier: u64,
    },
    /// The weight of this multiplier is 0, or at least the modulus.
    WeightRange {
        /// The index of the multiplier.
        multiplier: u64,
    },
    /// The weights of the multipliers of vertices do not add up to the sum, modulo the modulus.
    OtherSum,
    /// With this tuple, which the task allows, the multipliers do not cancel: it counts other than
    /// 0 modulo the modulus. All earlier tuples count 0.
    NotBalanced {
        /// The index of the input simplex.
        simplex: u64,
        /// The index of the tuple in the list of the simplex's tuples.
        tuple: u64,
    },
    /// Memory ran out.
    OutOfMemory,
}

impl From<AllocError> for BalanceFault {
    ghost from_gives = { λ _ e. e ≡ OutOfMemory };

    fn from(_refused: AllocError) -> BalanceFault {
        BalanceFault::OutOfMemory
    }
}
