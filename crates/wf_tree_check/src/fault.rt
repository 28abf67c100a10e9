//! The faults for which nodes are not an obstruction.

ghost use Rattle.std.specs.Prelude.{◌≡◌};
ghost use Rattle.wf_tree_check.specs.declared.fault.TreeFault.TheVariants.{OutOfMemory};

use std::alloc::AllocError;
use wf_tree_steps::balance::BalanceFault;
use wf_tree_steps::cover::CoverFault;

/// A limit of the check. Nodes above it are refused, whether they are an obstruction or not.
#[derive(Clone, Copy, Debug, PartialEq, Eq)]
pub enum Limit {
    /// There are more than [`MAX_NODES`](crate::MAX_NODES) nodes.
    Nodes,
    /// More than [`MAX_LEVELS`](crate::MAX_LEVELS) nodes with subtrees lie on one path of the
    /// tree.
    Depth,
    /// A split or a cover needs a name above 255.
    Names,
    /// A split or a cover makes more tuples than a task may have during the check.
    Tuples,
}

/// The reasons for which nodes are not an obstruction of a task. Nodes are named by their index in
/// the list.
#[derive(Clone, Copy, Debug, PartialEq, Eq)]
pub enum TreeFault {
    /// The task has a first block of more than one participant. Obstructions are only for tasks
    /// without one.
    FirstBlock,
    /// The list of nodes ends where a tree has to begin.
    NoNode {
        /// The number of nodes, which is the index of the missing one.
        node: u64,
    },
    /// There are nodes after the end of the tree.
    Behind {
        /// The index of the first of them.
        node: u64,
    },
    /// The task has no input simplex with the index that this node names.
    NoSimplex {
        /// The index of the node.
        node: u64,
    },
    /// This node is a split or a cover, and the task is symmetric.
    Symmetric {
        /// The index of the node.
        node: u64,
    },
    /// This node is a cover that is not valid.
    NoCover {
        /// The index of the node.
        node: u64,
        /// Why the cover is not valid.
        fault: CoverFault,
    },
    /// The multipliers of this node are not a balance.
    NoBalance {
        /// The index of the node.
        node: u64,
        /// Why they are not a balance.
        fault: BalanceFault,
    },
    /// This node is above a limit of the check.
    TooLarge {
        /// The index of the node.
        node: u64,
        /// The limit.
        limit: Limit,
    },
    /// Memory ran out.
    OutOfMemory,
}

impl From<AllocError> for TreeFault {
    ghost from_gives = { λ _ e. e ≡ OutOfMemory };

    fn from(_refused: AllocError) -> TreeFault {
        TreeFault::OutOfMemory
    }
}
