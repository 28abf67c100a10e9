//! The options, the state and the errors of a search for a tree.

use crate::fault::{FinderFault, number};
use std::alloc::Global;
use wf_task::Task;
use wf_tree_steps::balance::Balance;
use wf_tree_steps::cover::Covering;
use wf_tree_text::TreeNode;

/// The largest number of nodes of a tree that the finder makes.
pub const MAX_NODES: u64 = 65_536;

/// The largest number of nodes with subtrees on one path of a tree.
pub const MAX_LEVELS: u32 = 64;

/// The largest number of tuples in the tasks of all covers that one search tries, added up.
pub const MAX_COVER_TUPLES: u64 = 250_000;

/// The options of a search for a tree.
#[derive(Clone, Copy, Drop)]
pub struct TreeSearch<'a, L> {
    /// The allocator.
    pub alloc: Global,
    /// The task to find an obstruction of.
    pub task: &'a Task,
    /// The moduli that are tried for each balance, in order.
    pub moduli: &'a [u32],
    /// The largest number of covers on one path of the tree.
    pub covers: u32,
    /// The listener to the search's progress.
    pub listener: &'a L,
}

/// The place at which a search for a tree gave up, and the reason.
#[derive(Clone, Copy, Debug, PartialEq, Eq)]
pub struct StoppedAt {
    /// The modulus of the balance that was looked for, if the search gave up there.
    pub modulus: Option<u32>,
    /// The reason.
    pub fault: FinderFault,
}

/// The limits on the depth of the tree that remain below a node.
#[derive(Clone, Copy, Drop)]
pub(crate) struct Depth {
    /// The largest number of nodes with subtrees on a path from here.
    pub(crate) levels: u32,
    /// The largest number of covers among them.
    pub(crate) covers: u32,
}

/// The state of a search: the nodes of the tree so far, and how much was spent on covers.
#[derive(Drop)]
pub(crate) struct TreeBuilder {
    /// The nodes of the tree, in preorder.
    nodes: Vec<TreeNode>,
    // the number of all covers that were tried, also of those that were removed again, and the
    // tuples of their tasks
    covers: u64,
    tuples: u64,
}

impl TreeBuilder {
    /// Creates the state of a search that has not made any node.
    pub(crate) fn new(alloc: Global) -> TreeBuilder {
        TreeBuilder {
            nodes: Vec::new(alloc),
            covers: 0,
            tuples: 0,
        }
    }

    /// Returns the nodes, and drops the rest of the state.
    pub(crate) fn into_nodes(self) -> Vec<TreeNode> {
        let TreeBuilder { nodes, .. } = self;
        nodes
    }

    /// Returns the number of nodes.
    pub(crate) fn count(&self) -> usize {
        self.nodes.len()
    }

    /// Removes all nodes after the first `first`.
    pub(crate) fn take_back(&mut self, first: usize) {
        self.nodes.truncate(first);
    }

    /// Adds the node for a case of `simplex`.
    pub(crate) fn add_case(&mut self, simplex: usize) -> Result<(), StoppedAt> {
        let simplex = numbered(simplex)?;
        self.add(TreeNode::Case { simplex })
    }

    /// Adds the node for a split of `simplex`.
    pub(crate) fn add_split(&mut self, simplex: usize) -> Result<(), StoppedAt> {
        let simplex = numbered(simplex)?;
        self.add(TreeNode::Split { simplex })
    }

    /// Adds `cover`, whose task has `tuples` tuples. Fails with `TooManyCovers` if the tasks of all
    /// covers that were tried have too many tuples together.
    pub(crate) fn add_cover(&mut self, cover: Covering, tuples: u64) -> Result<(), StoppedAt> {
        let count = self.covers;
        self.tuples = self.tuples.saturating_add(tuples);
        if self.tuples > MAX_COVER_TUPLES {
            return Err(stopped_outside_system(FinderFault::TooManyCovers { count }));
        }
        self.covers = count.saturating_add(1);
        self.add(TreeNode::Cover(cover))
    }

    /// Adds the node of a balance.
    pub(crate) fn add_balance(&mut self, balance: Balance) -> Result<(), StoppedAt> {
        self.add(TreeNode::Balance(balance))
    }

    /// Adds `node`. Fails with `TooManyNodes` if there are [`MAX_NODES`] already.
    fn add(&mut self, node: TreeNode) -> Result<(), StoppedAt> {
        let count = self.nodes.len() as u64;
        if count >= MAX_NODES {
            return Err(stopped_outside_system(FinderFault::TooManyNodes { count }));
        }
        match self.nodes.push(node) {
            Ok(()) => Ok(()),
            Err(_refused) => Err(out_of_memory()),
        }
    }
}

/// Converts the index of a simplex to the type that nodes have for it.
pub(crate) fn numbered(simplex: usize) -> Result<u32, StoppedAt> {
    match number(simplex) {
        Ok(simplex) => Ok(simplex),
        Err(fault) => Err(stopped_outside_system(fault)),
    }
}

/// Returns the error for `fault` of a search that did not give up in a system of equations.
pub(crate) fn stopped_outside_system(fault: FinderFault) -> StoppedAt {
    StoppedAt {
        modulus: None,
        fault,
    }
}

/// Returns the error of a search that ran out of memory.
pub(crate) fn out_of_memory() -> StoppedAt {
    stopped_outside_system(FinderFault::OutOfMemory)
}
