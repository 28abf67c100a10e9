//! Obstructions in the form in which their texts list them.

use wf_tree_steps::balance::Balance;
use wf_tree_steps::cover::Covering;

/// An obstruction as its text lists it. Whether it is one of a given task is for `wf_tree_check` to
/// decide.
#[derive(Drop, Debug)]
pub struct Obstruction {
    /// The number of processes of the task.
    pub processes: u32,
    /// The number of simplices of the task's input complex.
    pub simplices: u32,
    /// The nodes of the tree in preorder: each node comes before its subtrees.
    pub nodes: Vec<TreeNode>,
}

/// A node of a tree, without its subtrees.
#[derive(Drop, Debug)]
pub enum TreeNode {
    /// A case. It has a subtree for each connected component of the tuples that the task allows on
    /// the simplex.
    Case {
        /// The index of the simplex in the input complex.
        simplex: u32,
    },
    /// A split. It has one subtree, for the task after the split of the simplex.
    Split {
        /// The index of the simplex in the input complex.
        simplex: u32,
    },
    /// A cover of a simplex. It has one subtree, for the task with values on the sheets.
    Cover(Covering),
    /// A balance. It is a leaf.
    Balance(Balance),
}
