//! The check of one node: whether it fits its task, and what remains to be checked below it.

ghost use Rattle.std.specs.Prelude.{◌≡◌, ◌<◌, ◌+◌, ◌-◌, ℕ, suc, List, ◌∷◌, IfOk, OnOk, drop, length, map, vec_items};
ghost use Rattle.wf_tree_model.specs.Trees.{Node, balance_node, case_node, cover_node, split_node};
ghost use Rattle.wf_tree_steps.specs.Balance.Multipliers.{multipliers_seen};
ghost use Rattle.wf_tree_steps.specs.Cover.Faults.{moves_seen};
ghost use Rattle.wf_tree_refine.specs.AtHand.{IsAtHand, at_hand};
ghost use Rattle.wf_tree_text.specs.Seen.{node_seen, nodes_seen};
ghost use Rattle.wf_tree_check.specs.Judge.{judged};
ghost use Rattle.wf_tree_check.specs.Walk.{HasLevels, IsEntered, fault_at, levels_of};

use crate::fault::{Limit, TreeFault};
use std::alloc::Global;
use wf_task::{Row, Task};
use wf_tree_refine::{RefineFault, count_components, split_rows};
use wf_tree_steps::balance::{Balance, BalanceFault, is_balance};
use wf_tree_steps::cover::{Covering, cover_fault, covered_rows};
use wf_tree_text::TreeNode;

/// The input of a check: the nodes of a tree, and the task.
#[derive(Drop)]
pub(crate) struct Walk<'a> {
    /// The allocator.
    pub alloc: Global,
    /// The task that was read.
    pub task: &'a Task,
    /// All nodes of the tree, in preorder.
    pub nodes: &'a [TreeNode],
}

/// The cases of a simplex.
#[derive(Drop)]
pub(crate) struct Cases {
    /// The index of the simplex.
    pub simplex: usize,
    /// The number of cases: one for each connected component of the simplex's tuples.
    pub count: u32,
}

/// What remains to be checked below a node.
#[derive(Drop)]
pub(crate) enum Entered {
    /// Nothing: the node is a balance, which is a leaf.
    Leaf,
    /// One subtree, for the task with the tuples in this list.
    One(Vec<Vec<Row>>),
    /// One subtree for each of the cases.
    Each(Cases),
}

/// Checks the node at index `place` for the task with the tuples `rows`, without its subtrees, and
/// returns what remains to be checked below it. `levels` limits how many nodes with subtrees may
/// lie on a path down from here.
pub(crate) fn enter(
    walk: &Walk<'_>,
    rows: &[Vec<Row>],
    place: usize,
    levels: u32,
) -> Result<Entered, TreeFault>
    requires { IsAtHand walk.now.task.now (map vec_items rows.now) }
    ensures entered { let t = walk.now.task.now in let rows = map vec_items rows.now in
        let nodes = nodes_seen walk.now.nodes.now in
        IsEntered t rows (levels - 1) place (drop (place + 1) nodes) result
        (judged levels (at_hand t rows) place (drop place nodes)) }
    ensures levels { IfOk result (HasLevels levels) }
    ensures inside { OnOk result (place < length walk.now.nodes.now) }
{
    let Some(node) = walk.nodes.get(place) else {
        return Err(TreeFault::NoNode { node: place as u64 });
    };
    if levels < levels_of(node) {
        let node = place as u64;
        let limit = Limit::Depth;
        return Err(TreeFault::TooLarge { node, limit });
    }
    match node {
        TreeNode::Balance(balance) => enter_balance(walk, rows, place, balance),
        TreeNode::Case { simplex } => enter_case(walk, rows, place, *simplex as usize),
        TreeNode::Split { simplex } => enter_split(walk, rows, place, *simplex as usize),
        TreeNode::Cover(cover) => enter_cover(walk, rows, place, cover),
    }
}

/// Returns how many levels `node` uses: 0 for a balance, which has no subtree, and 1 for other
/// nodes.
fn levels_of(node: &TreeNode) -> u32
    ensures { result ≡ levels_of (node_seen node.now) }
{
    match node {
        TreeNode::Balance(_) => 0,
        _ => 1,
    }
}

/// Checks that `balance` is a balance of the task with the tuples `rows`. `place` is the index of
/// the node.
fn enter_balance(
    walk: &Walk<'_>,
    rows: &[Vec<Row>],
    place: usize,
    balance: &Balance,
) -> Result<Entered, TreeFault>
    requires { IsAtHand walk.now.task.now (map vec_items rows.now) }
    ensures entered { let t = walk.now.task.now in let rows = map vec_items rows.now in
        let xs = multipliers_seen balance.now.multipliers.items in
        let node = balance_node balance.now.modulus balance.now.sum xs in
        (levels below : ℕ) (behind : List Node) → IsEntered t rows below place behind result
        (judged levels (at_hand t rows) place (node ∷ behind)) }
    ensures levels { (levels : ℕ) → IfOk result (HasLevels levels) }
{
    match is_balance(walk.alloc, walk.task, rows, balance) {
        Ok(()) => Ok(Entered::Leaf),
        Err(BalanceFault::OutOfMemory) => Err(TreeFault::OutOfMemory),
        Err(fault) => {
            let node = place as u64;
            Err(TreeFault::NoBalance { node, fault })
        }
    }
}

/// Counts the cases of `simplex`, for the case node at index `place`. Fails if the task has no such
/// simplex.
fn enter_case(
    walk: &Walk<'_>,
    rows: &[Vec<Row>],
    place: usize,
    simplex: usize,
) -> Result<Entered, TreeFault>
    requires { IsAtHand walk.now.task.now (map vec_items rows.now) }
    ensures { let t = walk.now.task.now in let rows = map vec_items rows.now in
        (levels : ℕ) (behind : List Node) → IsEntered t rows levels place behind result
        (judged (suc levels) (at_hand t rows) place (case_node simplex ∷ behind)) }
{
    if simplex >= rows.len() {
        return Err(TreeFault::NoSimplex { node: place as u64 });
    }
    let count = count_components(walk.alloc, walk.task, rows, simplex)?;
    Ok(Entered::Each(Cases { simplex, count }))
}

/// Splits `simplex`, for the split node at index `place`. Fails if the task is symmetric, has no
/// such simplex, or the split is above a limit.
fn enter_split(
    walk: &Walk<'_>,
    rows: &[Vec<Row>],
    place: usize,
    simplex: usize,
) -> Result<Entered, TreeFault>
    requires { IsAtHand walk.now.task.now (map vec_items rows.now) }
    ensures { let t = walk.now.task.now in let rows = map vec_items rows.now in
        (levels : ℕ) (behind : List Node) → IsEntered t rows levels place behind result
        (judged (suc levels) (at_hand t rows) place (split_node simplex ∷ behind)) }
{
    let node = place as u64;
    if walk.task.symmetric() {
        return Err(TreeFault::Symmetric { node });
    }
    if simplex >= rows.len() {
        return Err(TreeFault::NoSimplex { node });
    }
    match split_rows(walk.alloc, walk.task, rows, simplex) {
        Ok(refined) => Ok(Entered::One(refined)),
        Err(fault) => Err(fault_at(node, fault)),
    }
}

/// Checks `cover` and lifts the tuples to its sheets, for the cover node at index `place`. Fails if
/// the task is symmetric or has no such simplex, or if the cover is not valid or above a limit.
fn enter_cover(
    walk: &Walk<'_>,
    rows: &[Vec<Row>],
    place: usize,
    cover: &Covering,
) -> Result<Entered, TreeFault>
    requires { IsAtHand walk.now.task.now (map vec_items rows.now) }
    ensures { let t = walk.now.task.now in let rows = map vec_items rows.now in
        let moves = moves_seen cover.now.moves.items in
        let node = cover_node cover.now.simplex cover.now.sheets cover.now.corner moves in
        (levels : ℕ) (behind : List Node) → IsEntered t rows levels place behind result
        (judged (suc levels) (at_hand t rows) place (node ∷ behind)) }
{
    let node = place as u64;
    if walk.task.symmetric() {
        return Err(TreeFault::Symmetric { node });
    }
    if cover.simplex as usize >= rows.len() {
        return Err(TreeFault::NoSimplex { node });
    }
    if let Some(fault) = cover_fault(walk.alloc, walk.task, rows, cover)? {
        return Err(TreeFault::NoCover { node, fault });
    }
    match covered_rows(walk.alloc, walk.task, rows, cover) {
        Ok(refined) => Ok(Entered::One(refined)),
        Err(fault) => Err(fault_at(node, fault)),
    }
}

/// Returns the fault of a split or cover that was refused at `node`.
fn fault_at(node: u64, fault: RefineFault) -> TreeFault
    ensures { result ≡ fault_at node fault }
{
    let limit = match fault {
        RefineFault::TooManyNames => Limit::Names,
        RefineFault::TooManyTuples => Limit::Tuples,
        RefineFault::OutOfMemory => return TreeFault::OutOfMemory,
    };
    TreeFault::TooLarge { node, limit }
}
