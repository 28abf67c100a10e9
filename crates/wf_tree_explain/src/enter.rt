//! The description of one node, and what remains to be described below it.

ghost use Rattle.std.specs.Prelude.{◌≡◌, ◌<◌, ◌-◌, ℕ, List, ◌∷◌, ◌++◌, IfOk, None, OnOk, drop, length, map, string_bytes, vec_items};
ghost use Rattle.wf_tree_model.specs.Counting.Rules.{rule_at};
ghost use Rattle.wf_tree_model.specs.Splits.{by_stars};
ghost use Rattle.wf_tree_model.specs.Trees.{Node, case_node, cover_node, new_name, split_node};
ghost use Rattle.wf_tree_steps.specs.Cover.Faults.{moves_seen};
ghost use Rattle.wf_tree_refine.specs.AtHand.{IsAtHand, at_hand};
ghost use Rattle.wf_tree_refine.specs.Limits.{split_fault};
ghost use Rattle.wf_tree_text.specs.Seen.{node_seen};
ghost use Rattle.wf_tree_explain.specs.Words.{split_text, told};
ghost use Rattle.wf_tree_explain.specs.Walk.{CanTell, Tells, left};

use crate::balance::put_balance;
use crate::case::put_case;
use crate::cover::put_cover;
use crate::split::{Renamed, put_split};
use std::alloc::{AllocError, Global};
use wf_task::{Row, Task};
use wf_tree_refine::{RefineFault, count_components, named_rows, new_name, split_rows};
use wf_tree_steps::cover::{Covering, cover_fault, covered_rows};
use wf_tree_text::TreeNode;

/// The input of a description: the nodes of a tree, and the task.
#[derive(Clone, Copy, Drop)]
pub(crate) struct TreeExplainer<'a> {
    /// The allocator.
    pub alloc: Global,
    /// The task that was read.
    pub task: &'a Task,
    /// All nodes of the tree, in preorder.
    pub nodes: &'a [TreeNode],
}

/// The position at which a tree is described.
#[derive(Clone, Copy, Drop)]
pub(crate) struct Spot {
    /// The index of its first node.
    pub place: usize,
    /// The largest number of nodes with subtrees on a path down from here.
    pub levels: u32,
    /// The number of cases above, which is the depth of indentation.
    pub depth: u32,
}

/// The cases of a simplex.
#[derive(Clone, Copy, Drop)]
pub(crate) struct ExplainedCases {
    /// The index of the simplex.
    pub simplex: usize,
    /// The number of cases: one for each connected component of the simplex's tuples.
    pub count: u32,
}

/// What remains to be described below a node.
#[derive(Drop)]
pub(crate) enum ExplainedNode {
    /// Nothing: the node is a balance, or it does not fit its task.
    Done,
    /// One subtree, for the task with the tuples in this list.
    One(Vec<Vec<Row>>),
    /// One subtree for each of these cases.
    Each(ExplainedCases),
}

/// Describes `node` in `text`, without its subtrees, and returns what remains to be described below
/// it. `rows` are the tuples of the task at this node.
pub(crate) fn enter(
    walk: &TreeExplainer<'_>,
    text: &mut String,
    rows: &[Vec<Row>],
    at: Spot,
    node: &TreeNode,
) -> Result<ExplainedNode, AllocError>
    requires { IsAtHand walk.now.task.now (map vec_items rows.now) }
    ensures told { IfOk result (λ entered. let t = walk.now.task.now in
        let rows = map vec_items rows.now in
        (next : ℕ) (nodes : List Node) →
        Tells (string_bytes text.old) (string_bytes text.new)
        (told at.levels (at_hand t rows) at.depth (node_seen node.now ∷ drop next nodes))
        (left t rows (at.levels - 1) at.depth next nodes entered)) }
    ensures left { IfOk result
        (CanTell walk.now.task.now (map vec_items rows.now) at.levels) }
{
    match node {
        TreeNode::Balance(balance) => {
            put_balance(walk.alloc, text, walk.task, at.depth, balance)?;
            Ok(ExplainedNode::Done)
        }
        TreeNode::Case { simplex } => enter_case(walk, text, rows, at, *simplex as usize),
        TreeNode::Split { simplex } => enter_split(walk, text, rows, at, *simplex as usize),
        TreeNode::Cover(cover) => enter_cover(walk, text, rows, at, cover),
    }
}

/// Describes a case of `simplex` in `text`. Appends nothing if the task has no such simplex or no
/// level remains.
fn enter_case(
    walk: &TreeExplainer<'_>,
    text: &mut String,
    rows: &[Vec<Row>],
    at: Spot,
    simplex: usize,
) -> Result<ExplainedNode, AllocError>
    requires { IsAtHand walk.now.task.now (map vec_items rows.now) }
    ensures told { IfOk result (λ entered. let t = walk.now.task.now in
        let rows = map vec_items rows.now in
        (next : ℕ) (nodes : List Node) →
        Tells (string_bytes text.old) (string_bytes text.new)
        (told at.levels (at_hand t rows) at.depth (case_node simplex ∷ drop next nodes))
        (left t rows (at.levels - 1) at.depth next nodes entered)) }
    ensures left { IfOk result
        (CanTell walk.now.task.now (map vec_items rows.now) at.levels) }
{
    if at.levels == 0 || simplex >= rows.len() {
        return Ok(ExplainedNode::Done);
    }
    let count = count_components(walk.alloc, walk.task, rows, simplex)?;
    let simplices = walk.task.inputs().simplices();
    put_case(text, at.depth, &simplices[simplex], count)?;
    Ok(ExplainedNode::Each(ExplainedCases { simplex, count }))
}

/// Describes a split of `simplex` in `text`. Appends nothing if the task has no such simplex, no
/// level remains, or the split is above a limit.
fn enter_split(
    walk: &TreeExplainer<'_>,
    text: &mut String,
    rows: &[Vec<Row>],
    at: Spot,
    simplex: usize,
) -> Result<ExplainedNode, AllocError>
    requires { IsAtHand walk.now.task.now (map vec_items rows.now) }
    ensures told { IfOk result (λ entered. let t = walk.now.task.now in
        let rows = map vec_items rows.now in
        (next : ℕ) (nodes : List Node) →
        Tells (string_bytes text.old) (string_bytes text.new)
        (told at.levels (at_hand t rows) at.depth (split_node simplex ∷ drop next nodes))
        (left t rows (at.levels - 1) at.depth next nodes entered)) }
    ensures left { IfOk result
        (CanTell walk.now.task.now (map vec_items rows.now) at.levels) }
{
    if at.levels == 0 || simplex >= rows.len() {
        return Ok(ExplainedNode::Done);
    }
    match split_rows(walk.alloc, walk.task, rows, simplex) {
        Ok(refined) => {
            describe_split(walk, text, rows, at.depth, simplex)?;
            Ok(ExplainedNode::One(refined))
        }
        Err(RefineFault::OutOfMemory) => Err(AllocError),
        Err(_above) => Ok(ExplainedNode::Done),
    }
}

/// Describes in `text` a split of `simplex` that is within the limits.
fn describe_split(
    walk: &TreeExplainer<'_>,
    text: &mut String,
    rows: &[Vec<Row>],
    depth: u32,
    simplex: usize,
) -> Result<(), AllocError>
    requires at_hand { IsAtHand walk.now.task.now (map vec_items rows.now) }
    requires simplex { simplex < length rows.now }
    requires within { let t = at_hand walk.now.task.now (map vec_items rows.now) in
        split_fault (by_stars (rule_at t simplex) (new_name t)) t ≡ None }
    ensures { let t = at_hand walk.now.task.now (map vec_items rows.now) in
        OnOk result (string_bytes text.new ≡ string_bytes text.old
        ++ split_text depth (by_stars (rule_at t simplex) (new_name t)) (new_name t)) }
{
    let new = new_name(walk.task, rows);
    let simplices = walk.task.inputs().simplices();
    let of = &simplices[simplex];
    let tuples = rows[simplex].as_slice();
    match named_rows(walk.alloc, of, tuples, new) {
        Ok(named) => {
            let renamed = Renamed {
                simplex: of,
                rows: tuples,
                named: named.as_slice(),
                new,
            };
            put_split(walk.alloc, text, depth, &renamed)
        }
        // a split within the limits fails only if memory runs out
        Err(_refused) => Err(AllocError),
    }
}

/// Describes `cover` in `text`. Appends nothing if the task has no such simplex, no level remains,
/// or the cover is not valid or above a limit.
fn enter_cover(
    walk: &TreeExplainer<'_>,
    text: &mut String,
    rows: &[Vec<Row>],
    at: Spot,
    cover: &Covering,
) -> Result<ExplainedNode, AllocError>
    requires { IsAtHand walk.now.task.now (map vec_items rows.now) }
    ensures told { IfOk result (λ entered. let t = walk.now.task.now in
        let rows = map vec_items rows.now in
        let moves = moves_seen cover.now.moves.items in
        let node = cover_node cover.now.simplex cover.now.sheets cover.now.corner moves in
        (next : ℕ) (nodes : List Node) →
        Tells (string_bytes text.old) (string_bytes text.new)
        (told at.levels (at_hand t rows) at.depth (node ∷ drop next nodes))
        (left t rows (at.levels - 1) at.depth next nodes entered)) }
    ensures left { IfOk result
        (CanTell walk.now.task.now (map vec_items rows.now) at.levels) }
{
    let simplex = cover.simplex as usize;
    if at.levels == 0 || simplex >= rows.len() {
        return Ok(ExplainedNode::Done);
    }
    if cover_fault(walk.alloc, walk.task, rows, cover)?.is_some() {
        return Ok(ExplainedNode::Done);
    }
    match covered_rows(walk.alloc, walk.task, rows, cover) {
        Ok(refined) => {
            let new = new_name(walk.task, rows);
            let simplices = walk.task.inputs().simplices();
            put_cover(text, at.depth, &simplices[simplex], new, cover)?;
            Ok(ExplainedNode::One(refined))
        }
        Err(RefineFault::OutOfMemory) => Err(AllocError),
        Err(_above) => Ok(ExplainedNode::Done),
    }
}
