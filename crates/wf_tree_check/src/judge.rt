//! The check of a whole tree.

ghost use Rattle.std.specs.Prelude.{◌≡◌, ◌<◌, ℕ, OnOk, drop, length, map, vec_items};
ghost use Rattle.wf_model.specs.DecisionMap.{HasNoDecisionMap};
ghost use Rattle.wf_tree_model.specs.Counting.Rules.{rule_at};
ghost use Rattle.wf_tree_model.specs.Cases.{components};
ghost use Rattle.wf_tree_model.specs.Trees.{IsObstruction, Tree, nodes_of};
ghost use Rattle.wf_tree_refine.specs.AtHand.{IsAtHand, at_hand};
ghost use Rattle.wf_tree_text.specs.Seen.{nodes_seen};
ghost use Rattle.wf_tree_check.specs.Judge.{Judges, fault_of, judged};
ghost use Rattle.wf_tree_check.specs.Walk.{Reaches, cases_judged};

use crate::enter::{Cases, Entered, Walk, enter};
use crate::fault::{Limit, TreeFault};
use std::alloc::Global;
use wf_task::{Row, Task};
use wf_tree_refine::{first_rows, in_case};
use wf_tree_text::TreeNode;

/// The largest number of nodes that are checked.
pub const MAX_NODES: usize = 65_536;

/// The largest number of nodes with subtrees on one path of the tree.
pub const MAX_LEVELS: u32 = 64;

/// Checks that `nodes`, in preorder, are the nodes of an obstruction of the task. If they are, the
/// task has no decision map after any number of rounds.
///
/// The check keeps a copy of the tuples for each node on the path from the root, at most
/// [`MAX_LEVELS`] + 1 copies, and its recursion is no deeper. For each case it copies the
/// remaining tuples and computes the connected components of the simplex again, with a look-up for
/// each value of each of its tuples.
///
/// # Errors
///
/// Returns the first fault of the nodes, as defined in `specs/Judge`, or [`TreeFault::OutOfMemory`]
/// if memory runs out.
pub fn is_obstruction(alloc: Global, task: &Task, nodes: &[TreeNode]) -> Result<(), TreeFault>
    ensures judged { Judges result (fault_of task.now (nodes_seen nodes.now)) }
    ensures obstruction { OnOk result ((tree : Tree)
        × (nodes_of tree ≡ nodes_seen nodes.now) × IsObstruction task.now tree) }
    ensures no_map { OnOk result ((r : ℕ) → HasNoDecisionMap task.now r) }
{
    // for the proof only: the clauses of this call state that `task` is a task
    let _ = task.processes();
    judge_all(alloc, task, nodes)
}

/// Checks all nodes: limits first, then the tree, then that no node follows it.
fn judge_all(alloc: Global, task: &Task, nodes: &[TreeNode]) -> Result<(), TreeFault>
    ensures { Judges result (fault_of task.now (nodes_seen nodes.now)) }
{
    if task.first_block() != 1 {
        return Err(TreeFault::FirstBlock);
    }
    if nodes.len() > MAX_NODES {
        let node = MAX_NODES as u64;
        let limit = Limit::Nodes;
        return Err(TreeFault::TooLarge { node, limit });
    }
    let rows = first_rows(alloc, task)?;
    let walk = Walk { alloc, task, nodes };
    let end = judge(&walk, &rows, 0, MAX_LEVELS)?;
    if end < nodes.len() {
        return Err(TreeFault::Behind { node: end as u64 });
    }
    Ok(())
}

/// Checks the tree that begins with the node at index `place`, for the task with the tuples `rows`.
/// Returns the index after its last node. `levels` limits how many nodes with subtrees may lie on a
/// path.
#[cycle(judging)]
fn judge(walk: &Walk<'_>, rows: &[Vec<Row>], place: usize, levels: u32) -> Result<usize, TreeFault>
    requires { IsAtHand walk.now.task.now (map vec_items rows.now) }
    ensures { let nodes = nodes_seen walk.now.nodes.now in
        let t = at_hand walk.now.task.now (map vec_items rows.now) in
        Reaches nodes result (judged levels t place (drop place nodes)) }
{
    match enter(walk, rows, place, levels)? {
        Entered::Leaf => Ok(place + 1),
        Entered::One(refined) => judge(walk, &refined, place + 1, levels - 1),
        Entered::Each(cases) => check_cases(walk, rows, cases, place + 1, levels - 1),
    }
}

/// Checks the subtrees of all `cases`, in order; the first one begins at index `place`. Returns the
/// index after the last node.
#[cycle(judging)]
fn check_cases(
    walk: &Walk<'_>,
    rows: &[Vec<Row>],
    cases: Cases,
    place: usize,
    levels: u32,
) -> Result<usize, TreeFault>
    requires at_hand { IsAtHand walk.now.task.now (map vec_items rows.now) }
    requires simplex { cases.simplex < length rows.now }
    requires count { let t = at_hand walk.now.task.now (map vec_items rows.now) in
        cases.count ≡ length (components (rule_at t cases.simplex)) }
    ensures { let nodes = nodes_seen walk.now.nodes.now in
        let t = at_hand walk.now.task.now (map vec_items rows.now) in
        Reaches nodes result (cases_judged levels t cases.simplex
        (components (rule_at t cases.simplex)) place (drop place nodes)) }
{
    let mut next = place;
    'parts: for number in 0..cases.count {
        let part = in_case(walk.alloc, walk.task, rows, cases.simplex, number)?;
        next = judge(walk, &part, next, levels)?;
    }
    Ok(next)
}
