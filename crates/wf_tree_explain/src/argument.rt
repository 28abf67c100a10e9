//! The text of an obstruction in words, from its title to its last sentence.

ghost use Rattle.std.specs.Prelude.{◌≡◌, ◌++◌, ◌≤◌, ◌<◌, ◌+◌, IfOk, OnOk, drop, length, map, string_bytes, vec_items};
ghost use Rattle.std.specs.List.{list_any};
ghost use Rattle.wf_tree_model.specs.Counting.Rules.{rule_at};
ghost use Rattle.wf_tree_model.specs.Cases.{components};
ghost use Rattle.wf_tree_refine.specs.AtHand.{IsAtHand, at_hand};
ghost use Rattle.wf_tree_text.specs.Seen.{node_seen, nodes_seen};
ghost use Rattle.wf_tree_explain.specs.Words.{argument_text, is_signed, most_levels, signs_text, symmetric_text, told};
ghost use Rattle.wf_tree_explain.specs.Walk.{parts_told};

use crate::case::put_part;
use crate::enter::{ExplainedCases, ExplainedNode, Spot, TreeExplainer, enter};
use std::alloc::{AllocError, Global};
use std::fmt::Write;
use wf_task::{Row, Task};
use wf_tree_refine::{first_rows, in_case};
use wf_tree_text::TreeNode;

/// The largest number of nodes with subtrees on one path that the text describes.
const MAX_LEVELS: u32 = 64;

/// Returns an argument in English why `task` has no decision map after any number of rounds.
/// `nodes` are the nodes of an obstruction of the task, in preorder.
///
/// The function does not check the obstruction: a node that does not fit its task is left out
/// without a word. Besides the text, it needs memory for the tuples of the tasks on one path of the
/// tree, and 16 bytes for each multiplier of one balance.
///
/// # Errors
///
/// Returns `AllocError` if memory runs out.
pub fn write_obstruction_argument(
    alloc: Global,
    task: &Task,
    nodes: &[TreeNode],
) -> Result<Vec<u8>, AllocError>
    ensures text { IfOk result (λ text.
        text.items ≡ argument_text task.now (nodes_seen nodes.now)) }
{
    let rows = first_rows(alloc, task)?;
    let walk = TreeExplainer { alloc, task, nodes };
    let mut text = String::new(alloc);
    write!(
        text,
        "No decision map after any number of rounds.\n\nSuppose that there is a decision map."
    )?;
    put_symmetric(&mut text, task.symmetric())?;
    writeln!(text)?;
    let start = Spot {
        place: 0,
        levels: MAX_LEVELS,
        depth: 0,
    };
    put_tree(&walk, &mut text, &rows, start)?;
    put_signs(&mut text, nodes)?;
    Ok(text.into_bytes())
}

/// Appends to `text`, if the task is symmetric, what the words simplex and point mean.
fn put_symmetric(text: &mut String, symmetric: bool) -> Result<(), AllocError>
    ensures { OnOk result (string_bytes text.new
        ≡ string_bytes text.old ++ symmetric_text symmetric) }
{
    if symmetric {
        write!(
            text,
            " The task is symmetric, so this is about comparison-based protocols: a simplex stands for all with the same inputs in the order of their processes, and points are views up to the names of the processes."
        )?;
    }
    Ok(())
}

/// Appends to `text`, if some balance counts with signs, which executions have a minus sign.
fn put_signs(text: &mut String, nodes: &[TreeNode]) -> Result<(), AllocError>
    ensures { OnOk result (string_bytes text.new
        ≡ string_bytes text.old ++ signs_text (nodes_seen nodes.now)) }
{
    if is_any_signed(nodes) {
        writeln!(
            text,
            "An execution of n processes after r rounds counts with a minus sign if n * r and the number of blocks in its words differ by an odd number."
        )?;
    }
    Ok(())
}

/// Returns whether one of `nodes` is a balance that counts with signs.
#[tactic(auto, using(crate::proofs::Telling::any_seen))]
fn is_any_signed(nodes: &[TreeNode]) -> bool
    ensures { result ≡ list_any is_signed (nodes_seen nodes.now) }
{
    'nodes: for node in nodes {
        if is_signed(node) {
            return true;
        }
    }
    false
}

/// Returns whether `node` is a balance that counts with signs. Modulo 2 signs make no difference.
fn is_signed(node: &TreeNode) -> bool
    ensures { result ≡ is_signed (node_seen node.now) }
{
    match node {
        TreeNode::Balance(balance) => balance.modulus > 2,
        TreeNode::Case { simplex: _ } | TreeNode::Split { simplex: _ } | TreeNode::Cover(_) => {
            false
        }
    }
}

/// Describes in `text` the tree that begins with the node at `at`, for the task with the tuples
/// `rows`. Returns the index after its last node.
#[cycle(telling)]
fn put_tree(
    walk: &TreeExplainer<'_>,
    text: &mut String,
    rows: &[Vec<Row>],
    at: Spot,
) -> Result<usize, AllocError>
    requires at_hand { IsAtHand walk.now.task.now (map vec_items rows.now) }
    requires levels { at.levels + at.depth ≤ most_levels }
    ensures text { let all = told at.levels (at_hand walk.now.task.now (map vec_items rows.now))
        at.depth (drop at.place (nodes_seen walk.now.nodes.now)) in
        OnOk result (string_bytes text.new ≡ string_bytes text.old ++ all.0) }
    ensures nodes { let all = told at.levels (at_hand walk.now.task.now (map vec_items rows.now))
        at.depth (drop at.place (nodes_seen walk.now.nodes.now)) in
        IfOk result (λ end. drop end (nodes_seen walk.now.nodes.now) ≡ all.1) }
{
    let Some(node) = walk.nodes.get(at.place) else {
        return Ok(at.place);
    };
    let place = at.place + 1;
    match enter(walk, text, rows, at, node)? {
        ExplainedNode::Done => Ok(place),
        ExplainedNode::One(refined) => {
            let below = Spot {
                place,
                levels: at.levels - 1,
                depth: at.depth,
            };
            put_tree(walk, text, &refined, below)
        }
        ExplainedNode::Each(cases) => {
            let below = Spot {
                place,
                levels: at.levels - 1,
                depth: at.depth,
            };
            put_cases(walk, text, rows, cases, below)
        }
    }
}

/// Describes in `text` the cases of a simplex, each with its tuples and its subtree; the first
/// subtree begins with the node at `at`. Returns the index after the last node.
#[cycle(telling)]
fn put_cases(
    walk: &TreeExplainer<'_>,
    text: &mut String,
    rows: &[Vec<Row>],
    cases: ExplainedCases,
    at: Spot,
) -> Result<usize, AllocError>
    requires at_hand { IsAtHand walk.now.task.now (map vec_items rows.now) }
    requires levels { at.levels + at.depth < most_levels }
    requires simplex { cases.simplex < length rows.now }
    requires count { let t = at_hand walk.now.task.now (map vec_items rows.now) in
        cases.count ≡ length (components (rule_at t cases.simplex)) }
    ensures text { let t = at_hand walk.now.task.now (map vec_items rows.now) in
        let all = parts_told at.levels t at.depth cases.simplex 0
        (components (rule_at t cases.simplex)) (drop at.place (nodes_seen walk.now.nodes.now)) in
        OnOk result (string_bytes text.new ≡ string_bytes text.old ++ all.0) }
    ensures nodes { let t = at_hand walk.now.task.now (map vec_items rows.now) in
        let all = parts_told at.levels t at.depth cases.simplex 0
        (components (rule_at t cases.simplex)) (drop at.place (nodes_seen walk.now.nodes.now)) in
        IfOk result (λ end. drop end (nodes_seen walk.now.nodes.now) ≡ all.1) }
{
    let mut next = at.place;
    'parts: for number in 0..cases.count {
        let part = in_case(walk.alloc, walk.task, rows, cases.simplex, number)?;
        put_part(text, at.depth, number, &part[cases.simplex])?;
        let below = Spot {
            place: next,
            levels: at.levels,
            depth: at.depth + 1,
        };
        next = put_tree(walk, text, &part, below)?;
    }
    Ok(next)
}
