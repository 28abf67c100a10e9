//! Nodes, collected line by line.

ghost use Rattle.std.specs.Prelude.{◌≡◌, IfOk};
ghost use Rattle.wf_tree_steps.specs.Balance.Multipliers.{multiplier_seen, multipliers_seen};
ghost use Rattle.wf_tree_steps.specs.Cover.Faults.{move_seen, moves_seen};
ghost use Rattle.wf_tree_text.specs.Seen.{node_seen, nodes_seen};
ghost use Rattle.wf_tree_text.specs.Steps.{changed, line_seen};
ghost use Rattle.wf_tree_text.specs.Text.{at_last, is_smaller, may_follow, move_key, multiplier_key, with_line, with_move, with_multiplier};

use crate::line::NodeLine;
use crate::obstruction::TreeNode;
use std::alloc::{AllocError, Global};
use std::cmp::Ordering;
use wf_tree_steps::balance::{Balance, Multiplier};
use wf_tree_steps::cover::{Covering, Move};

/// Adds `line` to the nodes: as a new node, or as a move or multiplier of the last node. Returns
/// `false`, and leaves the nodes unchanged, if the line must not come here.
pub(crate) fn add_line(
    alloc: Global,
    nodes: &mut Vec<TreeNode>,
    line: NodeLine,
) -> Result<bool, AllocError>
    ensures { IfOk result (λ added. changed added (nodes_seen nodes.new.items)
        ≡ with_line (nodes_seen nodes.old.items) (line_seen line)) }
{
    let node = match line {
        NodeLine::Multiplier(multiplier) => return add_multiplier(nodes, multiplier),
        NodeLine::Move(step) => return add_move(nodes, step),
        NodeLine::Case(simplex) => TreeNode::Case { simplex },
        NodeLine::Split(simplex) => TreeNode::Split { simplex },
        NodeLine::Cover(simplex, sheets, corner) => TreeNode::Cover(Covering {
            simplex,
            sheets,
            corner,
            moves: Vec::new(alloc),
        }),
        NodeLine::Balance(modulus, sum) => TreeNode::Balance(Balance {
            modulus,
            sum,
            multipliers: Vec::new(alloc),
        }),
    };
    nodes.push(node)?;
    Ok(true)
}

/// Adds `next` to the last node. Returns `false` if that is not a balance, or its last multiplier
/// is not smaller than `next`.
fn add_multiplier(nodes: &mut Vec<TreeNode>, next: Multiplier) -> Result<bool, AllocError>
    ensures { IfOk result (λ added. changed added (nodes_seen nodes.new.items)
        ≡ at_last (with_multiplier (multiplier_seen next)) (nodes_seen nodes.old.items)) }
{
    match nodes.last_mut() {
        Some(node) => put_multiplier(node, next),
        None => Ok(false),
    }
}

/// Adds `next` to `node`. Returns `false` if the node is not a balance, or its last multiplier is
/// not smaller than `next`.
fn put_multiplier(node: &mut TreeNode, next: Multiplier) -> Result<bool, AllocError>
    ensures { IfOk result (λ added. changed added (node_seen node.new)
        ≡ with_multiplier (multiplier_seen next) (node_seen node.old)) }
{
    let TreeNode::Balance(balance) = node else {
        return Ok(false);
    };
    if !may_follow_multipliers(&balance.multipliers, &next) {
        return Ok(false);
    }
    balance.multipliers.push(next)?;
    Ok(true)
}

/// Adds `next` to the last node. Returns `false` if that is not a cover with as many sheets, or its
/// last move is not smaller than `next`.
fn add_move(nodes: &mut Vec<TreeNode>, next: Move) -> Result<bool, AllocError>
    ensures { IfOk result (λ added. changed added (nodes_seen nodes.new.items)
        ≡ at_last (with_move (move_seen next)) (nodes_seen nodes.old.items)) }
{
    match nodes.last_mut() {
        Some(node) => put_move(node, next),
        None => Ok(false),
    }
}

/// Adds `next` to `node`. Returns `false` if the node is not a cover with as many sheets, or its
/// last move is not smaller than `next`.
fn put_move(node: &mut TreeNode, next: Move) -> Result<bool, AllocError>
    ensures { IfOk result (λ added. changed added (node_seen node.new)
        ≡ with_move (move_seen next) (node_seen node.old)) }
{
    let TreeNode::Cover(cover) = node else {
        return Ok(false);
    };
    if next.sheets.len() != cover.sheets as usize || !may_follow_moves(&cover.moves, &next) {
        return Ok(false);
    }
    cover.moves.push(next)?;
    Ok(true)
}

/// Returns whether `next` may come after `multipliers`: whether the last of them, if there is one,
/// is smaller.
fn may_follow_multipliers(multipliers: &[Multiplier], next: &Multiplier) -> bool
    ensures { result
        ≡ may_follow multiplier_key (multipliers_seen multipliers.now) (multiplier_seen next.now) }
{
    match multipliers.last() {
        Some(last) => is_smaller_multiplier(last, next),
        None => true,
    }
}

/// Returns whether `last` comes before `next` in the order of multipliers: by simplex, then by
/// place, then by values.
fn is_smaller_multiplier(last: &Multiplier, next: &Multiplier) -> bool
    ensures { let key = multiplier_key (multiplier_seen last.now) in
        result ≡ is_smaller key (multiplier_key (multiplier_seen next.now)) }
{
    let by_simplex = last.simplex.cmp(&next.simplex);
    let by_place = last.place.cmp(&next.place);
    let by_values = last.others.as_slice().cmp(&next.others.as_slice());
    by_simplex.then(by_place).then(by_values) == Ordering::Less
}

/// Returns whether `next` may come after `moves`: whether the last of them, if there is one, is
/// smaller.
fn may_follow_moves(moves: &[Move], next: &Move) -> bool
    ensures { result ≡ may_follow move_key (moves_seen moves.now) (move_seen next.now) }
{
    match moves.last() {
        Some(last) => is_smaller_move(last, next),
        None => true,
    }
}

/// Returns whether `last` comes before `next` in the order of moves: by the first place and its
/// value, then by the second place and its value.
fn is_smaller_move(last: &Move, next: &Move) -> bool
    ensures { result ≡ is_smaller (move_key (move_seen last.now)) (move_key (move_seen next.now)) }
{
    let key = [last.first, last.value, last.second, last.other];
    let next_key = [next.first, next.value, next.second, next.other];
    key.as_slice().cmp(&next_key.as_slice()) == Ordering::Less
}
