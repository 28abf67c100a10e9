//! The writer of an obstruction's text.

ghost use Rattle.std.specs.Prelude.{◌≡◌, ◌++◌, ◌∷◌, flat_map, map, IfOk, OnOk, string_bytes};
ghost use Rattle.wf_model.specs.Report.{numbers_text};
ghost use Rattle.wf_tree_steps.specs.Balance.Multipliers.{multiplier_seen, multipliers_seen};
ghost use Rattle.wf_tree_steps.specs.Cover.Faults.{move_seen, moves_seen};
ghost use Rattle.wf_tree_text.specs.Seen.{node_seen, nodes_seen, obstruction_seen};
ghost use Rattle.wf_tree_text.specs.Text.{balance_at, cover_at, line_text, lines_of_node, lines_of_nodes, move_at, multiplier_at, obstruction_text};

use crate::front::FIRST_LINE;
use crate::obstruction::{Obstruction, TreeNode};
use std::alloc::{AllocError, Global};
use std::fmt::Write;
use wf_base::lines::{put_number, put_words};
use wf_tree_steps::balance::{Balance, Multiplier};
use wf_tree_steps::cover::{Covering, Move};

/// Returns the text of `obstruction`: three lines before the nodes, the nodes with their moves or
/// multipliers, and the line `end`. Each line ends in a line feed, and numbers are decimal.
///
/// # Errors
///
/// Returns `AllocError` if memory runs out.
pub fn write_obstruction(alloc: Global, obstruction: &Obstruction) -> Result<Vec<u8>, AllocError>
    ensures text { IfOk result (λ text.
        text.items ≡ obstruction_text (obstruction_seen obstruction.now)) }
{
    let mut text = String::new(alloc);
    put_words(&mut text, FIRST_LINE)?;
    put_number(&mut text, "processes", obstruction.processes)?;
    put_number(&mut text, "simplices", obstruction.simplices)?;
    put_nodes(&mut text, &obstruction.nodes)?;
    put_words(&mut text, "end")?;
    Ok(text.into_bytes())
}

/// Appends the lines of all `nodes`.
fn put_nodes(text: &mut String, nodes: &[TreeNode]) -> Result<(), AllocError>
    ensures { OnOk result (string_bytes text.new
        ≡ string_bytes text.old ++ flat_map line_text (lines_of_nodes (nodes_seen nodes.now))) }
{
    for node in nodes {
        put_node(text, node)?;
    }
    Ok(())
}

/// Appends the lines of `node`: its own, and those of its moves or multipliers.
fn put_node(text: &mut String, node: &TreeNode) -> Result<(), AllocError>
    ensures { OnOk result (string_bytes text.new
        ≡ string_bytes text.old ++ flat_map line_text (lines_of_node (node_seen node.now))) }
{
    match node {
        TreeNode::Case { simplex } => put_number(text, "case", *simplex),
        TreeNode::Split { simplex } => put_number(text, "split", *simplex),
        TreeNode::Cover(cover) => put_cover(text, cover),
        TreeNode::Balance(balance) => put_balance(text, balance),
    }
}

/// Appends the line of a cover and those of its moves.
fn put_cover(text: &mut String, cover: &Covering) -> Result<(), AllocError>
    ensures { let own = cover_at cover.now.simplex cover.now.sheets cover.now.corner in
        OnOk result (string_bytes text.new ≡ string_bytes text.old
        ++ flat_map line_text (own ∷ map move_at (moves_seen cover.now.moves.items))) }
{
    writeln!(
        text,
        "cover {} {} {}",
        cover.simplex, cover.sheets, cover.corner
    )?;
    for step in &cover.moves {
        put_move(text, step)?;
    }
    Ok(())
}

/// Appends the line of a move.
fn put_move(text: &mut String, step: &Move) -> Result<(), AllocError>
    ensures { OnOk result (string_bytes text.new
        ≡ string_bytes text.old ++ line_text (move_at (move_seen step.now))) }
{
    write!(
        text,
        "p {} {} {} {}",
        step.first, step.value, step.second, step.other
    )?;
    put_values(text, &step.sheets)
}

/// Appends the line of a balance and those of its multipliers.
fn put_balance(text: &mut String, balance: &Balance) -> Result<(), AllocError>
    ensures { let own = balance_at balance.now.modulus balance.now.sum in
        OnOk result (string_bytes text.new ≡ string_bytes text.old ++ flat_map line_text
        (own ∷ map multiplier_at (multipliers_seen balance.now.multipliers.items))) }
{
    writeln!(text, "balance {} {}", balance.modulus, balance.sum)?;
    for multiplier in &balance.multipliers {
        put_multiplier(text, multiplier)?;
    }
    Ok(())
}

/// Appends the line of a multiplier.
fn put_multiplier(text: &mut String, multiplier: &Multiplier) -> Result<(), AllocError>
    ensures { OnOk result (string_bytes text.new
        ≡ string_bytes text.old ++ line_text (multiplier_at (multiplier_seen multiplier.now))) }
{
    write!(
        text,
        "m {} {} {}",
        multiplier.weight, multiplier.simplex, multiplier.place
    )?;
    put_values(text, multiplier.others.as_slice())
}

/// Appends each value with a space before it, and a line feed at the end.
fn put_values(text: &mut String, values: &[u8]) -> Result<(), AllocError>
    ensures { OnOk result (string_bytes text.new
        ≡ string_bytes text.old ++ numbers_text values.now) }
{
    for value in values {
        write!(text, " {value}")?;
    }
    writeln!(text)?;
    Ok(())
}
