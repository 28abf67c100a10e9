//! Covers in words.

ghost use Rattle.std.specs.Prelude.{◌≡◌, ◌++◌, ◌<◌, codes, OnOk, string_bytes};
ghost use Rattle.wf_tree_steps.specs.Cover.Faults.{move_seen, moves_seen};
ghost use Rattle.wf_tree_explain.specs.Lists.{list_text};
ghost use Rattle.wf_tree_explain.specs.Words.{cover_text, move_text, moves_text, next_line};

use crate::lists::{put_below, put_indent, put_start, put_values};
use crate::simplex::{put_process, put_simplex};
use std::alloc::AllocError;
use std::fmt::Write;
use wf_simplex::Simplex;
use wf_tree_steps::cover::{Covering, Move};

/// Describes in `text` a cover of `simplex`. `new` is the number of names on each sheet, and
/// `depth` the number of cases above.
pub(crate) fn put_cover(
    text: &mut String,
    depth: u32,
    simplex: &Simplex,
    new: u32,
    cover: &Covering,
) -> Result<(), AllocError>
    requires { 0 < cover.now.sheets }
    ensures { OnOk result (string_bytes text.new ≡ string_bytes text.old
        ++ cover_text depth simplex.now new cover.now.sheets cover.now.corner
        (moves_seen cover.now.moves.items)) }
{
    let last = cover.sheets - 1;
    put_indent(text, depth)?;
    write!(text, "On ")?;
    put_simplex(text, simplex)?;
    write!(
        text,
        " and its faces values lie on sheets 0 to {last}, and "
    )?;
    put_process(text, simplex, cover.corner)?;
    write!(
        text,
        " alone is on sheet 0. Value V on sheet S is called V + S * {new}. Values of one execution lie on one sheet"
    )?;
    put_moves(text, depth, simplex, &cover.moves)
}

/// Appends the moves of a cover to `text`, one on each line, or a full stop if there are none.
fn put_moves(
    text: &mut String,
    depth: u32,
    simplex: &Simplex,
    moves: &[Move],
) -> Result<(), AllocError>
    ensures { OnOk result (string_bytes text.new
        ≡ string_bytes text.old ++ moves_text depth simplex.now (moves_seen moves.now)) }
{
    if moves.is_empty() {
        writeln!(text, ".")?;
        return Ok(());
    }
    write!(text, ", but")?;
    put_each_move(text, depth, simplex, moves)?;
    writeln!(text, ".")?;
    Ok(())
}

/// Appends each move on a line of its own.
fn put_each_move(
    text: &mut String,
    depth: u32,
    simplex: &Simplex,
    moves: &[Move],
) -> Result<(), AllocError>
    ensures { OnOk result (string_bytes text.new ≡ string_bytes text.old
        ++ list_text (λ m. next_line depth (move_text simplex.now m)) (codes ",") (codes ",")
        (moves_seen moves.now)) }
{
    'moves: for (place, step) in moves.iter().enumerate() {
        put_start(text, depth, place)?;
        put_move(text, simplex, step)?;
    }
    Ok(())
}

/// Appends how sheets continue from the value at one place to the value at another.
fn put_move(text: &mut String, simplex: &Simplex, step: &Move) -> Result<(), AllocError>
    ensures { OnOk result (string_bytes text.new
        ≡ string_bytes text.old ++ move_text simplex.now (move_seen step.now)) }
{
    let sheets = step.sheets.as_slice();
    write!(text, "from {} of ", step.value)?;
    put_process(text, simplex, step.first)?;
    write!(text, " to {} of ", step.other)?;
    put_process(text, simplex, step.second)?;
    write!(text, " the sheets ")?;
    put_below(text, sheets.len())?;
    write!(text, " go to ")?;
    put_values(text, sheets, ", ", " and ")
}
