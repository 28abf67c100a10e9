//! The check whether a cover is flat: going round the places of any tuple takes each sheet to
//! itself.

ghost use Rattle.std.specs.Prelude.{◌≡◌, ◌<◌, ◌==◌, IfOk, length, map, slice_index_or, vec_items};
ghost use Rattle.std.specs.BTreeMap.{get};
ghost use Rattle.std.specs.Ordering.{nat_cmp};
ghost use Rattle.wf_tree_model.specs.Covers.{Covering as CoveringSeen};
ghost use Rattle.wf_tree_model.specs.Trees.{position};
ghost use Rattle.wf_tree_refine.specs.AtHand.{IsAtHand, at_hand};
ghost use Rattle.wf_tree_steps.specs.Cover.Faults.{cover_fault, cover_seen, flat_fault};
ghost use Rattle.wf_tree_steps.specs.Cover.Turns.{AreTurns, IsGoing, is_flat_between, is_flat_from, is_flat_round, is_flat_tuple, moved_by};

use crate::cover::cover::{CoverFault, Covering};
use crate::cover::turns::{DirectedMove, index_moves, move_key};
use std::alloc::{AllocError, Global};
use std::collections::BTreeMap;
use wf_task::{Row, Task};

/// A cover with an index of its moves.
#[derive(Drop)]
pub(crate) struct KeyedCovering<'a> {
    /// The cover itself.
    pub cover: &'a Covering,
    /// The moves by the keys of [`move_key`].
    pub turns: BTreeMap<u32, DirectedMove>,
}

/// Returns the first reason for which `cover` is not a valid cover of the task, in the order of the
/// variants of [`CoverFault`], or `None` if it is valid. `rows` holds the tuples of each input
/// simplex of the task.
///
/// The check looks up at most three moves for each tuple, each sheet and each three places. Its
/// memory is a map with at most two entries a move.
///
/// # Errors
///
/// Returns `AllocError` if memory runs out.
pub fn cover_fault(
    alloc: Global,
    task: &Task,
    rows: &[Vec<Row>],
    cover: &Covering,
) -> Result<Option<CoverFault>, AllocError>
    requires at_hand { IsAtHand task.now (map vec_items rows.now) }
    requires simplex { cover.now.simplex < length rows.now }
    ensures { IfOk result (λ fault. fault
        ≡ cover_fault (cover_seen (at_hand task.now (map vec_items rows.now)) cover.now)) }
{
    let simplex = cover.simplex as usize;
    let tuples = &rows[simplex];
    let size = task.inputs().simplices()[simplex].colours();
    if size < 2 {
        return Ok(Some(CoverFault::OneParticipant));
    }
    if cover.corner >= size {
        return Ok(Some(CoverFault::NoCorner));
    }
    if cover.sheets == 0 {
        return Ok(Some(CoverFault::NoSheet));
    }
    let turns = index_moves(alloc, &cover.moves)?;
    let round = KeyedCovering { cover, turns };
    Ok(flat_fault(&round, tuples))
}

/// Returns the first of `tuples` over which the cover is not flat, as a fault, or `None` if it is
/// flat over all of them.
fn flat_fault(round: &KeyedCovering<'_>, tuples: &[Row]) -> Option<CoverFault>
    requires { AreTurns round.now.cover.now.moves.items (get nat_cmp round.now.turns) }
    ensures { (c : CoveringSeen) → IsGoing c round.now.cover.now tuples.now
        → result ≡ flat_fault c 0 tuples.now }
{
    'tuples: for (place, tuple) in tuples.iter().enumerate() {
        if !is_flat_tuple(round, tuple) {
            let tuple = place as u64;
            return Some(CoverFault::NotFlat { tuple });
        }
    }
    None
}

/// Returns whether the cover is flat over `tuple`: whether going round its places takes each sheet
/// to itself.
fn is_flat_tuple(round: &KeyedCovering<'_>, tuple: &Row) -> bool
    requires { AreTurns round.now.cover.now.moves.items (get nat_cmp round.now.turns) }
    ensures { result
        ≡ is_flat_tuple round.now.cover.now.moves.items round.now.cover.now.sheets tuple.now }
{
    'places: for first in 0..tuple.size() {
        if !is_flat_from(round, tuple, first) {
            return false;
        }
    }
    true
}

/// Returns whether the cover is flat over `tuple` on all ways round that begin at the place
/// `first`.
fn is_flat_from(round: &KeyedCovering<'_>, tuple: &Row, first: u8) -> bool
    requires turns { AreTurns round.now.cover.now.moves.items (get nat_cmp round.now.turns) }
    requires first { first < length tuple.now }
    ensures { result ≡ is_flat_from round.now.cover.now.moves.items round.now.cover.now.sheets
        tuple.now first }
{
    'places: for second in 0..tuple.size() {
        if !is_flat_between(round, tuple, first, second) {
            return false;
        }
    }
    true
}

/// Returns whether the cover is flat over `tuple` on all ways from the place `first` to `second`
/// and on to a third place.
fn is_flat_between(round: &KeyedCovering<'_>, tuple: &Row, first: u8, second: u8) -> bool
    requires turns { AreTurns round.now.cover.now.moves.items (get nat_cmp round.now.turns) }
    requires first { first < length tuple.now }
    requires second { second < length tuple.now }
    ensures { result ≡ is_flat_between round.now.cover.now.moves.items round.now.cover.now.sheets
        tuple.now first second }
{
    'places: for third in 0..tuple.size() {
        if !is_flat_round(round, tuple, first, second, third) {
            return false;
        }
    }
    true
}

/// Returns whether each sheet at the place `first` continues at `third` as the same sheet by way of
/// `second` as directly, and at `second` as a sheet that exists.
fn is_flat_round(round: &KeyedCovering<'_>, tuple: &Row, first: u8, second: u8, third: u8) -> bool
    requires turns { AreTurns round.now.cover.now.moves.items (get nat_cmp round.now.turns) }
    requires first { first < length tuple.now }
    requires second { second < length tuple.now }
    requires third { third < length tuple.now }
    ensures { result ≡ is_flat_round round.now.cover.now.moves.items round.now.cover.now.sheets
        tuple.now first second third }
{
    'sheets: for sheet in 0..round.cover.sheets {
        let there = moved(round, tuple, first, second, sheet);
        if there >= usize::from(round.cover.sheets) {
            return false;
        }
        let on = moved(round, tuple, second, third, there as u8);
        if on != moved(round, tuple, first, third, sheet) {
            return false;
        }
    }
    true
}

/// Returns the sheet at the place `to` as which `sheet` at the place `from` continues, for the
/// values of `tuple` at both places. Without a move between them it is `sheet` itself.
///
/// The result may be a sheet that does not exist if the cover is not flat.
pub(crate) fn moved(round: &KeyedCovering<'_>, tuple: &Row, from: u8, to: u8, sheet: u8) -> usize
    requires turns { AreTurns round.now.cover.now.moves.items (get nat_cmp round.now.turns) }
    requires from { from < length tuple.now }
    requires to { to < length tuple.now }
    ensures { result ≡ moved_by round.now.cover.now.moves.items tuple.now from to sheet }
{
    if from == to {
        return usize::from(sheet);
    }
    let key = move_key(from, tuple.value(from), to, tuple.value(to));
    let Some((number, back)) = round.turns.get(&key).copied() else {
        return usize::from(sheet);
    };
    let sheets = round.cover.moves[number].sheets.as_slice();
    if back {
        position(sheets, sheet)
    } else {
        sheet_at(sheets, sheet)
    }
}

/// Returns the sheet at index `place` of `sheets`, or 0 past the end.
fn sheet_at(sheets: &[u8], place: u8) -> usize
    ensures { result ≡ slice_index_or sheets.now place 0 }
{
    match sheets.get(usize::from(place)) {
        Some(sheet) => usize::from(*sheet),
        None => 0,
    }
}

/// Returns the index of the first `sheet` in `sheets`, or the length of the list if there is none.
fn position(sheets: &[u8], sheet: u8) -> usize
    ensures { result ≡ position sheet sheets.now }
{
    'places: for (place, other) in sheets.iter().enumerate() {
        if *other == sheet {
            return place;
        }
    }
    sheets.len()
}
