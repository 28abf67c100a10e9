//! The meaning of one line, from its name and its numbers.

ghost use Rattle.std.specs.Prelude.{◌≡◌, IfOk, Some, option_map, None, if◌then◌else◌, vec_items};
ghost use Rattle.wf_tree_text.specs.Steps.{line_seen};
ghost use Rattle.wf_tree_text.specs.Text.{are_others, are_sheets, balance_of, case_of, cover_of, goes_over, is_cover, line_of_numbers, move_of, multiplier_of, node_line_of, split_of};

use std::alloc::{AllocError, Global};
use wf_tree_steps::balance::{Multiplier, Others};
use wf_tree_steps::cover::Move;

/// The largest value that a process may decide.
const LARGEST: u32 = 255;

/// The last 0-based place of a simplex of four processes.
const LAST_PLACE: u32 = 3;

/// The largest number of sheets of a cover, and the largest corner: both are stored as a byte.
const MAX_BYTE: u32 = 255;

/// A parsed line: the first line of a node, or a move or multiplier that belongs to one.
#[derive(Drop, Debug)]
pub(crate) enum NodeLine {
    /// A case, with the index of its simplex.
    Case(u32),
    /// A split, with the index of its simplex.
    Split(u32),
    /// A cover, with the index of its simplex, the number of sheets and the corner.
    Cover(u32, u8, u8),
    /// A move of a cover.
    Move(Move),
    /// A balance, with its modulus and sum.
    Balance(u32, u32),
    /// A multiplier of a balance.
    Multiplier(Multiplier),
}

/// Parses the line that begins with the word `name` and goes on with `numbers`. Returns `None` if
/// there is no such line.
pub(crate) fn line_of_numbers(
    alloc: Global,
    name: &[u8],
    numbers: &[u32],
) -> Result<Option<NodeLine>, AllocError>
    ensures { IfOk result (λ line.
        option_map line_seen line ≡ line_of_numbers name.now numbers.now) }
{
    if name == b"m".as_slice() {
        return Ok(multiplier_of(numbers));
    }
    if name == b"p".as_slice() {
        return move_of(alloc, numbers);
    }
    Ok(node_line_of(name, numbers))
}

/// Parses the first line of a node. Returns `None` if `name` is not the name of a node or the
/// numbers do not fit it.
fn node_line_of(name: &[u8], numbers: &[u32]) -> Option<NodeLine>
    ensures { option_map line_seen result ≡ node_line_of name.now numbers.now }
{
    if name == b"case".as_slice() {
        return case_of(numbers);
    }
    if name == b"split".as_slice() {
        return split_of(numbers);
    }
    if name == b"cover".as_slice() {
        return cover_of(numbers);
    }
    if name == b"balance".as_slice() {
        return balance_of(numbers);
    }
    None
}

/// Parses the numbers of a case: the index of a simplex. Returns `None` if there are more or fewer
/// numbers.
fn case_of(numbers: &[u32]) -> Option<NodeLine>
    ensures { option_map line_seen result ≡ case_of numbers.now }
{
    match numbers {
        [simplex] => Some(NodeLine::Case(*simplex)),
        _ => None,
    }
}

/// Parses the numbers of a split: the index of a simplex. Returns `None` if there are more or fewer
/// numbers.
fn split_of(numbers: &[u32]) -> Option<NodeLine>
    ensures { option_map line_seen result ≡ split_of numbers.now }
{
    match numbers {
        [simplex] => Some(NodeLine::Split(*simplex)),
        _ => None,
    }
}

/// Parses the numbers of a cover: the index of a simplex, the number of sheets and the corner.
/// Returns `None` if they do not fit.
fn cover_of(numbers: &[u32]) -> Option<NodeLine>
    ensures { option_map line_seen result ≡ cover_of numbers.now }
{
    match numbers {
        [simplex, sheets, corner] if is_cover(*sheets, *corner) => {
            Some(NodeLine::Cover(*simplex, *sheets as u8, *corner as u8))
        }
        _ => None,
    }
}

/// Returns whether `sheets` and `corner` fit into a byte, and there is a sheet.
fn is_cover(sheets: u32, corner: u32) -> bool
    ensures { result ≡ is_cover sheets corner }
{
    0 < sheets && sheets <= MAX_BYTE && corner <= MAX_BYTE
}

/// Parses the numbers of a balance: its modulus and its sum. Returns `None` if there are more or
/// fewer numbers.
fn balance_of(numbers: &[u32]) -> Option<NodeLine>
    ensures { option_map line_seen result ≡ balance_of numbers.now }
{
    match numbers {
        [modulus, sum] => Some(NodeLine::Balance(*modulus, *sum)),
        _ => None,
    }
}

/// Parses the numbers of a multiplier: its weight, the index of a simplex, a place, and the values
/// of the other participants. Returns `None` if they do not fit.
fn multiplier_of(numbers: &[u32]) -> Option<NodeLine>
    ensures { option_map line_seen result ≡ multiplier_of numbers.now }
{
    let [weight, simplex, place, others @ ..] = numbers else {
        return None;
    };
    if *place > LAST_PLACE {
        return None;
    }
    let Some(others) = others_of(others) else {
        return None;
    };
    Some(NodeLine::Multiplier(Multiplier {
        simplex: *simplex,
        place: *place as u8,
        others,
        weight: *weight,
    }))
}

/// Returns `numbers` as the values of the other participants, or `None` if there are more than
/// three of them or one is above 255.
fn others_of(numbers: &[u32]) -> Option<Others>
    ensures { result ≡ (if are_others numbers.now then Some numbers.now else None) }
{
    if numbers.len() > 3 {
        return None;
    }
    let mut values = [0; 3];
    for (place, number) in numbers.iter().enumerate() {
        if *number > LARGEST {
            return None;
        }
        values[place] = *number as u8;
    }
    Some(Others::new(&values[..numbers.len()]))
}

/// Parses the numbers of a move: a place and its value, a later place and its value, and a list of
/// sheets. Returns `None` if they do not fit.
fn move_of(alloc: Global, numbers: &[u32]) -> Result<Option<NodeLine>, AllocError>
    ensures { IfOk result (λ line. option_map line_seen line ≡ move_of numbers.now) }
{
    let [first, value, second, other, sheets @ ..] = numbers else {
        return Ok(None);
    };
    if !fits_move(*first, *value, *second, *other) {
        return Ok(None);
    }
    let Some(sheets) = sheets_of(alloc, sheets)? else {
        return Ok(None);
    };
    Ok(Some(NodeLine::Move(Move {
        first: *first as u8,
        value: *value as u8,
        second: *second as u8,
        other: *other as u8,
        sheets,
    })))
}

/// Returns whether `first` and `second` are places in ascending order, and `value` and `other` are
/// at most 255.
fn fits_move(first: u32, value: u32, second: u32, other: u32) -> bool
    ensures { result ≡ goes_over first value second other }
{
    first < second && second <= LAST_PLACE && value <= LARGEST && other <= LARGEST
}

/// Returns `numbers` as the sheets of a move, or `None` if a number is not less than the length of
/// the list, or the list is longer than 255.
fn sheets_of(alloc: Global, numbers: &[u32]) -> Result<Option<Vec<u8>>, AllocError>
    ensures { IfOk result (λ sheets. option_map vec_items sheets
        ≡ (if are_sheets numbers.now then Some numbers.now else None)) }
{
    if numbers.len() > MAX_BYTE as usize {
        return Ok(None);
    }
    let mut sheets = Vec::with_capacity(alloc, numbers.len())?;
    for number in numbers {
        if *number as usize >= numbers.len() {
            return Ok(None);
        }
        sheets.push(*number as u8)?;
    }
    Ok(Some(sheets))
}
