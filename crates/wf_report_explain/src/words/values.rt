//! Writing sets of values in words.

ghost use Rattle.std.specs.Prelude.{◌≡◌, ◌++◌, ◌<◌, ◌≤◌, ◌+◌, suc, drop, length, slice_index, OnOk, string_bytes};
ghost use Rattle.wf_base.specs.Set.Sets.{values_in};
ghost use Rattle.wf_report_explain.specs.Words.Text.{are_short, before_item, first_item, following, item_text, more_text, others_in, rest_text, values_text};

use std::alloc::AllocError;
use std::fmt::Write;
use wf_base::set::{Mask, split_first};

/// The smallest number of consecutive values that are written as a range.
const MIN_RANGE: usize = 5;

/// The largest number of items in a list of values.
const MAX_ITEMS: usize = 8;

/// The largest number of remaining values that are listed even if they are no range.
const MAX_REMAINING: usize = 4;

/// An item of a list of values: a value, or a range of consecutive values.
#[derive(Clone, Copy, Debug)]
pub(crate) struct ValueRange {
    first: u8,
    last: u8,
}

/// Appends `values`, which are ascending, as alternatives: `0, 2 or 5`.
///
/// Five or more consecutive values are written as a range, `0 to 8`. After eight items the list
/// ends with the number of the other values, as `and 14 more`.
///
/// # Errors
///
/// Returns `AllocError` if memory runs out; `text` may then have a beginning of the list.
pub fn put_values(text: &mut String, values: &[u8]) -> Result<(), AllocError>
    ensures { OnOk result (string_bytes text.new
        ≡ string_bytes text.old ++ values_text values.now) }
{
    let mut told = 0;
    for place in 0..MAX_ITEMS {
        if told >= values.len() {
            return Ok(());
        }
        let item = first_item(&values[told..]);
        told += size(item);
        put_item(text, before_item(place, values.len() - told), item)?;
    }
    put_more(text, values.len() - told)
}

/// Appends a sentence such as `So v3 is 0 or 1.` if `left`, the values that `point` still has, are
/// at most four or one range. Appends nothing if there are more, or none.
///
/// `room` is working memory, whose contents are replaced.
///
/// # Errors
///
/// Returns `AllocError` if memory runs out; `text` may then have a beginning of the sentence.
pub fn put_remaining(
    text: &mut String,
    point: u32,
    left: Mask,
    room: &mut Vec<u8>,
) -> Result<(), AllocError>
    ensures { OnOk result (string_bytes text.new
        ≡ string_bytes text.old ++ rest_text point (values_in left)) }
{
    list_values(room, left)?;
    if !is_worth_listing(room.as_slice()) {
        return Ok(());
    }
    write!(text, " So v{point} is ")?;
    put_values(text, room.as_slice())?;
    write!(text, ".")?;
    Ok(())
}

/// Replaces the contents of `values` by the elements of `set`, ascending.
///
/// # Errors
///
/// Returns `AllocError` if memory runs out; `values` then has only the first elements.
pub fn list_values(values: &mut Vec<u8>, set: Mask) -> Result<(), AllocError>
    ensures { OnOk result (values.new.items ≡ values_in set) }
{
    values.clear();
    let mut left = set;
    'values: while let Some(split) = split_first(left) {
        let (value, others) = split;
        values.push(value)?;
        left = others;
    }
    Ok(())
}

/// Returns whether there are one to four values, or a single range of them.
fn is_worth_listing(values: &[u8]) -> bool
    ensures { result ≡ are_short values.now }
{
    if values.is_empty() {
        return false;
    }
    values.len() <= MAX_REMAINING || size(first_item(values)) == values.len()
}

/// Returns the first item of the non-empty list `values`: the range with which it begins, if this
/// has at least five values, and otherwise its first value.
fn first_item(values: &[u8]) -> ValueRange
    requires { 0 < length values.now }
    ensures item { result ≡ first_item (slice_index values.now 0) (drop 1 values.now) }
    ensures ordered { result.first ≤ result.last }
    ensures within { suc (others_in result) ≤ length values.now }
{
    let first = values[0];
    let last = last_in_turn(values);
    if usize::from(last - first) + 1 < MIN_RANGE {
        return ValueRange { first, last: first };
    }
    ValueRange { first, last }
}

/// Returns the last of the consecutive values with which `values` begins.
fn last_in_turn(values: &[u8]) -> u8
    requires { 0 < length values.now }
    ensures last { result
        ≡ slice_index values.now 0 + following (slice_index values.now 0) (drop 1 values.now) }
{
    let mut last = values[0];
    for place in 1..values.len() {
        if usize::from(values[place]) != usize::from(last) + 1 {
            return last;
        }
        last = values[place];
    }
    last
}

/// Returns the number of values of `item`.
fn size(item: ValueRange) -> usize
    requires { item.first ≤ item.last }
    ensures { result ≡ suc (others_in item) }
{
    usize::from(item.last - item.first) + 1
}

/// Appends `before` and an item of a list.
fn put_item(text: &mut String, before: &str, item: ValueRange) -> Result<(), AllocError>
    ensures { OnOk result (string_bytes text.new
        ≡ string_bytes text.old ++ (before.now ++ item_text item)) }
{
    let ValueRange { first, last } = item;
    write!(text, "{before}{first}")?;
    if first != last {
        write!(text, " to {last}")?;
    }
    Ok(())
}

/// Returns the separator before the item at index `place` of a list, if `behind` values follow the
/// item.
fn before_item(place: usize, behind: usize) -> &'static str
    ensures { result.now ≡ before_item place behind }
{
    if place == 0 {
        ""
    } else if behind == 0 {
        " or "
    } else {
        ", "
    }
}

/// Appends `and N more` for the number `more` of values that are not listed, if there are any.
fn put_more(text: &mut String, more: usize) -> Result<(), AllocError>
    ensures { OnOk result (string_bytes text.new ≡ string_bytes text.old ++ more_text more) }
{
    if more > 0 {
        write!(text, " and {more} more")?;
    }
    Ok(())
}
