//! Splits in words.

ghost use Rattle.std.specs.Prelude.{◌≡◌, ◌++◌, ◌<◌, All, IfOk, OnOk, codes, length, map, slice_index, string_bytes};
ghost use Rattle.wf_tree_model.specs.Splits.{value_of_part};
ghost use Rattle.wf_tree_model.specs.Trees.{largest};
ghost use Rattle.wf_tree_explain.specs.Lists.{list_text};
ghost use Rattle.wf_tree_explain.specs.Calls.{AreInside, IsRenamed, call_seen, calls_seen, splitting_of};
ghost use Rattle.wf_tree_explain.specs.Words.{call_text, called, calls_of, calls_text, new_names, next_line, split_text};

use crate::lists::{put_indent, put_rows, put_start};
use crate::simplex::put_simplex;
use std::alloc::{AllocError, Global};
use std::fmt::Write;
use wf_simplex::Simplex;
use wf_task::Row;

/// A split of a simplex: its tuples before and after.
#[derive(Drop)]
pub(crate) struct Renamed<'a> {
    /// The simplex.
    pub simplex: &'a Simplex,
    /// The tuples of the simplex.
    pub rows: &'a [Row],
    /// The tuples with names in place of values, in the same order.
    pub named: &'a [Row],
    /// The first new name.
    pub new: u32,
}

/// A new name that a split gives to a value at a place of a simplex.
#[derive(Clone, Copy, Drop)]
struct Call {
    /// The place.
    place: u8,
    /// The name.
    name: u8,
}

/// Describes in `text` a split, with its new names. `depth` is the number of cases above.
pub(crate) fn put_split(
    alloc: Global,
    text: &mut String,
    depth: u32,
    renamed: &Renamed<'_>,
) -> Result<(), AllocError>
    requires { IsRenamed renamed.now }
    ensures { OnOk result (string_bytes text.new ≡ string_bytes text.old
        ++ split_text depth (splitting_of renamed.now) renamed.now.new) }
{
    let calls = calls_of(alloc, renamed)?;
    put_indent(text, depth)?;
    write!(text, "On ")?;
    put_simplex(text, renamed.simplex)?;
    put_calls(alloc, text, depth, renamed, &calls)
}

/// Returns the new names at all places.
fn calls_of(alloc: Global, renamed: &Renamed<'_>) -> Result<Vec<Call>, AllocError>
    requires { IsRenamed renamed.now }
    ensures calls { IfOk result (λ calls.
        calls_seen calls.items ≡ calls_of (splitting_of renamed.now) renamed.now.new) }
    ensures inside { IfOk result (λ calls. AreInside renamed.now calls.items) }
{
    let mut calls = Vec::new(alloc);
    'places: for place in 0..renamed.simplex.colours() {
        add_calls(&mut calls, renamed, place)?;
    }
    Ok(calls)
}

/// Appends to `calls` the new names at `place`.
fn add_calls(calls: &mut Vec<Call>, renamed: &Renamed<'_>, place: u8) -> Result<(), AllocError>
    requires renamed { IsRenamed renamed.now }
    requires place { place < length renamed.now.simplex.now }
    requires inside { AreInside renamed.now calls.old.items }
    ensures calls { OnOk result (calls_seen calls.new.items ≡ calls_seen calls.old.items
        ++ map (λ name. (place, name))
        (new_names (splitting_of renamed.now) renamed.now.new place)) }
    ensures inside { OnOk result (AreInside renamed.now calls.new.items) }
{
    let above = u32::from(largest_at(renamed.named, place)) + 1;
    'names: for number in renamed.new..above {
        let name = number as u8;
        calls.push(Call { place, name })?;
    }
    Ok(())
}

/// Returns the largest value at `place` in `rows`, or 0 if there are no rows.
fn largest_at(rows: &[Row], place: u8) -> u8
    requires { All (λ row. place < length row) rows.now }
    ensures { result ≡ largest (map (λ row. slice_index row place) rows.now) }
{
    let mut most = 0;
    'rows: for row in rows {
        most = row.value(place).max(most);
    }
    most
}

/// Appends the new names, one on each line, or that the split changes nothing.
fn put_calls(
    alloc: Global,
    text: &mut String,
    depth: u32,
    renamed: &Renamed<'_>,
    calls: &[Call],
) -> Result<(), AllocError>
    requires renamed { IsRenamed renamed.now }
    requires inside { AreInside renamed.now calls.now }
    ensures { OnOk result (string_bytes text.new ≡ string_bytes text.old
        ++ calls_text depth (splitting_of renamed.now) (calls_seen calls.now)) }
{
    if calls.is_empty() {
        writeln!(text, " no value is taken apart.")?;
        return Ok(());
    }
    write!(
        text,
        " and its faces a value has a name of its own for each part of what is decided beside it:"
    )?;
    put_each_call(alloc, text, depth, renamed, calls)?;
    writeln!(text, ".")?;
    Ok(())
}

/// Appends each new name on a line of its own.
fn put_each_call(
    alloc: Global,
    text: &mut String,
    depth: u32,
    renamed: &Renamed<'_>,
    calls: &[Call],
) -> Result<(), AllocError>
    requires renamed { IsRenamed renamed.now }
    requires inside { AreInside renamed.now calls.now }
    ensures { OnOk result (string_bytes text.new ≡ string_bytes text.old
        ++ list_text (λ call. next_line depth (call_text (splitting_of renamed.now) call))
        (codes ",") (codes ",") (calls_seen calls.now)) }
{
    'calls: for (number, call) in calls.iter().enumerate() {
        put_start(text, depth, number)?;
        put_call(alloc, text, renamed, call)?;
    }
    Ok(())
}

/// Appends the value that a new name stands for, its process, and the tuples in which the name is
/// used.
fn put_call(
    alloc: Global,
    text: &mut String,
    renamed: &Renamed<'_>,
    call: &Call,
) -> Result<(), AllocError>
    requires renamed { IsRenamed renamed.now }
    requires inside { call.now.place < length renamed.now.simplex.now }
    ensures { OnOk result (string_bytes text.new ≡ string_bytes text.old
        ++ call_text (splitting_of renamed.now) (call_seen call.now)) }
{
    let rows = called(alloc, renamed, *call)?;
    let value = first_value(&rows, call.place);
    let process = renamed.simplex.colour(call.place);
    let name = call.name;
    write!(text, "{value} of p{process} is called {name} in ")?;
    put_rows(text, &rows)
}

/// Returns the value at `place` in the first of `rows`, or 0 if there are no rows.
fn first_value(rows: &[Row], place: u8) -> u8
    requires { All (λ row. place < length row) rows.now }
    ensures { result ≡ value_of_part place rows.now }
{
    match rows.first() {
        Some(row) => row.value(place),
        None => 0,
    }
}

/// Returns the tuples, before the split, whose value at the place of `call` gets the name of
/// `call`.
fn called(alloc: Global, renamed: &Renamed<'_>, call: Call) -> Result<Vec<Row>, AllocError>
    requires renamed { IsRenamed renamed.now }
    requires inside { call.place < length renamed.now.simplex.now }
    ensures called { IfOk result (λ rows.
        rows.items ≡ called (splitting_of renamed.now) call.place call.name) }
    ensures long { IfOk result (λ rows.
        All (λ row. length row ≡ length renamed.now.simplex.now) rows.items) }
{
    let mut rows = Vec::new(alloc);
    'rows: for (number, row) in renamed.rows.iter().enumerate() {
        if renamed.named[number].value(call.place) == call.name {
            rows.push(*row)?;
        }
    }
    Ok(rows)
}
