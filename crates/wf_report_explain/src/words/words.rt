//! Writing numbers, points and tuples in words.

ghost use Rattle.std.specs.Prelude.{◌≡◌, ◌++◌, ◌<◌, ◌+◌, length, OnOk, string_bytes};
ghost use Rattle.wf_report_explain.specs.Words.Text.{any_text, counted, margin, name, needed_text, row_text, separator, tuple_text};

use std::alloc::AllocError;
use std::fmt::Write;
use wf_task::Row;

/// The largest number of tuples that are listed. More are only counted.
const MAX_LISTED: usize = 8;

/// Appends `count` and `noun`, with an `s` unless `count` is 1: `1 step`, `5 steps`.
///
/// # Errors
///
/// Returns `AllocError` if memory runs out; `text` may then have a beginning of the words.
pub fn put_count(text: &mut String, count: usize, noun: &str) -> Result<(), AllocError>
    ensures { OnOk result (string_bytes text.new
        ≡ string_bytes text.old ++ counted count noun.now) }
{
    write!(text, "{count} {noun}")?;
    if count != 1 {
        write!(text, "s")?;
    }
    Ok(())
}

/// Appends the margin of a line inside `depth` nested cases: two spaces for each, and two more.
///
/// # Errors
///
/// Returns `AllocError` if memory runs out; `text` may then have a part of the margin.
pub fn put_margin(text: &mut String, depth: u8) -> Result<(), AllocError>
    ensures { OnOk result (string_bytes text.new ≡ string_bytes text.old ++ margin depth) }
{
    for _level in 0..depth {
        write!(text, "  ")?;
    }
    write!(text, "  ")?;
    Ok(())
}

/// Returns the separator before the item at index `place` of a list of `length` items: `last`
/// before the last item, and `other` before the others. There is none before the first.
pub(crate) fn between(
    place: usize,
    length: usize,
    other: &'static str,
    last: &'static str,
) -> &'static str
    requires { place < length }
    ensures { result.now ≡ separator other.now last.now place length }
{
    if place == 0 {
        ""
    } else if place + 1 == length {
        last
    } else {
        other
    }
}

/// Appends `values` as a tuple, `(0, 1)`.
fn put_row(text: &mut String, values: &[u8]) -> Result<(), AllocError>
    ensures { OnOk result (string_bytes text.new
        ≡ string_bytes text.old ++ tuple_text values.now) }
{
    write!(text, "(")?;
    let length = values.len();
    for (place, value) in values.iter().enumerate() {
        let before = between(place, length, ", ", ", ");
        write!(text, "{before}{value}")?;
    }
    write!(text, ")")?;
    Ok(())
}

/// Appends `points` as a tuple, `(v0, v3)`.
fn put_points(text: &mut String, points: &[u32]) -> Result<(), AllocError>
    ensures { OnOk result (string_bytes text.new
        ≡ string_bytes text.old ++ row_text name points.now) }
{
    write!(text, "(")?;
    let length = points.len();
    for (place, point) in points.iter().enumerate() {
        let before = between(place, length, ", ", ", ");
        write!(text, "{before}v{point}")?;
    }
    write!(text, ")")?;
    Ok(())
}

/// Appends why an execution with `points` excludes a value: `(v0, v3) would be (1, 1)`, from the
/// tuples in `needed` that have the value, or `no tuple at (v0, v3) has it` if there are none.
///
/// More than eight tuples are only counted.
///
/// # Errors
///
/// Returns `AllocError` if memory runs out; `text` may then have a beginning of the words.
pub fn put_needed(text: &mut String, points: &[u32], needed: &[Row]) -> Result<(), AllocError>
    ensures { OnOk result (string_bytes text.new
        ≡ string_bytes text.old ++ needed_text points.now needed.now) }
{
    if needed.is_empty() {
        write!(text, "no tuple at ")?;
        put_points(text, points)?;
        write!(text, " has it")?;
        return Ok(());
    }
    put_points(text, points)?;
    write!(text, " would be ")?;
    if needed.len() > MAX_LISTED {
        write!(text, "one of ")?;
        return put_count(text, needed.len(), "tuple");
    }
    put_rows(text, needed)
}

/// Appends `rows` as alternatives, `(0, 1) or (1, 0)`.
fn put_rows(text: &mut String, rows: &[Row]) -> Result<(), AllocError>
    ensures { OnOk result (string_bytes text.new
        ≡ string_bytes text.old ++ any_text tuple_text rows.now) }
{
    let length = rows.len();
    for (place, row) in rows.iter().enumerate() {
        let before = between(place, length, ", ", " or ");
        write!(text, "{before}")?;
        put_row(text, row.as_slice())?;
    }
    Ok(())
}
