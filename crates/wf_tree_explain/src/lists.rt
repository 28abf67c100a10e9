//! Lists of values and tuples in words, and the beginnings of lines.

ghost use Rattle.std.specs.Prelude.{◌≡◌, ◌++◌, ◌<◌, codes, decimal, length, OnOk, string_bytes};
ghost use Rattle.wf_model.specs.Lists.{below};
ghost use Rattle.wf_tree_explain.specs.Lists.{list_text};
ghost use Rattle.wf_tree_explain.specs.Places.{before_at, separator, start_text};
ghost use Rattle.wf_tree_explain.specs.Words.{indent_text, tuples_text, values_text};

use std::alloc::AllocError;
use std::fmt::Write;
use wf_task::Row;

/// The largest number of tuples that are listed one by one.
pub(crate) const MAX_LISTED: usize = 24;

/// The largest number of cases above a line for which it is indented.
const DEEPEST: u32 = 12;

/// Returns the separator before the element at index `place` of a list of `length` elements:
/// nothing before the first, `last` before the last, and `between` before others.
pub(crate) fn separator(
    place: usize,
    length: usize,
    between: &'static str,
    last: &'static str,
) -> &'static str
    requires { place < length }
    ensures { result.now ≡ separator between.now last.now place length }
{
    if place == 0 {
        ""
    } else if place + 1 == length {
        last
    } else {
        between
    }
}

/// Returns the separator before the element at index `place`: nothing before the first, and `text`
/// before others.
pub(crate) fn before_at(text: &'static str, place: usize) -> &'static str
    ensures { result.now ≡ before_at text.now place }
{
    if place == 0 { "" } else { text }
}

/// Appends `values`, separated by `between`, and by `last` before the last one.
pub(crate) fn put_values(
    text: &mut String,
    values: &[u8],
    between: &'static str,
    last: &'static str,
) -> Result<(), AllocError>
    ensures { OnOk result (string_bytes text.new
        ≡ string_bytes text.old ++ list_text decimal between.now last.now values.now) }
{
    let length = values.len();
    for (place, value) in values.iter().enumerate() {
        let before = separator(place, length, between, last);
        write!(text, "{before}{value}")?;
    }
    Ok(())
}

/// Appends the numbers from 0 to `count - 1` as a list in words.
pub(crate) fn put_below(text: &mut String, count: usize) -> Result<(), AllocError>
    ensures { OnOk result (string_bytes text.new
        ≡ string_bytes text.old ++ list_text decimal (codes ", ") (codes " and ") (below count)) }
{
    'numbers: for number in 0..count {
        let before = separator(number, count, ", ", " and ");
        write!(text, "{before}{number}")?;
    }
    Ok(())
}

/// Appends `rows`: all of them, or the first [`MAX_LISTED`] and the number of the others.
pub(crate) fn put_rows(text: &mut String, rows: &[Row]) -> Result<(), AllocError>
    ensures { OnOk result (string_bytes text.new
        ≡ string_bytes text.old ++ tuples_text values_text rows.now) }
{
    if rows.len() <= MAX_LISTED {
        return put_each_row(text, rows, " or ");
    }
    put_each_row(text, &rows[..MAX_LISTED], ", ")?;
    let more = rows.len() - MAX_LISTED;
    write!(text, ", or one of {more} more")?;
    Ok(())
}

/// Appends each row, separated by commas and by `last` before the last one.
fn put_each_row(text: &mut String, rows: &[Row], last: &'static str) -> Result<(), AllocError>
    ensures { OnOk result (string_bytes text.new
        ≡ string_bytes text.old ++ list_text values_text (codes ", ") last.now rows.now) }
{
    let length = rows.len();
    for (place, row) in rows.iter().enumerate() {
        let before = separator(place, length, ", ", last);
        write!(text, "{before}")?;
        put_values(text, row.as_slice(), " ", " ")?;
    }
    Ok(())
}

/// Appends two spaces for each of the `depth` cases above, at most [`DEEPEST`].
pub(crate) fn put_indent(text: &mut String, depth: u32) -> Result<(), AllocError>
    ensures { OnOk result (string_bytes text.new
        ≡ string_bytes text.old ++ indent_text depth) }
{
    'cases: for _case in 0..depth.min(DEEPEST) {
        write!(text, "  ")?;
    }
    Ok(())
}

/// Begins the line of the element at index `place` of a list. The line before ends in a comma,
/// unless this is the first element.
pub(crate) fn put_start(text: &mut String, depth: u32, place: usize) -> Result<(), AllocError>
    ensures { OnOk result (string_bytes text.new
        ≡ string_bytes text.old ++ start_text depth place) }
{
    let before = before_at(",", place);
    writeln!(text, "{before}")?;
    put_indent(text, depth)?;
    write!(text, "  ")?;
    Ok(())
}
