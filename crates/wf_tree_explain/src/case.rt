//! Cases in words.

ghost use Rattle.std.specs.Prelude.{◌≡◌, ◌++◌, OnOk, string_bytes};
ghost use Rattle.wf_tree_explain.specs.Words.{case_text, part_text, parts_text};

use crate::lists::{put_indent, put_rows};
use crate::simplex::put_simplex;
use std::alloc::AllocError;
use std::fmt::Write;
use wf_simplex::Simplex;
use wf_task::Row;

/// Appends the sentence that executions on `simplex` decide tuples of one of `count` cases. `depth`
/// is the number of cases above.
pub(crate) fn put_case(
    text: &mut String,
    depth: u32,
    simplex: &Simplex,
    count: u32,
) -> Result<(), AllocError>
    ensures { OnOk result (string_bytes text.new
        ≡ string_bytes text.old ++ case_text depth simplex.now count) }
{
    put_indent(text, depth)?;
    write!(text, "On ")?;
    put_simplex(text, simplex)?;
    put_parts(text, simplex, count)
}

/// Appends the end of that sentence, which differs for a vertex and for larger simplices.
fn put_parts(text: &mut String, simplex: &Simplex, count: u32) -> Result<(), AllocError>
    ensures { OnOk result (string_bytes text.new
        ≡ string_bytes text.old ++ parts_text simplex.now count) }
{
    if simplex.colours() == 1 {
        writeln!(
            text,
            " there is one execution, which decides one of {count} values."
        )?;
    } else {
        writeln!(
            text,
            " all executions decide tuples of one part of {count}: they are joined by changes of a single view."
        )?;
    }
    Ok(())
}

/// Appends the tuples of the case `number`, which is 0-based; the text numbers cases from 1.
pub(crate) fn put_part(
    text: &mut String,
    depth: u32,
    number: u32,
    rows: &[Row],
) -> Result<(), AllocError>
    ensures { OnOk result (string_bytes text.new
        ≡ string_bytes text.old ++ part_text depth number rows.now) }
{
    let number = u64::from(number) + 1;
    put_indent(text, depth)?;
    write!(text, "Part {number}: ")?;
    put_rows(text, rows)?;
    writeln!(text, ".")?;
    Ok(())
}
