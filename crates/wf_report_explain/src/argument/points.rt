//! Listing the points that an argument uses.

ghost use Rattle.std.specs.Prelude.{◌≡◌, ◌<◌, ◌++◌, length, string_bytes, OnOk};
ghost use Rattle.std.specs.List.{slice_index_or};
ghost use Rattle.wf_model.specs.View.{base};
ghost use Rattle.wf_report_explain.specs.Argument.Text.{point_text};
ghost use Rattle.wf_report_explain.specs.Argument.Used.{marked_text, told_if};

use std::alloc::AllocError;
use std::fmt::Write;
use wf_complex::{Protocol, put_view};

/// Appends a line for each marked point, with its view in words. If `ranks` is true, processes are
/// written by their ranks.
pub(crate) fn put_points(
    text: &mut String,
    protocol: &Protocol,
    ranks: bool,
    marks: &[bool],
) -> Result<(), AllocError>
    requires { length marks.now ≡ length protocol.now.points }
    ensures { OnOk result (string_bytes text.new ≡ string_bytes text.old
        ++ marked_text ranks marks.now 0 protocol.now.points) }
{
    for point in 0..protocol.points() {
        put_if(text, protocol, ranks, point, marks[point as usize])?;
    }
    Ok(())
}

/// Appends the line of `point` if it is marked.
fn put_if(
    text: &mut String,
    protocol: &Protocol,
    ranks: bool,
    point: u32,
    is_marked: bool,
) -> Result<(), AllocError>
    requires { point < length protocol.now.points }
    ensures { OnOk result (string_bytes text.new ≡ string_bytes text.old ++ told_if is_marked
        (point_text ranks (point, slice_index_or protocol.now.points point (base 0 0)))) }
{
    if is_marked {
        put_point(text, protocol, ranks, point)?;
    }
    Ok(())
}

/// Appends the line of `point`, with its view in words.
fn put_point(
    text: &mut String,
    protocol: &Protocol,
    ranks: bool,
    point: u32,
) -> Result<(), AllocError>
    requires { point < length protocol.now.points }
    ensures { OnOk result (string_bytes text.new ≡ string_bytes text.old
        ++ point_text ranks (point, slice_index_or protocol.now.points point (base 0 0))) }
{
    write!(text, "  v{point} is ")?;
    put_view(text, protocol.views(), ranks, protocol.view_of(point))?;
    writeln!(text)?;
    Ok(())
}
