//! Listing the points of a protocol complex in words.

ghost use Rattle.std.specs.Prelude.{◌≡◌, ◌++◌, ◌<◌, IfOk, OnOk, string_bytes, length, slice_get};
ghost use Rattle.wf_model.specs.PointsText.{decision_text, point_text, points_text};
ghost use Rattle.wf_complex.specs.Views.{view_at};
ghost use Rattle.wf_complex.specs.Protocol.{IsProtocol};

use std::alloc::{AllocError, Global};
use std::fmt::Write as _;
use wf_complex::{Protocol, put_view};
use wf_task::Task;

/// Returns a text with a line for each point of `protocol`: its index, its view in words, and its
/// value in `map`, if it has one, as in `3 p1 saw {p0=0, p1=0} decides 1`. An empty `map` gives a
/// list without values.
///
/// # Errors
///
/// Returns `AllocError` if memory runs out.
pub fn write_points(
    alloc: Global,
    task: &Task,
    protocol: &Protocol,
    map: &[u8],
) -> Result<Vec<u8>, AllocError>
    requires { IsProtocol task.now protocol.now.rounds protocol.now }
    ensures { IfOk result
        (λ text. text.items ≡ points_text task.now protocol.now.rounds map.now) }
{
    let mut text = String::new(alloc);
    let ranks = task.symmetric();
    for point in 0..protocol.points() {
        put_point(&mut text, protocol, ranks, map, point)?;
    }
    Ok(text.into_bytes())
}

/// Appends the line of `point` to `text`. If `ranks` is true, processes are written by their ranks.
fn put_point(
    text: &mut String,
    protocol: &Protocol,
    ranks: bool,
    map: &[u8],
    point: u32,
) -> Result<(), AllocError>
    requires { point < length protocol.now.points }
    ensures { OnOk result (string_bytes text.new ≡ string_bytes text.old
        ++ point_text ranks map.now (point, view_at protocol.now.points point)) }
{
    write!(text, "{point} ")?;
    put_view(text, protocol.views(), ranks, protocol.view_of(point))?;
    put_decision(text, decision_at(map, point))?;
    writeln!(text)?;
    Ok(())
}

/// Returns the value of `map` at `point`, or `None` if it has none.
fn decision_at(map: &[u8], point: u32) -> Option<u8>
    ensures { result ≡ slice_get map.now point }
{
    map.get(point as usize).copied()
}

/// Appends the word `decides` and the value to `text`, if there is a value.
fn put_decision(text: &mut String, decided: Option<u8>) -> Result<(), AllocError>
    ensures { OnOk result (string_bytes text.new
        ≡ string_bytes text.old ++ decision_text decided) }
{
    if let Some(value) = decided {
        write!(text, " decides {value}")?;
    }
    Ok(())
}
