//! Views in words.

ghost use Rattle.std.specs.Prelude.{◌≡◌, ◌<◌, ◌++◌, length, string_bytes, OnOk};
ghost use Rattle.wf_model.specs.PointsText.{process_text, view_text};
ghost use Rattle.wf_complex.specs.Views.{view_at};

use crate::views::Views;
use std::alloc::AllocError;
use std::fmt::Write as _;

/// Appends the view `id` with all views inside it, such as `p1 saw {p0=0, p1=1}`. With `ranks`, its
/// processes are ranks, as in a class, and are written so: `#1 saw {#0=0, #1=1}`.
///
/// # Errors
///
/// Returns `AllocError` if memory runs out; `text` may then end in a part of the view.
pub fn put_view(text: &mut String, views: &Views, ranks: bool, id: u32) -> Result<(), AllocError>
    requires { id < length views.now }
    ensures { OnOk result (string_bytes text.new
        ≡ string_bytes text.old ++ view_text ranks (view_at views.now id)) }
{
    put_process(text, ranks, views.colour(id))?;
    if let Some(value) = views.input(id) {
        write!(text, "={value}")?;
        return Ok(());
    }
    write!(text, " saw {{")?;
    for (place, part) in views.parts(id).iter().enumerate() {
        if place > 0 {
            write!(text, ", ")?;
        }
        put_view(text, views, ranks, *part)?;
    }
    write!(text, "}}")?;
    Ok(())
}

/// Appends `process`: `#` and the rank with `ranks`, and `p` and the process otherwise.
fn put_process(text: &mut String, ranks: bool, process: u8) -> Result<(), AllocError>
    ensures { OnOk result (string_bytes text.new
        ≡ string_bytes text.old ++ process_text ranks process) }
{
    if ranks {
        write!(text, "#{process}")?;
    } else {
        write!(text, "p{process}")?;
    }
    Ok(())
}
