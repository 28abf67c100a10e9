//! Writing the reasons of a step in words.

ghost use Rattle.std.specs.Prelude.{◌≡◌, ◌==◌, ◌&&◌, ◌<◌, ◌≤◌, ◌∷◌, ◌++◌, drop, length, IfOk, OnOk, string_bytes};
ghost use Rattle.wf_report_explain.specs.Argument.Text.{lead_text, origin_text, reasons_from, reasons_text, same_origin, values_beside};

use crate::argument::reasons::Reason;
use crate::words::put_values;
use std::alloc::AllocError;
use std::fmt::Write;

/// Appends `reasons`, which are ordered by point. Values that a point lost by the same step are
/// written together.
///
/// `room` is working memory, whose contents are replaced.
pub(crate) fn put_reasons(
    text: &mut String,
    reasons: &[Reason],
    room: &mut Vec<u8>,
) -> Result<(), AllocError>
    ensures { OnOk result (string_bytes text.new
        ≡ string_bytes text.old ++ reasons_text reasons.now) }
{
    let mut before = None;
    let mut told = 0;
    'reasons: while told < reasons.len() {
        told += put_same_origin(text, &mut before, &reasons[told..], room)?;
    }
    Ok(())
}

/// Appends the first of `reasons` and those after it that have the same point and step. Returns
/// their number. `before` is the point that was written last, if any.
fn put_same_origin(
    text: &mut String,
    before: &mut Option<u32>,
    reasons: &[Reason],
    room: &mut Vec<u8>,
) -> Result<usize, AllocError>
    requires { 0 < length reasons.now }
    ensures text { IfOk result (λ count.
        string_bytes text.new ++ reasons_from before.new 0 (drop count reasons.now)
        ≡ string_bytes text.old ++ reasons_from before.old 0 reasons.now) }
    ensures some { IfOk result (λ count. 0 < count) }
    ensures within { IfOk result (λ count. count ≤ length reasons.now) }
{
    let first = reasons[0];
    set_beside(room, first, &reasons[1..])?;
    let values = room.as_slice();
    put_lead(text, *before, first.point)?;
    put_values(text, values)?;
    put_origin(text, first.loss.step)?;
    *before = Some(first.point);
    Ok(values.len())
}

/// Replaces `values` by the value of `first` and those of the reasons at the front of `reasons`
/// with the same point and step.
fn set_beside(values: &mut Vec<u8>, first: Reason, reasons: &[Reason]) -> Result<(), AllocError>
    ensures { OnOk result (values.new.items
        ≡ first.loss.value ∷ values_beside first reasons.now) }
{
    values.clear();
    values.push(first.loss.value)?;
    for reason in reasons {
        if !has_same_origin(&first, reason) {
            return Ok(());
        }
        values.push(reason.loss.value)?;
    }
    Ok(())
}

/// Returns whether two reasons have the same point and the same step.
fn has_same_origin(a: &Reason, b: &Reason) -> bool
    ensures { result ≡ ((a.now.point == b.now.point)
        && same_origin a.now.loss.step b.now.loss.step) }
{
    a.point == b.point && same_origin(a.loss.step, b.loss.step)
}

/// Returns whether two values were lost by the same step, or both by the supposition of a case.
fn same_origin(a: Option<usize>, b: Option<usize>) -> bool
    ensures { result ≡ same_origin a b }
{
    match (a, b) {
        (None, None) => true,
        (Some(m), Some(n)) => m == n,
        _ => false,
    }
}

/// Appends the text before the values of a reason: its `point`, unless the reason before is about
/// the same one.
fn put_lead(text: &mut String, before: Option<u32>, point: u32) -> Result<(), AllocError>
    ensures { OnOk result (string_bytes text.new
        ≡ string_bytes text.old ++ lead_text before point) }
{
    match before {
        None => write!(text, ", but v{point} is not ")?,
        Some(other) if other == point => write!(text, ", ")?,
        Some(_) => write!(text, ", and v{point} is not ")?,
    }
    Ok(())
}

/// Appends the number of the step that removed values, as `[2]`, or `in this case` if a case
/// supposes them away.
fn put_origin(text: &mut String, step: Option<usize>) -> Result<(), AllocError>
    ensures { OnOk result (string_bytes text.new ≡ string_bytes text.old ++ origin_text step) }
{
    match step {
        None => write!(text, " in this case")?,
        Some(step) => write!(text, " [{step}]")?,
    }
    Ok(())
}
