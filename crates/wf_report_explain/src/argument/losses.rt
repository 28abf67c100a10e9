//! The values that points lost, and how.

ghost use Rattle.std.specs.Prelude.{◌≡◌, map, vec_items};
ghost use Rattle.wf_report_explain.specs.Argument.ArgumentState.{loss_among, losses};

/// A value that a point lost.
#[derive(Clone, Copy, Debug, Drop)]
pub(crate) struct Loss {
    /// The value.
    pub(crate) value: u8,
    /// The step that removed the value. `None` if the value is gone because a case supposes another
    /// one.
    pub(crate) step: Option<usize>,
}

/// Returns how `value` was lost, if it is among `losses`.
pub(crate) fn loss_among(losses: &[Loss], value: u8) -> Option<Loss>
    ensures { result ≡ loss_among value losses.now }
{
    for loss in losses {
        if loss.value == value {
            return Some(*loss);
        }
    }
    None
}

/// Returns how `point` lost `value`, if it did. `gone` has the losses of each point.
pub(crate) fn loss_of(gone: &[Vec<Loss>], point: u32, value: u8) -> Option<Loss>
    ensures { result ≡ loss_among value (losses (map vec_items gone.now) point) }
{
    match gone.get(point as usize) {
        None => None,
        Some(losses) => loss_among(losses, value),
    }
}
