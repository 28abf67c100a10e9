//! The reasons of a step: values that points lost before.

ghost use Rattle.std.specs.Prelude.{◌≡◌, ◌||◌, ℕ, map, vec_items, OnOk};
ghost use Rattle.wf_model.specs.Box.{has_at};
ghost use Rattle.wf_model.specs.Lists.{has, with_element};
ghost use Rattle.wf_base.specs.Set.Sets.{values_in};
ghost use Rattle.wf_report_explain.specs.Argument.ArgumentState.{first_gone, occurs, reason_cmp};

use crate::argument::losses::{Loss, loss_of};
use std::alloc::AllocError;
use std::cmp::Ordering;
use wf_base::set::{Mask, empty, with};
use wf_task::Row;

/// The reason why a tuple is impossible: a point lost the value that the tuple has there.
#[derive(Clone, Copy, Debug, Drop)]
pub(crate) struct Reason {
    /// The point.
    pub(crate) point: u32,
    /// The lost value, and the step that removed it.
    pub(crate) loss: Loss,
}

/// Returns whether `tuple` has `value` at `place`.
#[tactic(auto, using(wf_model::proofs::Tuples::has_at_past, wf_model::proofs::Tuples::has_at_place))]
pub(crate) fn has_at(tuple: &Row, place: u8, value: u8) -> bool
    ensures { result ≡ has_at tuple.now place value }
{
    if place >= tuple.size() {
        return false;
    }
    tuple.value(place) == value
}

/// Returns the set of the values that `tuples` have at `place`.
pub(crate) fn values_at(tuples: &[Row], place: u8) -> Mask
    ensures { (v : ℕ) → has (values_in result) v ≡ occurs tuples.now place v }
{
    let mut set = empty();
    for tuple in tuples {
        let more = with_value(set, tuple, place);
        set = more;
    }
    set
}

/// Returns `set` with the value of `tuple` at `place`, if there is one.
fn with_value(set: Mask, tuple: &Row, place: u8) -> Mask
    ensures { (v : ℕ) → has (values_in result) v
        ≡ (has (values_in set) v || has_at tuple.now place v) }
{
    if place < tuple.size() {
        with(set, tuple.value(place))
    } else {
        set
    }
}

/// Returns the reason why `tuple` is impossible at `points`: the first of its values that is gone.
/// `gone` has the losses of each point. Returns `None` if no value is gone.
pub(crate) fn first_gone(gone: &[Vec<Loss>], points: &[u32], tuple: &[u8]) -> Option<Reason>
    ensures { result ≡ first_gone (map vec_items gone.now) points.now tuple.now }
{
    for (place, point) in points.iter().enumerate() {
        if place >= tuple.len() {
            return None;
        }
        if let Some(loss) = loss_of(gone, *point, tuple[place]) {
            return Some(Reason {
                point: *point,
                loss,
            });
        }
    }
    None
}

/// Inserts `reason` into `reasons`, which are in order, unless it is there.
pub(crate) fn add_reason(reasons: &mut Vec<Reason>, reason: Reason) -> Result<(), AllocError>
    ensures { OnOk result (reasons.new.items
        ≡ with_element reason_cmp reason reasons.old.items) }
{
    for place in 0..reasons.len() {
        match compare(&reason, &reasons[place]) {
            Ordering::Less => {
                reasons.insert(place, reason)?;
                return Ok(());
            }
            Ordering::Equal => return Ok(()),
            Ordering::Greater => {}
        }
    }
    reasons.push(reason)?;
    Ok(())
}

/// Compares two reasons by point, and then by value.
fn compare(a: &Reason, b: &Reason) -> Ordering
    ensures { result ≡ reason_cmp a.now b.now }
{
    match a.point.cmp(&b.point) {
        Ordering::Equal => a.loss.value.cmp(&b.loss.value),
        other => other,
    }
}
