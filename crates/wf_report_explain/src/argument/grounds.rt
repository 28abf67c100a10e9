//! The grounds of a step: the tuples that it excludes, and why.

ghost use Rattle.std.specs.Prelude.{◌≡◌, ◌<◌, ◌≤◌, ◌∷◌, ◌++◌, [], drop, flat_map, length, map, suc, take, vec_items, IfOk, OnOk};
ghost use Rattle.wf_report_explain.specs.Argument.Seats.{point_at, steps_at, taken_at};
ghost use Rattle.wf_report_explain.specs.Argument.ArgumentState.{cites, cites_itself, first_gone, is_step, needed, taken, with_reason, with_reasons};
ghost use Rattle.wf_report_explain.specs.Argument.Trail.{state_of};

use crate::argument::losses::Loss;
use crate::argument::reasons::{Reason, add_reason, first_gone, has_at};
use crate::argument::seat::Participant;
use crate::argument::state::ArgumentState;
use std::alloc::{AllocError, Global};
use wf_task::Row;

/// The tuples that have a step's values, and the reasons why none of them is possible.
#[derive(Drop)]
pub(crate) struct Grounds {
    /// The tuples.
    pub(crate) needed: Vec<Row>,
    /// The reasons, ordered by point and then by value.
    pub(crate) reasons: Vec<Reason>,
    /// Working memory for values that are written together.
    pub(crate) room: Vec<u8>,
}

impl Grounds {
    /// Creates empty grounds.
    pub(crate) fn new(alloc: Global) -> Grounds
        ensures needed { result.needed.items ≡ [] }
        ensures reasons { result.reasons.items ≡ [] }
    {
        Grounds {
            needed: Vec::new(alloc),
            reasons: Vec::new(alloc),
            room: Vec::new(alloc),
        }
    }

    /// Chooses the values of the next step and removes them from the point of `seat`: the first of
    /// `values`, and those after it, up to but not including the first one for which the step would
    /// have to cite itself. Replaces the grounds by those of the step, and returns how many values
    /// it removes, at least one.
    pub(crate) fn choose_step(
        &mut self,
        seat: &Participant,
        values: &[u8],
        state: &mut ArgumentState,
    ) -> Result<usize, AllocError>
        requires inside { seat.now.place < length seat.now.points.now }
        requires some { 0 < length values.now }
        ensures steps { let s = state_of state.old in let x = seat.now in IfOk result (λ count.
            steps_at x s.number s.gone values.now ≡ take count values.now
            ∷ steps_at x (suc s.number) (state_of state.new).gone (drop count values.now)) }
        ensures needed { let x = seat.now in IfOk result (λ count. self.new.needed.items
            ≡ flat_map (needed x.tuples.now x.place) (take count values.now)) }
        ensures reasons { let s = state_of state.old in IfOk result (λ count.
            self.new.reasons.items ≡ (taken_at seat.now s (take count values.now)).reasons) }
        ensures state { let s = state_of state.old in IfOk result (λ count. state_of state.new
            ≡ record s { gone = (taken_at seat.now s (take count values.now)).gone }) }
        ensures some { IfOk result (λ count. 0 < count) }
        ensures within { IfOk result (λ count. count ≤ length values.now) }
        ensures values { state.new.values ≡ state.old.values }
    {
        self.needed.clear();
        self.reasons.clear();
        self.take_value(seat, values[0], state)?;
        for place in 1..values.len() {
            let value = values[place];
            if cites_itself(seat, value, state) {
                return Ok(place);
            }
            self.take_value(seat, value, state)?;
        }
        Ok(values.len())
    }

    /// Removes `value` from the point of `seat`, as part of the next step, and adds the grounds for
    /// this.
    fn take_value(
        &mut self,
        seat: &Participant,
        value: u8,
        state: &mut ArgumentState,
    ) -> Result<(), AllocError>
        requires { seat.now.place < length seat.now.points.now }
        ensures needed { let x = seat.now in OnOk result (self.new.needed.items
            ≡ self.old.needed.items ++ needed x.tuples.now x.place value) }
        ensures reasons { let x = seat.now in let needed = needed x.tuples.now x.place value in
            let gone = (state_of state.old).gone in OnOk result (self.new.reasons.items
            ≡ with_reasons gone x.points.now self.old.reasons.items needed) }
        ensures state { let s = state_of state.old in OnOk result (state_of state.new
            ≡ record s { gone = taken s.number (point_at seat.now) s.gone value }) }
        ensures values { state.new.values ≡ state.old.values }
    {
        self.note(seat, value, &state.gone)?;
        state.take(seat.points[seat.place as usize], value)?;
        Ok(())
    }

    /// Adds the tuples with `value` at the place of `seat`, and for each the reason why it is
    /// impossible. `gone` has the losses of each point.
    fn note(&mut self, seat: &Participant, value: u8, gone: &[Vec<Loss>]) -> Result<(), AllocError>
        ensures needed { let x = seat.now in OnOk result (self.new.needed.items
            ≡ self.old.needed.items ++ needed x.tuples.now x.place value) }
        ensures reasons { let x = seat.now in let needed = needed x.tuples.now x.place value in
            let gone = map vec_items gone.now in OnOk result (self.new.reasons.items
            ≡ with_reasons gone x.points.now self.old.reasons.items needed) }
    {
        for tuple in seat.tuples {
            if has_at(tuple, seat.place, value) {
                self.note_tuple(tuple, seat.points, gone)?;
            }
        }
        Ok(())
    }

    /// Adds `tuple`, and the reason why it is impossible at `points`, if one of its values is gone.
    fn note_tuple(
        &mut self,
        tuple: &Row,
        points: &[u32],
        gone: &[Vec<Loss>],
    ) -> Result<(), AllocError>
        ensures needed { OnOk result (self.new.needed.items
            ≡ self.old.needed.items ++ tuple.now ∷ []) }
        ensures reasons { OnOk result (self.new.reasons.items ≡ with_reason self.old.reasons.items
            (first_gone (map vec_items gone.now) points.now tuple.now)) }
    {
        self.needed.push(*tuple)?;
        if let Some(reason) = first_gone(gone, points, tuple.as_slice()) {
            add_reason(&mut self.reasons, reason)?;
        }
        Ok(())
    }
}

/// Returns whether the next step would have to cite itself in order to remove `value` at `seat`.
fn cites_itself(seat: &Participant, value: u8, state: &ArgumentState) -> bool
    ensures { let x = seat.now in let s = state_of state.now in
        result ≡ cites_itself x.tuples.now x.points.now s.number x.place s.gone value }
{
    for tuple in seat.tuples {
        if has_at(tuple, seat.place, value) && cites(tuple, seat.points, state) {
            return true;
        }
    }
    false
}

/// Returns whether the reason why `tuple` is impossible at `points` is the next step itself.
fn cites(tuple: &Row, points: &[u32], state: &ArgumentState) -> bool
    ensures { let s = state_of state.now in
        result ≡ cites s.number (first_gone s.gone points.now tuple.now) }
{
    match first_gone(&state.gone, points, tuple.as_slice()) {
        None => false,
        Some(reason) => is_step(state.number, reason.loss.step),
    }
}

/// Returns whether `step` is the step with this `number`.
fn is_step(number: usize, step: Option<usize>) -> bool
    ensures { result ≡ is_step number step }
{
    match step {
        None => false,
        Some(step) => number == step,
    }
}
