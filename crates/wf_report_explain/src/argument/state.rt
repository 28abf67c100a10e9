//! The state of an argument: which values are gone, and which cases are still to come.
//!
//! The losses of the points are kept once, not for each case. A trail records the losses of the
//! open cases, and for each branching the values whose cases are still to come. So the memory grows
//! with the number of lines and points, and not with their product.

ghost use Rattle.std.specs.Prelude.{◌≡◌, ◌==◌, ◌<◌, ◌∷◌, ◌++◌, [], filter, length, map, min, not, replicate, take, vec_items, IfOk, OnOk};
ghost use Rattle.std.specs.List.{slice_set};
ghost use Rattle.wf_model.specs.Problem.{Problem};
ghost use Rattle.wf_base.specs.Set.Sets.{values_in};
ghost use Rattle.wf_report_explain.specs.Argument.ArgumentState.{case_of, cases_at, entered, has_loss, in_this_case, left_at, losses, start, taken, with_losses};
ghost use Rattle.wf_report_explain.specs.Argument.Trail.{begun, first_case, losing, state_of, values_of};

use crate::argument::losses::{Loss, loss_of};
use std::alloc::{AllocError, Global};
use wf_base::set::{Mask, is_empty, split_first, without};

/// The depth of nested cases above which lines are not indented any further.
const DEEPEST: u8 = 12;

/// An entry of the trail: what has to be undone to return to an earlier state.
#[derive(Clone, Copy, Debug, Drop)]
pub(crate) enum UndoStep {
    /// A value was excluded at a point. To undo this, the point's list of losses is cut to its
    /// former length.
    Lost {
        /// The point's index.
        point: u32,
        /// The number of losses of the point before.
        before: usize,
    },
    /// A branching, with the values of its point whose cases are still to come.
    Later {
        /// The point that the cases suppose a value of.
        point: u32,
        /// The depth of the cases, counted up to 12.
        depth: u8,
        /// The values.
        values: Mask,
    },
}

/// A case that has begun: a point is supposed to have a value.
#[derive(Clone, Copy, Debug, Drop)]
pub(crate) struct Case {
    /// The point.
    pub(crate) point: u32,
    /// The value that the point is supposed to have.
    pub(crate) value: u8,
    /// The depth of the case, counted up to 12.
    pub(crate) depth: u8,
}

/// The state of the written argument after some of its steps: the values that are excluded at each
/// point so far, and the trail to go back from a case.
#[derive(Drop)]
pub(crate) struct ArgumentState {
    /// The number of the next step, counted from 1.
    pub(crate) number: usize,
    /// The number of nested cases around the next part, counted up to 12.
    pub(crate) depth: u8,
    /// The losses of each point.
    pub(crate) gone: Vec<Vec<Loss>>,
    /// The output values that each point may have at first.
    pub(crate) values: Mask,
    /// The trail: losses and branchings, oldest first.
    pub(crate) trail: Vec<UndoStep>,
}

impl ArgumentState {
    /// Creates the state at the beginning, in which no value is gone from any of `points` points.
    pub(crate) fn start(
        alloc: Global,
        points: u32,
        values: Mask,
    ) -> Result<ArgumentState, AllocError>
        ensures state { (p : Problem) → p.points ≡ points
            → IfOk result (λ state. state_of state ≡ start p) }
        ensures values { IfOk result (λ state. values_of state ≡ values_in values) }
    {
        Ok(ArgumentState {
            number: 1,
            depth: 0,
            gone: nothing_gone(alloc, points)?,
            values,
            trail: Vec::new(alloc),
        })
    }

    /// Returns the values that `point` has left.
    pub(crate) fn left(&self, point: u32) -> Mask
        ensures { values_in result
            ≡ left_at (values_of self.now) (state_of self.now).gone point }
    {
        match self.gone.get(point as usize) {
            None => self.values,
            Some(losses) => left_after(self.values, losses),
        }
    }

    /// Excludes `value` at `point`, with the number of the current step as the reason, unless it is
    /// excluded already.
    pub(crate) fn take(&mut self, point: u32, value: u8) -> Result<(), AllocError>
        ensures state { let s = state_of self.old in OnOk result (state_of self.new
            ≡ record s { gone = taken s.number point s.gone value }) }
        ensures values { self.new.values ≡ self.old.values }
    {
        if loss_of(&self.gone, point, value).is_some() {
            return Ok(());
        }
        let step = Some(self.number);
        self.lose(point, Loss { value, step })?;
        Ok(())
    }

    /// Makes a case for each value that `point` has left, and begins the case of the least one. If
    /// `point` has no value left, undoes the current case and begins the next one on the trail
    /// instead. Returns the case that begins, or `None` if there is none left.
    pub(crate) fn split(&mut self, point: u32) -> Result<Option<Case>, AllocError>
        ensures case { let s = state_of self.old in
            let cases = cases_at (values_of self.old) s point ++ s.later in
            IfOk result (λ case. case ≡ first_case cases) }
        ensures state { let s = state_of self.old in
            let cases = cases_at (values_of self.old) s point ++ s.later in
            IfOk result (λ case. begun case self.new ≡ entered s.number cases) }
        ensures number { self.new.number ≡ self.old.number }
        ensures values { self.new.values ≡ self.old.values }
    {
        let depth = self.depth.saturating_add(1).min(DEEPEST);
        let values = self.left(point);
        self.trail.push(UndoStep::Later {
            point,
            depth,
            values,
        })?;
        self.next()
    }

    /// Undoes the current case and begins the next one on the trail. Returns the case that begins,
    /// or `None` if there is none left.
    pub(crate) fn next(&mut self) -> Result<Option<Case>, AllocError>
        ensures case { IfOk result (λ case. case ≡ first_case (state_of self.old).later) }
        ensures state { let s = state_of self.old in
            IfOk result (λ case. begun case self.new ≡ entered s.number s.later) }
        ensures number { self.new.number ≡ self.old.number }
        ensures values { self.new.values ≡ self.old.values }
    {
        'back: while let Some(entry) = self.trail.pop() {
            match entry {
                UndoStep::Lost { point, before } => give_back(&mut self.gone, point, before),
                UndoStep::Later {
                    point,
                    depth,
                    values,
                } => {
                    if !is_empty(values) {
                        let case = self.enter(point, depth, values)?;
                        return Ok(Some(case));
                    }
                }
            }
        }
        Ok(None)
    }

    /// Begins the case that `point` has the least of `values`, at depth `depth`. The cases of the
    /// other values are put on the trail.
    fn enter(&mut self, point: u32, depth: u8, values: Mask) -> Result<Case, AllocError>
        requires { 0 < length (values_in values) }
        ensures case { let s = state_of self.old in
            let cases = map (case_of (values_of self.old) depth s.gone point) (values_in values) in
            IfOk result (λ case. Some case ≡ first_case (cases ++ s.later)) }
        ensures state { let s = state_of self.old in
            let cases = map (case_of (values_of self.old) depth s.gone point) (values_in values) in
            OnOk result (Some (state_of self.new) ≡ entered s.number (cases ++ s.later)) }
        ensures number { self.new.number ≡ self.old.number }
        ensures values { self.new.values ≡ self.old.values }
    {
        let Some(split) = split_first(values) else {
            unreachable!();
        };
        let (value, others) = split;
        let lost = without(self.left(point), value);
        self.trail.push(UndoStep::Later {
            point,
            depth,
            values: others,
        })?;
        self.depth = depth;
        self.suppose(point, lost)?;
        Ok(Case {
            point,
            value,
            depth,
        })
    }

    /// Removes the values in `lost` from `point` because the current case supposes another value.
    fn suppose(&mut self, point: u32, lost: Mask) -> Result<(), AllocError>
        ensures state { OnOk result (state_of self.new
            ≡ losing (state_of self.old) point (map in_this_case (values_in lost))) }
        ensures number { self.new.number ≡ self.old.number }
        ensures values { self.new.values ≡ self.old.values }
    {
        let mut left = lost;
        'lost: while let Some(split) = split_first(left) {
            let (value, others) = split;
            self.lose(point, Loss { value, step: None })?;
            left = others;
        }
        Ok(())
    }

    /// Adds `loss` to those of `point`, and records it on the trail.
    fn lose(&mut self, point: u32, loss: Loss) -> Result<(), AllocError>
        ensures state { OnOk result (state_of self.new
            ≡ losing (state_of self.old) point (loss ∷ [])) }
        ensures number { self.new.number ≡ self.old.number }
        ensures values { self.new.values ≡ self.old.values }
    {
        if (point as usize) < self.gone.len() {
            let before = self.gone[point as usize].len();
            self.trail.push(UndoStep::Lost { point, before })?;
            add_loss(&mut self.gone, point as usize, loss)?;
        }
        Ok(())
    }
}

/// Returns an empty list of losses for each of `points` points.
fn nothing_gone(alloc: Global, points: u32) -> Result<Vec<Vec<Loss>>, AllocError>
    ensures { IfOk result (λ gone. map vec_items gone.items ≡ replicate points []) }
{
    let mut gone = Vec::new(alloc);
    for _point in 0..points {
        gone.push(Vec::new(alloc))?;
    }
    Ok(gone)
}

/// Appends `loss` to those of `point`.
fn add_loss(gone: &mut Vec<Vec<Loss>>, point: usize, loss: Loss) -> Result<(), AllocError>
    requires { point < length gone.old.items }
    ensures { OnOk result (map vec_items gone.new.items
        ≡ with_losses (map vec_items gone.old.items) point (loss ∷ [])) }
{
    gone[point].push(loss)?;
    Ok(())
}

/// Returns `values` without those in `losses`.
fn left_after(values: Mask, losses: &[Loss]) -> Mask
    ensures { values_in result ≡ filter (λ a. not (has_loss a losses.now)) (values_in values) }
{
    let mut left = values;
    for loss in losses {
        leave_out(&mut left, loss.value);
    }
    left
}

/// Removes `value` from `set`.
fn leave_out(set: &mut Mask, value: u8)
    ensures { values_in set.new ≡ filter (λ b. not (b == value)) (values_in set.old) }
{
    *set = without(*set, value);
}

/// Drops all losses of `point` but the first `before`.
fn give_back(gone: &mut Vec<Vec<Loss>>, point: u32, before: usize)
    ensures { let old = map vec_items gone.old.items in
        map vec_items gone.new.items ≡ slice_set old point (take before (losses old point)) }
{
    if (point as usize) < gone.len() {
        gone[point as usize].truncate(before);
    }
}
