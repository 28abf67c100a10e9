//! The search stack: the boxes that a search still has to go through.

ghost use Rattle.std.specs.Prelude.{◌≡◌, ◌<◌, ◌∷◌, [], None, length, OnOk, IfOk};
ghost use Rattle.std.specs.Bool.{OnTrue, OnFalse};
ghost use Rattle.wf_model.specs.Box.{candidates, first_empty, first_open};
ghost use Rattle.wf_base.specs.Set.Sets.{values_in};
ghost use Rattle.wf_box.specs.Boxes.{IsFor, ServeFor};
ghost use Rattle.wf_box.specs.Closes.{Leaves};
ghost use Rattle.wf_box.specs.Least.{least_values};
ghost use Rattle.wf_search.specs.Outline.{Adds};
ghost use Rattle.wf_search.specs.SearchStack.{HasFirst, closed_first, first, first_branched, others};

use std::alloc::{AllocError, Global};
use std::marker::Model;
use wf_base::lines::Lines;
use wf_base::set::{Mask, is_empty, split_first};
use wf_box::{Box0, BoxCache, Closed, Mark, Problem, close};

/// An entry of the search stack: a point at which the box branched, the state of the box before
/// that, and the candidates whose branches are still to be searched.
#[derive(Clone, Copy, Debug)]
struct Frame {
    mark: Mark,
    point: u32,
    left: Mask,
}

/// The boxes of a problem that are still to be searched, in order. There is always at least one.
///
/// Only the first box exists in memory. The others are branches of its earlier states: to get to
/// the next one, the box is undone to such a state, and one candidate is chosen. This
/// representation is private to the module.
#[derive(Drop)]
pub(crate) struct SearchStack<'a> {
    problem: &'a Problem,
    current: Box0,
    // the last branching comes last, and each entry has at least one candidate left
    frames: Vec<Frame>,
}

impl<'a> Model for SearchStack<'a> {
    ghost use Rattle.wf_search.specs.SearchStack.{Boxes, IsPending, pending_seen};

    ghost Value = { Boxes };

    ghost view = { pending_seen };

    ghost invariant = { IsPending };
}

impl<'a> SearchStack<'a> {
    /// Creates the stack that has only the box `boxed`.
    pub(crate) fn of(alloc: Global, problem: &'a Problem, boxed: Box0) -> SearchStack<'a>
        requires { IsFor problem.now boxed }
        ensures { result ≡ record { problem = problem.now; boxes = boxed.sets ∷ [] } }
    {
        SearchStack {
            problem,
            current: boxed,
            frames: Vec::new(alloc),
        }
    }

    /// Closes the first box, and appends the lines of that.
    pub(crate) fn close(&mut self, alloc: Global, lines: &mut Lines) -> Result<Closed, AllocError>
        ensures lines { OnOk result
            (Adds lines.old.items lines.new.items (closed_first self.old).lines) }
        ensures leaves { IfOk result (Leaves (closed_first self.old).left (first self.new.boxes)) }
        ensures others { OnOk result (others self.new.boxes ≡ others self.old.boxes) }
        ensures problem { self.new.problem ≡ self.old.problem }
        ensures before { HasFirst self.old.boxes }
        ensures first { HasFirst self.new.boxes }
    {
        close(alloc, self.problem, &mut self.current, lines)
    }

    /// Returns the first open point of the first box.
    pub(crate) fn advance_to_open(&mut self) -> Option<u32>
        ensures found { result ≡ first_open (first self.old.boxes) }
        ensures same { self.new ≡ self.old }
    {
        self.current.advance_to_open()
    }

    /// Returns the least candidate of each point of the first box. Each point must have one.
    pub(crate) fn least_values(&self, alloc: Global) -> Result<Vec<u8>, AllocError>
        requires filled { first_empty (first self.now.boxes) ≡ None }
        ensures values { IfOk result (λ values.
            values.items ≡ least_values (first self.now.boxes)) }
    {
        self.current.least_values(alloc)
    }

    /// Replaces the first box by its branches at `point`, in ascending order of the candidates. The
    /// point must be open.
    pub(crate) fn branch(&mut self, point: u32) -> Result<(), AllocError>
        requires { 1 < length (candidates (first self.old.boxes) point) }
        ensures branches { OnOk result (self.new.boxes ≡ first_branched self.old.boxes point) }
        ensures problem { self.new.problem ≡ self.old.problem }
        ensures first { HasFirst self.new.boxes }
    {
        let values = self.current.candidates(point);
        let parts = split(values);
        let (value, left) = parts;
        self.frames.push(Frame {
            mark: self.current.mark(),
            point,
            left,
        })?;
        self.current.set(point, value);
        Ok(())
    }

    /// Drops the first box, and goes on to the next one. Returns `false`, and drops nothing, if
    /// there is no other box.
    pub(crate) fn next(&mut self) -> bool
        ensures some { OnTrue result (self.new.boxes ≡ others self.old.boxes) }
        ensures none { OnFalse result (others self.old.boxes ≡ []) }
        ensures problem { self.new.problem ≡ self.old.problem }
        ensures first { HasFirst self.new.boxes }
    {
        let Some(frame) = self.frames.pop() else {
            return false;
        };
        self.current.undo(frame.mark);
        let parts = split(frame.left);
        let (value, left) = parts;
        self.current.set(frame.point, value);
        if !is_empty(left) {
            self.frames.push_reserved(Frame { left, ..frame });
        }
        true
    }

    /// Moves the kernel cache of the box to `answers`.
    pub(crate) fn into_cache(self, answers: &mut BoxCache)
        ensures { ServeFor self.entry.problem answers.new }
    {
        let mut current = self.current;
        current.swap_cache(answers);
    }
}

/// Splits off the least value of `set`, which must not be empty.
fn split(set: Mask) -> (u8, Mask)
    requires { 0 < length (values_in set) }
    ensures { values_in set ≡ result.0 ∷ values_in result.1 }
{
    match split_first(set) {
        Some(parts) => parts,
        None => unreachable!(),
    }
}
