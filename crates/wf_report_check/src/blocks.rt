//! The box that the checked lines are about, and a trail back to the boxes that are still to be
//! refuted.
//!
//! There is only one box in memory, a set of candidates for each point. The trail holds the
//! candidates that the open blocks removed, and for each open block the values whose blocks are
//! still to come. So the number of candidates bounds the memory that a certificate can ask for,
//! however many lines it has.

ghost use Rattle.std.specs.Prelude.{◌≡◌, ◌==◌, ◌<◌, ◌++◌, ◌∷◌, [], true, nat_lt, length, map, IfOk, OnOk};
ghost use Rattle.std.specs.List.{slice_set};
ghost use Rattle.std.specs.Cmp.Lexicographic.{pointwise};
ghost use Rattle.wf_model.specs.Box.{branches_at, candidates, decided, first_open, without};
ghost use Rattle.wf_model.specs.Check.{is_exactly};
ghost use Rattle.wf_base.specs.Set.Sets.{values_in};
ghost use Rattle.wf_report_check.specs.Blocks.{box_now, boxes_later, boxes_left, HasSamePoints};

use crate::boxes::{Blocks, TrailEntry};
use std::alloc::{AllocError, Global};
use wf_base::set::{Mask, contains, has_two, is_empty, singleton, split_first, without};

impl Blocks {
    /// Creates a state in which the box `sets`, a set of candidates for each point, is the only one
    /// to refute.
    pub(crate) fn of(alloc: Global, sets: Vec<Mask>) -> Blocks
        ensures sets { result.sets.items ≡ sets.items }
        ensures alone { result.trail.items ≡ [] }
    {
        Blocks {
            sets,
            trail: Vec::new(alloc),
            low: 0,
        }
    }

    /// Returns the candidates of each point in the current box.
    pub(crate) fn sets(&self) -> &[Mask]
        ensures { result.now ≡ self.now.sets.items }
    {
        &self.sets
    }

    /// Returns the first point with two candidates or more, if there is one.
    pub(crate) fn first_open(&mut self) -> Option<usize>
        ensures open { result ≡ first_open (box_now self.old) }
        ensures sets { self.new.sets ≡ self.old.sets }
        ensures later { boxes_later self.new ≡ boxes_later self.old }
    {
        for point in self.low..self.sets.len() {
            if has_two(self.sets[point]) {
                self.low = point;
                return Some(point);
            }
        }
        None
    }

    /// Returns whether `values` has one value for each point, and each point has its value as its
    /// only candidate.
    pub(crate) fn is_exactly(&self, values: &[u8]) -> bool
        ensures { result ≡ is_exactly values.now (box_now self.now) }
    {
        if values.len() != self.sets.len() {
            return false;
        }
        for (point, value) in values.iter().enumerate() {
            if !is_only(self.sets[point], *value) {
                return false;
            }
        }
        true
    }

    /// Removes the candidate `value` of `point`. Nothing changes if it is no candidate.
    pub(crate) fn take_out(&mut self, point: u32, value: u8) -> Result<(), AllocError>
        requires { point < length self.old.sets.items }
        ensures boxed { OnOk result (box_now self.new ≡ without (box_now self.old) point value) }
        ensures later { OnOk result (boxes_later self.new ≡ boxes_later self.old) }
        ensures points { HasSamePoints self.old self.new }
    {
        let set = self.sets[point as usize];
        if contains(set, value) {
            self.change(point, without(set, value))?;
        }
        Ok(())
    }

    /// Branches at `point`: enters the block of its least candidate, and leaves those of the others
    /// for later. Returns `false`, and changes nothing, if the point has fewer than two candidates.
    pub(crate) fn open(&mut self, point: u32) -> Result<bool, AllocError>
        requires { point < length self.old.sets.items }
        ensures opened { IfOk result (λ opened.
            opened ≡ nat_lt 1 (length (candidates (box_now self.old) point))) }
        ensures boxes { IfOk result (λ opened. opened ≡ true
            → box_now self.new ∷ boxes_later self.new
            ≡ branches_at (box_now self.old) point ++ boxes_later self.old) }
        ensures points { HasSamePoints self.old self.new }
    {
        let set = self.sets[point as usize];
        if !has_two(set) {
            return Ok(false);
        }
        self.enter(point, set)?;
        Ok(true)
    }

    /// Ends the current block: undoes its removals and enters the block of the next value of the
    /// innermost branching that has one. Returns `false` if no block remains.
    pub(crate) fn next(&mut self) -> Result<bool, AllocError>
        ensures boxes { IfOk result (λ going. boxes_left going self.new ≡ boxes_later self.old) }
        ensures points { HasSamePoints self.old self.new }
    {
        'back: while let Some(entry) = self.trail.pop() {
            match entry {
                TrailEntry::Was { point, set } => {
                    put_back(&mut self.sets, point, set);
                    self.low = self.low.min(point as usize);
                }
                TrailEntry::Later { point, low, values } => {
                    self.low = low;
                    if !is_empty(values) {
                        self.enter(point, values)?;
                        return Ok(true);
                    }
                }
            }
        }
        Ok(false)
    }

    /// Enters the block in which `point` has only the least of `values`. The blocks of the other
    /// values are left for later.
    fn enter(&mut self, point: u32, values: Mask) -> Result<(), AllocError>
        requires values { 0 < length (values_in values) }
        ensures boxes { OnOk result (box_now self.new ∷ boxes_later self.new
            ≡ map (decided (box_now self.old) point) (values_in values) ++ boxes_later self.old) }
        ensures points { HasSamePoints self.old self.new }
    {
        let Some(split) = split_first(values) else {
            unreachable!();
        };
        let (value, others) = split;
        self.trail.push(TrailEntry::Later {
            point,
            low: self.low,
            values: others,
        })?;
        self.change(point, singleton(value))?;
        Ok(())
    }

    /// Sets the candidates of `point` to `set`, and records the old ones on the trail.
    fn change(&mut self, point: u32, set: Mask) -> Result<(), AllocError>
        ensures sets { OnOk result (self.new.sets.items ≡ slice_set self.old.sets.items point set) }
        ensures later { OnOk result (boxes_later self.new ≡ boxes_later self.old) }
        ensures points { HasSamePoints self.old self.new }
    {
        if (point as usize) < self.sets.len() {
            let before = self.sets[point as usize];
            self.trail.push(TrailEntry::Was { point, set: before })?;
            self.sets[point as usize] = set;
            self.low = self.low.min(point as usize);
        }
        Ok(())
    }
}

/// Restores `set` as the candidates of `point`.
fn put_back(sets: &mut Vec<Mask>, point: u32, set: Mask)
    ensures { sets.new.items ≡ slice_set sets.old.items point set }
{
    if (point as usize) < sets.len() {
        sets[point as usize] = set;
    }
}

/// Returns whether `value` is the only element of `set`.
fn is_only(set: Mask, value: u8) -> bool
    ensures { result ≡ pointwise (λ x y. x == y) (value ∷ []) (values_in set) }
{
    contains(set, value) && !has_two(set)
}
