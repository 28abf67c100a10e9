//! The candidates of each point with their trail.

ghost use Rattle.std.specs.Prelude.{◌≡◌, ◌-◌, ◌<◌, ◌≤◌, [], true, length, take, vec_capacity, IfOk, IfSome};
ghost use Rattle.wf_model.specs.Lists.{has};
ghost use Rattle.wf_model.specs.Box.{candidates, count, decided, first_open};
ghost use Rattle.wf_base.specs.Set.Sets.{box_of, values_in};
ghost use Rattle.wf_box.specs.Changes.{GrowsTo, HasFewer, KeepsTrack, KeepsTrackWith, Notes, UndoesLast, sets_in, words_at};
ghost use Rattle.wf_model.specs.Limits.{most_points};
ghost use Rattle.wf_box.specs.Limits.{most_candidates};

use std::alloc::{AllocError, Global};
use wf_base::set::{Mask, has_two, singleton};
use wf_lane::{count, first_open};

/// An entry of the trail: a point, and its candidates before a change.
#[derive(Clone, Copy, Debug)]
pub(crate) struct Change {
    pub(crate) point: u32,
    pub(crate) before: Mask,
}

/// The candidates of each point, and the trail of the changes that led to them.
#[derive(Drop)]
pub(crate) struct Tracked {
    // the candidates of each point
    pub(crate) words: Vec<Mask>,
    // its capacity is the number of candidates at first, since each change removes at least one
    pub(crate) trail: Vec<Change>,
    // no point before this one has two candidates
    pub(crate) open_from: u32,
}

impl Tracked {
    /// Creates the state with the candidates `words` and an empty trail.
    pub(crate) fn new(alloc: Global, words: Vec<Mask>) -> Result<Tracked, AllocError>
        requires { length words.items ≤ most_points }
        ensures kept { IfOk result KeepsTrack }
        ensures words { IfOk result (λ tracked. tracked.words.items ≡ words.items) }
        ensures trail { IfOk result (λ tracked. tracked.trail.items ≡ []) }
        ensures room { IfOk result (λ tracked. vec_capacity tracked.trail
            ≡ count (box_of words.items)) }
    {
        let count = count_candidates(&words);
        Ok(Tracked {
            words,
            trail: Vec::with_capacity(alloc, count as usize)?,
            open_from: 0,
        })
    }

    /// Reduces the candidates of `point` to `value`, which must be one of them, and puts the change
    /// on the trail.
    pub(crate) fn set(&mut self, point: u32, value: u8)
        requires kept { KeepsTrack self.old }
        requires there { has (candidates (sets_in self.old) point) value ≡ true }
        ensures kept { KeepsTrack self.new }
        ensures decided { sets_in self.new ≡ decided (sets_in self.old) point value }
        ensures grown { GrowsTo self.old self.new }
    {
        let before = self.words[point as usize];
        if has_two(before) {
            self.words[point as usize] = singleton(value);
            self.note(point, before);
        }
    }

    /// Puts on the trail that the candidates of `point` were `before`, after some of them were
    /// removed.
    pub(crate) fn note(&mut self, point: u32, before: Mask)
        requires kept { KeepsTrackWith point before self.old }
        requires within { point < length self.old.words.items }
        requires fewer { HasFewer self.old point before }
        ensures kept { KeepsTrack self.new }
        ensures words { self.new.words.items ≡ self.old.words.items }
        ensures trail { Notes self.old self.new point before }
    {
        self.trail.push_reserved(Change { point, before });
    }

    /// Returns how many more changes the trail has room for. That is at least the number of
    /// candidates left, so it is enough: each change removes a candidate.
    pub(crate) fn room(&self) -> usize
        requires { KeepsTrack self.now }
        ensures room { result ≡ vec_capacity self.now.trail - length self.now.trail.items }
        ensures enough { count (sets_in self.now) ≤ result }
        ensures few { result ≤ most_candidates }
    {
        self.trail.capacity() - self.trail.len()
    }

    /// Undoes changes, the last one first, until `len` of them are left.
    pub(crate) fn undo(&mut self, len: usize)
        requires kept { KeepsTrack self.old }
        requires within { len ≤ length self.old.trail.items }
        ensures kept { KeepsTrack self.new }
        ensures words { self.new.words.items ≡ words_at len self.old }
        ensures trail { self.new.trail.items ≡ take len self.old.trail.items }
    {
        'changes: while self.trail.len() > len {
            self.undo_last();
        }
    }

    /// Undoes the last change.
    fn undo_last(&mut self)
        requires kept { KeepsTrack self.old }
        requires some { 0 < length self.old.trail.items }
        ensures kept { KeepsTrack self.new }
        ensures undone { UndoesLast self.old self.new }
    {
        if let Some(change) = self.trail.pop() {
            let before = change.before;
            self.words[change.point as usize] = before;
            self.open_from = open_from_with(self.open_from, change);
        }
    }

    /// Returns the first point that has two candidates or more.
    pub(crate) fn first_open(&self) -> Option<u32>
        requires { KeepsTrack self.now }
        ensures { result ≡ first_open (sets_in self.now) }
    {
        match first_open(&self.words[self.open_from as usize..]) {
            Some(later) => Some(self.open_from + later as u32),
            None => None,
        }
    }

    /// Returns the first point that has two candidates or more, and stores it, so that the next
    /// search for such a point starts there.
    pub(crate) fn advance_to_open(&mut self) -> Option<u32>
        requires { KeepsTrack self.old }
        ensures found { result ≡ first_open (sets_in self.old) }
        ensures kept { KeepsTrack self.new }
        ensures words { self.new.words.items ≡ self.old.words.items }
        ensures trail { self.new.trail.items ≡ self.old.trail.items }
        ensures starts { IfSome result (λ point. self.new.open_from ≡ point) }
    {
        let found = self.first_open();
        if let Some(point) = found {
            self.open_from = point;
        }
        found
    }
}

/// Returns the new value of `Tracked::open_from` after the change `undone` is undone: no point
/// before it has two candidates.
fn open_from_with(open_from: u32, undone: Change) -> u32
    ensures low { result ≤ open_from }
    ensures open { undone.point < result → length (values_in undone.before) ≤ 1 }
{
    if has_two(undone.before) {
        open_from.min(undone.point)
    } else {
        open_from
    }
}

/// Returns the number of candidates of all points together.
fn count_candidates(sets: &[Mask]) -> u32
    requires { length sets.now ≤ most_points }
    ensures count { result ≡ count (box_of sets.now) }
    ensures few { result ≤ most_candidates }
{
    count(sets) as u32
}
