//! The assignment of the entries of `delta` to input simplices.

ghost use Rattle.std.specs.Prelude.{◌≡◌, ◌≤◌, map, length, IfOk};
ghost use Rattle.std.specs.List.{position_from};
ghost use Rattle.wf_model.specs.Limits.{most_bytes, most_inputs};
ghost use Rattle.wf_task_parse.specs.RawTask.{Gives};
ghost use Rattle.wf_task_parse.specs.DraftSeen.{entry_seen, draft_seen};
ghost use Rattle.wf_task.specs.Judge.{entries_judged, first_stray};
ghost use Rattle.wf_task.specs.Slots.{AreOf, with_entry, no_entry, is_missing, is_twice};
ghost use Rattle.wf_task.specs.Tuples.{HaveSmallInputs};

use std::alloc::{AllocError, Global};
use wf_simplex::{Complex, Simplex};
use wf_task_parse::{DeltaEntry, RawTask, TaskFault};

/// The entries of `delta` that an input simplex has: `Missing` if it has none.
#[derive(Clone, Copy, PartialEq, Eq)]
pub(crate) enum EntryCount {
    Missing,
    /// Exactly one entry, at this index of `delta`.
    Once(usize),
    /// More than one entry.
    Twice,
}

impl EntryCount {
    /// Returns the slot after one more entry, at index `place` of `delta`.
    fn with(self, place: usize) -> EntryCount
        ensures { result ≡ with_entry self place }
    {
        match self {
            EntryCount::Missing => EntryCount::Once(place),
            EntryCount::Once(_) | EntryCount::Twice => EntryCount::Twice,
        }
    }
}

/// Returns for each input simplex, by its index, which entries of `delta` it has. Entries for other
/// simplices are skipped.
pub(crate) fn slots(
    alloc: Global,
    inputs: &Complex,
    delta: &[DeltaEntry],
) -> Result<Vec<EntryCount>, AllocError>
    requires { HaveSmallInputs (map entry_seen delta.now) }
    ensures { IfOk result (λ slots. AreOf slots.items (map entry_seen delta.now) inputs.now) }
{
    let mut slots = empty_slots(alloc, inputs.simplices())?;
    for (place, entry) in delta.iter().enumerate() {
        match inputs.index(&Simplex::of_pairs(&entry.input.pairs)) {
            Some(home) => {
                let home = home as usize;
                slots[home] = slots[home].with(place);
            }
            None => {}
        }
    }
    Ok(slots)
}

/// Creates for each input simplex a slot without an entry.
fn empty_slots(alloc: Global, inputs: &[Simplex]) -> Result<Vec<EntryCount>, AllocError>
    ensures { IfOk result (λ slots. slots.items ≡ map no_entry inputs.now) }
{
    let mut slots = Vec::new(alloc);
    for _simplex in inputs {
        slots.push(EntryCount::Missing)?;
    }
    Ok(slots)
}

/// Returns the index of the first input simplex that has no entry.
fn first_missing(slots: &[EntryCount]) -> Option<usize>
    ensures { result ≡ position_from is_missing 0 slots.now }
{
    for (place, slot) in slots.iter().enumerate() {
        if let EntryCount::Missing = slot {
            return Some(place);
        }
    }
    None
}

/// Returns the index of the first input simplex that has more than one entry.
fn first_twice(slots: &[EntryCount]) -> Option<usize>
    ensures { result ≡ position_from is_twice 0 slots.now }
{
    for (place, slot) in slots.iter().enumerate() {
        if let EntryCount::Twice = slot {
            return Some(place);
        }
    }
    None
}

/// Checks that each input simplex has exactly one entry of `delta`, and that there are no other
/// entries. `slots` must be those of the draft.
///
/// # Errors
///
/// Returns the first of `DeltaMissing`, `DeltaTwice` and `DeltaStray` (numbers 9 to 11) that
/// applies.
#[tactic(auto, unfolding(crate::specs::Judge::entries_judged))]
pub(crate) fn judge_entries(
    draft: &RawTask,
    inputs: &Complex,
    slots: &[EntryCount],
) -> Result<(), TaskFault>
    requires within { HaveSmallInputs (map entry_seen draft.now.delta.items) }
    requires slots { AreOf slots.now (map entry_seen draft.now.delta.items) inputs.now }
    requires few_inputs { length inputs.now ≤ most_inputs }
    requires few_entries { length draft.now.delta.items ≤ most_bytes }
    ensures { Gives (λ u. u) result (entries_judged (draft_seen draft.now) inputs.now) }
{
    match first_missing(slots) {
        Some(place) => return Err(TaskFault::DeltaMissing(place as u32)),
        None => {}
    }
    match first_twice(slots) {
        Some(place) => return Err(TaskFault::DeltaTwice(place as u32)),
        None => {}
    }
    match first_stray(inputs, &draft.delta) {
        Some(place) => return Err(TaskFault::DeltaStray(place as u32)),
        None => {}
    }
    Ok(())
}

/// Returns the index of the first entry of `delta` whose simplex is not in `inputs`.
pub(crate) fn first_stray(inputs: &Complex, delta: &[DeltaEntry]) -> Option<usize>
    requires { HaveSmallInputs (map entry_seen delta.now) }
    ensures { result ≡ first_stray inputs.now (map entry_seen delta.now) }
{
    for (place, entry) in delta.iter().enumerate() {
        let stray = !inputs.contains(&Simplex::of_pairs(&entry.input.pairs));
        if stray {
            return Some(place);
        }
    }
    None
}
