//! The checks of the tuples in `delta`.

ghost use Rattle.std.specs.Prelude.{◌≡◌, ◌==◌, ◌≤◌, false, All, Contains, IfSome, IsNone, Some, map, not, slice_get, zip, length};
ghost use Rattle.std.specs.List.{position_from};
ghost use Rattle.wf_model.specs.Limits.{most_inputs, most_tuples};
ghost use Rattle.wf_model.specs.Simplex.{processes_of, complex_of};
ghost use Rattle.wf_task_parse.specs.RawTask.{Gives};
ghost use Rattle.wf_task_parse.specs.DraftSeen.{draft_seen, entry_seen, pairs_seen};
ghost use Rattle.wf_task.specs.Judge.{is_image_in, tuple_total, wrong_length, no_output, first_answer, some_large, tuples_judged};
ghost use Rattle.wf_task.specs.Slots.{AreOnly, IsOnceBelow, lists_at};
ghost use Rattle.wf_task.specs.Tuples.{IsTupleOf, AreTuples};

use crate::slots::EntryCount;
use wf_simplex::{Complex, Simplex};
use wf_task_parse::{DeltaEntry, RawTask, TaskFault, ValueList};

/// Returns the value lists of the one entry of `delta` that `slot` names.
pub(crate) fn lists_at(delta: &[DeltaEntry], slot: EntryCount) -> &[ValueList]
    requires { IsOnceBelow (length delta.now) slot }
    ensures { map (λ t. t.items) result.now ≡ lists_at slot (map entry_seen delta.now) }
{
    match slot {
        EntryCount::Once(place) => delta[place].tuples.as_slice(),
        EntryCount::Missing | EntryCount::Twice => unreachable!(),
    }
}

/// Returns the index of the first of `lists` that has not exactly `size` values.
fn first_of_wrong_length(lists: &[ValueList], size: usize) -> Option<usize>
    ensures { result
        ≡ position_from (λ tuple. not (length tuple == size)) 0 (map (λ t. t.items) lists.now) }
{
    for (place, list) in lists.iter().enumerate() {
        if list.as_slice().len() != size {
            return Some(place);
        }
    }
    None
}

/// Returns the simplex that has the processes of `simplex` and these `values`, in the same order.
fn on_processes(simplex: &Simplex, values: &[u64]) -> Simplex
    requires { IsTupleOf (length simplex.now) values.now }
    ensures { result ≡ zip (processes_of simplex.now) values.now }
{
    let mut pairs = [(0u64, 0u64); 4];
    let size = simplex.colours();
    for place in 0..size {
        let process = u64::from(simplex.colour(place));
        pairs[place as usize] = (process, values[place as usize]);
    }
    Simplex::of_pairs(&pairs[..size as usize])
}

/// Returns the index of `simplex` in `complex`, or `None` if it is not there. The index `guess` is
/// tried before a binary search.
fn index_near(complex: &Complex, simplex: Simplex, guess: u32) -> Option<u32>
    ensures place { IfSome result (λ i. slice_get complex.now i ≡ Some simplex) }
    ensures absent { IsNone result → Contains complex.now simplex → ⊥ }
{
    let simplices = complex.simplices();
    let place = guess as usize;
    if place < simplices.len() && simplices[place] == simplex {
        return Some(guess);
    }
    complex.index(&simplex)
}

/// Returns the index of the first of `lists` that is not an output simplex on the processes of
/// `simplex`.
///
/// Value lists in ascending order are often neighbours in `outputs`, so each search tries the index
/// after the last one found.
fn first_stray_list(outputs: &Complex, simplex: &Simplex, lists: &[ValueList]) -> Option<usize>
    requires { All (IsTupleOf (length simplex.now)) (map (λ t. t.items) lists.now) }
    ensures { result ≡ position_from (λ tuple. not (is_image_in outputs.now simplex.now tuple)) 0
        (map (λ t. t.items) lists.now) }
{
    let mut guess = 0u32;
    for (place, list) in lists.iter().enumerate() {
        match index_near(outputs, on_processes(simplex, list), guess) {
            Some(found) => guess = found.wrapping_add(1),
            None => return Some(place),
        }
    }
    None
}

/// Returns the index of the first input simplex that has a value list of the wrong length, and the
/// index of that list.
fn first_wrong_length(
    draft: &RawTask,
    inputs: &[Simplex],
    slots: &[EntryCount],
) -> Option<(usize, usize)>
    requires { AreOnly slots.now (map entry_seen draft.now.delta.items) inputs.now }
    ensures { result ≡ first_answer (wrong_length (draft_seen draft.now)) 0 inputs.now }
{
    for (number, simplex) in inputs.iter().enumerate() {
        let lists = lists_at(&draft.delta, slots[number]);
        let size = usize::from(simplex.colours());
        if let Some(place) = first_of_wrong_length(lists, size) {
            return Some((number, place));
        }
    }
    None
}

/// Returns the index of the first input simplex that has a value list which is not an output
/// simplex, and the index of that list.
fn first_no_output(
    draft: &RawTask,
    inputs: &[Simplex],
    slots: &[EntryCount],
    outputs: &Complex,
) -> Option<(usize, usize)>
    requires only { AreOnly slots.now (map entry_seen draft.now.delta.items) inputs.now }
    requires tuples { AreTuples (draft_seen draft.now) inputs.now }
    requires outputs { outputs.now ≡ complex_of (map pairs_seen draft.now.outputs.items) }
    ensures { result ≡ first_answer (no_output (draft_seen draft.now)) 0 inputs.now }
{
    for (number, simplex) in inputs.iter().enumerate() {
        let lists = lists_at(&draft.delta, slots[number]);
        if let Some(place) = first_stray_list(outputs, simplex, lists) {
            return Some((number, place));
        }
    }
    None
}

/// Checks that each value list has one value for each process of its input simplex, and is an
/// output simplex.
///
/// # Errors
///
/// Returns `OutLength` or `OutStray` (numbers 12 and 13) with the index of the input simplex and of
/// the list. `OutLength` is checked first for all lists.
#[tactic(auto, using(crate::proofs::TupleLemmas::are_tuples), unfolding(crate::specs::Judge::tuples_judged))]
pub(crate) fn judge_tuples(
    draft: &RawTask,
    inputs: &[Simplex],
    slots: &[EntryCount],
    outputs: &Complex,
) -> Result<(), TaskFault>
    requires only { AreOnly slots.now (map entry_seen draft.now.delta.items) inputs.now }
    requires small { some_large (draft_seen draft.now) ≡ false }
    requires few_inputs { length inputs.now ≤ most_inputs }
    requires few_tuples { tuple_total (map entry_seen draft.now.delta.items) ≤ most_tuples }
    requires outputs { outputs.now ≡ complex_of (map pairs_seen draft.now.outputs.items) }
    ensures { Gives (λ u. u) result (tuples_judged (draft_seen draft.now) inputs.now) }
{
    match first_wrong_length(draft, inputs, slots) {
        Some((number, place)) => {
            return Err(TaskFault::OutLength(number as u32, place as u32));
        }
        None => {}
    }
    match first_no_output(draft, inputs, slots, outputs) {
        Some((number, place)) => {
            return Err(TaskFault::OutStray(number as u32, place as u32));
        }
        None => {}
    }
    Ok(())
}
