//! The checks of a draft's numbers: its version, its processes, its values and its first block.

ghost use Rattle.std.specs.Prelude.{◌≡◌, ◌<◌, map, ◌&&◌};
ghost use Rattle.std.specs.List.{list_any, list_all};
ghost use Rattle.wf_model.specs.Task.{largest_value};
ghost use Rattle.wf_task_parse.specs.RawTask.{Gives};
ghost use Rattle.wf_task_parse.specs.DraftSeen.{draft_seen, entry_seen};
ghost use Rattle.wf_task.specs.Judge.{is_large, has_large, rule_has_large, is_first_block, names_processes, rule_names_processes, first_block_judged, numbers_judged};

use wf_task_parse::{
    DeltaEntry, FIRST_VERSION, ListedSimplex, RawTask, SECOND_VERSION, TaskFault, ValueList,
};

/// The largest value in a text of version 1. In version 2 it is `MAX_VALUE_IN_SECOND`.
const LARGEST: u64 = 63;

const MAX_VALUE_IN_SECOND: u64 = 255;

/// Returns the largest value that is allowed in a text: `least_block` is present in version 2 only.
fn largest(least_block: Option<u64>) -> u64
    ensures { result ≡ largest_value least_block }
{
    match least_block {
        None => LARGEST,
        Some(_) => MAX_VALUE_IN_SECOND,
    }
}

/// Returns `true` if some value in `pairs` is above `largest`.
fn has_value_above(largest: u64, pairs: &[(u64, u64)]) -> bool
    ensures { result ≡ has_large largest pairs.now }
{
    for (_, value) in pairs {
        if *value > largest {
            return true;
        }
    }
    false
}

/// Returns `true` if some value in `simplices` is above `largest`.
fn any_has_large(largest: u64, simplices: &[ListedSimplex]) -> bool
    ensures { result ≡ list_any (has_large largest) (map (λ s. s.pairs.items) simplices.now) }
{
    for simplex in simplices {
        if has_value_above(largest, &simplex.pairs) {
            return true;
        }
    }
    false
}

/// Returns `true` if some value in `tuple` is above `largest`.
fn tuple_has_large(largest: u64, tuple: &[u64]) -> bool
    ensures { result ≡ list_any (is_large largest) tuple.now }
{
    tuple.iter().any(|value| *value > largest)
}

/// Returns `true` if some value in `tuples` is above `largest`.
fn any_tuple_has_large(largest: u64, tuples: &[ValueList]) -> bool
    ensures { result ≡ list_any (list_any (is_large largest)) (map (λ t. t.items) tuples.now) }
{
    for tuple in tuples {
        if tuple_has_large(largest, tuple) {
            return true;
        }
    }
    false
}

/// Returns `true` if some value in the entries of `delta`, in their simplices or their value lists,
/// is above `largest`.
fn any_entry_has_large(largest: u64, delta: &[DeltaEntry]) -> bool
    ensures { result ≡ list_any (rule_has_large largest) (map entry_seen delta.now) }
{
    for entry in delta {
        if has_value_above(largest, &entry.input.pairs)
            || any_tuple_has_large(largest, &entry.tuples)
        {
            return true;
        }
    }
    false
}

/// Returns `true` if the processes in `pairs` strictly ascend and are below `processes`.
fn names_processes(processes: u64, pairs: &[(u64, u64)]) -> bool
    ensures { result ≡ names_processes processes pairs.now }
{
    let mut least = 0;
    for (process, _) in pairs {
        if *process < least || *process >= processes {
            return false;
        }
        least = *process + 1;
    }
    true
}

/// Returns `true` if the processes of each simplex strictly ascend and are below `processes`.
fn all_name_processes(processes: u64, simplices: &[ListedSimplex]) -> bool
    ensures { result
        ≡ list_all (names_processes processes) (map (λ s. s.pairs.items) simplices.now) }
{
    for simplex in simplices {
        if !names_processes(processes, &simplex.pairs) {
            return false;
        }
    }
    true
}

/// Returns `true` if the processes of the input simplex of each entry strictly ascend and are below
/// `processes`.
fn all_entries_name_processes(processes: u64, delta: &[DeltaEntry]) -> bool
    ensures { result ≡ list_all (rule_names_processes processes) (map entry_seen delta.now) }
{
    for entry in delta {
        if !names_processes(processes, &entry.input.pairs) {
            return false;
        }
    }
    true
}

/// Checks the version, the number of processes, all values, and the processes of all simplices.
///
/// # Errors
///
/// Returns the first of `Version`, `Processes`, `Value` and `Colours` (numbers 4 to 7) that
/// applies.
#[tactic(auto, unfolding(crate::specs::Judge::numbers_judged))]
pub(crate) fn judge_numbers(draft: &RawTask) -> Result<(), TaskFault>
    ensures { Gives (λ u. u) result (numbers_judged (draft_seen draft.now)) }
{
    if draft.version != FIRST_VERSION && draft.version != SECOND_VERSION {
        return Err(TaskFault::Version);
    }
    if !(1..=4).contains(&draft.processes) {
        return Err(TaskFault::Processes);
    }
    let largest = largest(draft.least_block);
    if any_has_large(largest, &draft.inputs)
        || any_has_large(largest, &draft.outputs)
        || any_entry_has_large(largest, &draft.delta)
    {
        return Err(TaskFault::Value);
    }
    let processes = draft.processes;
    if !(all_name_processes(processes, &draft.inputs)
        && all_name_processes(processes, &draft.outputs)
        && all_entries_name_processes(processes, &draft.delta))
    {
        return Err(TaskFault::Colours);
    }
    Ok(())
}

/// Returns `true` if `least_block` is absent or from 1 to 4.
fn is_first_block(least_block: Option<u64>) -> bool
    ensures { result ≡ is_first_block least_block }
{
    match least_block {
        None => true,
        Some(m) => 1 <= m && m <= 4,
    }
}

/// Checks that the least size of a first block, if the draft has one, is from 1 to 4.
///
/// # Errors
///
/// Returns `FirstBlock` (number 18) otherwise.
pub(crate) fn judge_first_block(draft: &RawTask) -> Result<(), TaskFault>
    ensures { Gives (λ u. u) result (first_block_judged draft.now.least_block) }
{
    if !is_first_block(draft.least_block) {
        return Err(TaskFault::FirstBlock);
    }
    Ok(())
}
