//! Removal of candidates from a box, with a line for each.

ghost use Rattle.std.specs.Prelude.{◌≡◌, ◌<◌, ◌≤◌, ◌+◌, ◌++◌, ◌∷◌, [], true, length, get_or, vec_len, vec_capacity};
ghost use Rattle.std.specs.Bool.{OnFalse, OnTrue};
ghost use Rattle.wf_model.specs.Lists.{has};
ghost use Rattle.std.specs.List.{slice_set};
ghost use Rattle.wf_model.specs.Box.{candidates, count};
ghost use Rattle.wf_base.specs.Set.Sets.{box_of, values_in};
ghost use Rattle.wf_box.specs.Closes.{EndsAt};
ghost use Rattle.wf_box.specs.Steps.{HasRoom, IsSpent, NamesAt, TakesEach, TakesOut, removals};

use crate::candidates::ValueSet;
use wf_base::lines::{Line, Lines};
use wf_base::set::{Mask, contains, difference, is_empty, split_first, without};

/// A participant of an execution, and the point at which it stands there.
#[derive(Clone, Copy, Debug)]
pub(crate) struct Occurrence {
    pub(crate) execution: u32,
    pub(crate) process: u8,
    pub(crate) point: u32,
}

/// Removes those of `values` that the point still has, in ascending order, and appends a line for
/// each. Returns whether the point becomes empty, which ends the removal, with a line for that.
#[inline(always)] // so that the place is not put together in memory
pub(crate) fn remove_each<V: ValueSet>(
    values: V,
    at: Occurrence,
    sets: &mut [Mask],
    lines: &mut Lines,
) -> bool
    requires point { at.point < length sets.old }
    requires room { HasRoom lines.old sets.old }
    ensures step { TakesEach (V.wide values) at lines.old sets.old lines.new sets.new result }
    ensures long { length sets.new ≡ length sets.old }
    ensures others { sets.new ≡ slice_set sets.old at.point (get_or sets.new at.point []) }
    ensures fewer { count (box_of sets.new) ≤ count (box_of sets.old) }
    ensures same { count (box_of sets.new) ≡ count (box_of sets.old) → sets.new ≡ sets.old }
    ensures emptied { OnTrue result (EndsAt lines.new.items (box_of sets.new) at.point) }
    ensures named { NamesAt at lines.old sets.old lines.new sets.new }
    ensures room { OnFalse result (HasRoom lines.new sets.new) }
    ensures spent { OnFalse result (IsSpent lines.old sets.old lines.new sets.new) }
{
    let point = at.point as usize;
    let set = sets[point];
    let left = difference(set, values.widened());
    if is_empty(left) {
        return take_in_turn(values.widened(), at, sets, lines);
    }
    let gone = values.intersection(set);
    if gone.is_empty() {
        return false;
    }
    // before the lines are written, so that the words of the set that stay the same need not be
    // stored
    sets[point] = left;
    push_lines(gone, at, lines);
    false
}

/// Appends a line for each of `values`, in ascending order. `lines` must have room for them.
fn push_lines<V: ValueSet>(values: V, at: Occurrence, lines: &mut Lines)
    requires { vec_len lines.old + length (values_in (V.wide values)) ≤ vec_capacity lines.old }
    ensures lines { lines.new.items ≡ lines.old.items ++ removals at (values_in (V.wide values)) }
    ensures len { vec_len lines.new ≡ vec_len lines.old + length (values_in (V.wide values)) }
    ensures room { vec_capacity lines.old ≤ vec_capacity lines.new }
{
    let mut left = values;
    'values: while let Some(next) = left.split_first() {
        let (value, rest) = next;
        left = rest;
        put(
            lines,
            Line::Remove {
                execution: at.execution,
                process: at.process,
                value,
            },
        );
    }
}

/// Removes those of `values` that the point still has, one after another, until the point is empty.
/// It does what [`remove_each`] does, also if the point becomes empty.
fn take_in_turn(values: Mask, at: Occurrence, sets: &mut [Mask], lines: &mut Lines) -> bool
    requires point { at.point < length sets.old }
    requires room { HasRoom lines.old sets.old }
    ensures step { TakesEach values at lines.old sets.old lines.new sets.new result }
    ensures long { length sets.new ≡ length sets.old }
    ensures others { sets.new ≡ slice_set sets.old at.point (get_or sets.new at.point []) }
    ensures fewer { count (box_of sets.new) ≤ count (box_of sets.old) }
    ensures same { count (box_of sets.new) ≡ count (box_of sets.old) → sets.new ≡ sets.old }
    ensures emptied { OnTrue result (EndsAt lines.new.items (box_of sets.new) at.point) }
    ensures named { NamesAt at lines.old sets.old lines.new sets.new }
    ensures room { OnFalse result (HasRoom lines.new sets.new) }
    ensures spent { OnFalse result (IsSpent lines.old sets.old lines.new sets.new) }
{
    let mut left = values;
    'values: while let Some(next) = split_first(left) {
        let (value, rest) = next;
        left = rest;
        if contains(sets[at.point as usize], value) && take_out(value, at, sets, lines) {
            return true;
        }
    }
    false
}

/// Removes the candidate `value`, and appends its line. If the point becomes empty, appends the
/// line for that and returns `true`.
fn take_out(value: u8, at: Occurrence, sets: &mut [Mask], lines: &mut Lines) -> bool
    requires point { at.point < length sets.old }
    requires present { has (candidates (box_of sets.old) at.point) value ≡ true }
    requires room { HasRoom lines.old sets.old }
    ensures step { TakesOut value at lines.old sets.old lines.new sets.new result }
    ensures long { length sets.new ≡ length sets.old }
    ensures others { sets.new ≡ slice_set sets.old at.point (get_or sets.new at.point []) }
    ensures fewer { count (box_of sets.new) ≤ count (box_of sets.old) }
    ensures same { count (box_of sets.new) ≡ count (box_of sets.old) → sets.new ≡ sets.old }
    ensures emptied { OnTrue result (EndsAt lines.new.items (box_of sets.new) at.point) }
    ensures named { NamesAt at lines.old sets.old lines.new sets.new }
    ensures room { OnFalse result (HasRoom lines.new sets.new) }
    ensures spent { OnFalse result (IsSpent lines.old sets.old lines.new sets.new) }
{
    let point = at.point as usize;
    let set = without(sets[point], value);
    sets[point] = set;
    put(
        lines,
        Line::Remove {
            execution: at.execution,
            process: at.process,
            value,
        },
    );
    if is_empty(set) {
        put(lines, Line::Empty { point: at.point });
        return true;
    }
    false
}

/// Appends a line. `lines` must have room for it.
pub(crate) fn put(lines: &mut Lines, line: Line)
    requires { vec_len lines.old < vec_capacity lines.old }
    ensures lines { lines.new.items ≡ lines.old.items ++ line ∷ [] }
    ensures len { vec_len lines.new ≡ vec_len lines.old + 1 }
    ensures room { vec_capacity lines.old ≤ vec_capacity lines.new }
{
    match lines.push(line) {
        Ok(()) => {}
        Err(_) => unreachable!(),
    }
}
