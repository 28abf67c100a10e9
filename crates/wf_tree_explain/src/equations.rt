//! The equations of a balance in words, line by line.

ghost use Rattle.std.specs.Prelude.{◌≡◌, ◌++◌, ◌∷◌, ◌<◌, ◌≤◌, codes, drop, length, take, OnOk, string_bytes};
ghost use Rattle.std.specs.List.{remove};
ghost use Rattle.wf_tree_model.specs.Counting.Rules.{rule_at};
ghost use Rattle.wf_tree_explain.specs.Lists.{lines_of, list_text};
ghost use Rattle.wf_tree_explain.specs.Words.{equation_text, equations_text, lines_text, sides_text, times_text, tuples_text, values_text, verb_text};

use crate::entry::{MultiplierEntry, first_of};
use crate::lists::{MAX_LISTED, put_start, put_values, separator};
use crate::simplex::{face_size, put_deciders, put_face, put_simplex};
use std::alloc::AllocError;
use std::fmt::Write;
use wf_simplex::Simplex;
use wf_task::Task;

/// Appends to `text` the lines of all `entries`, which are in ascending order.
pub(crate) fn put_lines(
    text: &mut String,
    task: &Task,
    depth: u32,
    entries: &[MultiplierEntry],
) -> Result<(), AllocError>
    ensures { OnOk result (string_bytes text.new
        ≡ string_bytes text.old ++ lines_text task.now depth entries.now) }
{
    let mut told = 0;
    'lines: while told < entries.len() {
        let rest = &entries[told..];
        put_start(text, depth, told)?;
        let count = line_length(rest);
        put_equations(text, task, &rest[..count])?;
        told += count;
    }
    Ok(())
}

/// Returns how many of `entries`, from the first on, belong on one line: those with the same
/// simplex, place and weight as the first.
fn line_length(entries: &[MultiplierEntry]) -> usize
    requires { 0 < length entries.now }
    ensures some { 0 < result }
    ensures within { result ≤ length entries.now }
    ensures first { lines_of entries.now
        ≡ take result entries.now ∷ lines_of (drop result entries.now) }
{
    let first = first_of(entries);
    for (place, entry) in entries.iter().enumerate() {
        if !first.is_same_line(entry) {
            return place;
        }
    }
    entries.len()
}

/// Appends one line: the equations of `entries`, which have the same simplex, place and weight.
fn put_equations(
    text: &mut String,
    task: &Task,
    entries: &[MultiplierEntry],
) -> Result<(), AllocError>
    requires { 0 < length entries.now }
    ensures { OnOk result (string_bytes text.new
        ≡ string_bytes text.old ++ equations_text task.now entries.now) }
{
    let first = first_of(entries);
    put_equation_at(text, task, first.simplex, first.place, entries)?;
    put_times(text, first.weight)
}

/// Appends the equations of the input simplex with the index `simplex` and one of its places, for
/// the values of all `entries`.
fn put_equation_at(
    text: &mut String,
    task: &Task,
    simplex: u32,
    place: u8,
    entries: &[MultiplierEntry],
) -> Result<(), AllocError>
    ensures { let s = (rule_at task.now simplex).input in
        OnOk result (string_bytes text.new
        ≡ string_bytes text.old ++ equation_text s (remove s place) entries.now) }
{
    match task.inputs().simplices().get(simplex as usize) {
        None => {
            write!(text, "{{}} has one execution")?;
            Ok(())
        }
        Some(simplex) => put_equation(text, simplex, place, entries),
    }
}

/// Appends the equations of `simplex` and `place` for the values of all `entries`. On a vertex, the
/// equation says that there is one execution.
fn put_equation(
    text: &mut String,
    simplex: &Simplex,
    place: u8,
    entries: &[MultiplierEntry],
) -> Result<(), AllocError>
    ensures { OnOk result (string_bytes text.new ≡ string_bytes text.old
        ++ equation_text simplex.now (remove simplex.now place) entries.now) }
{
    if face_size(simplex, place) > 0 {
        return put_sides(text, simplex, place, entries);
    }
    put_simplex(text, simplex)?;
    write!(text, " has one execution")?;
    Ok(())
}

/// Appends that the participants other than the one at `place` decide the values of `entries` as
/// often on `simplex` as on the face without it.
fn put_sides(
    text: &mut String,
    simplex: &Simplex,
    place: u8,
    entries: &[MultiplierEntry],
) -> Result<(), AllocError>
    ensures { OnOk result (string_bytes text.new ≡ string_bytes text.old
        ++ sides_text simplex.now (remove simplex.now place) entries.now) }
{
    put_deciders(text, simplex, place)?;
    put_verb(text, face_size(simplex, place))?;
    put_tuples(text, entries)?;
    write!(text, " as often on ")?;
    put_simplex(text, simplex)?;
    write!(text, " as on ")?;
    put_face(text, simplex, place)
}

/// Appends ` decides ` to `text` if there is one decider, and ` decide ` otherwise. `deciders` is
/// the number of deciders.
fn put_verb(text: &mut String, deciders: u8) -> Result<(), AllocError>
    ensures { OnOk result (string_bytes text.new
        ≡ string_bytes text.old ++ verb_text deciders) }
{
    let verb = if deciders == 1 {
        " decides "
    } else {
        " decide "
    };
    write!(text, "{verb}")?;
    Ok(())
}

/// Appends the values of `entries`: all of them, or the first [`MAX_LISTED`] and the number of the
/// others.
fn put_tuples(text: &mut String, entries: &[MultiplierEntry]) -> Result<(), AllocError>
    ensures { OnOk result (string_bytes text.new
        ≡ string_bytes text.old ++ tuples_text (λ x. values_text x.others) entries.now) }
{
    if entries.len() <= MAX_LISTED {
        return put_each_tuple(text, entries, " or ");
    }
    put_each_tuple(text, &entries[..MAX_LISTED], ", ")?;
    let more = entries.len() - MAX_LISTED;
    write!(text, ", or one of {more} more")?;
    Ok(())
}

/// Appends the values of each entry, separated by commas and by `last` before the last one.
fn put_each_tuple(
    text: &mut String,
    entries: &[MultiplierEntry],
    last: &'static str,
) -> Result<(), AllocError>
    ensures { OnOk result (string_bytes text.new ≡ string_bytes text.old
        ++ list_text (λ x. values_text x.others) (codes ", ") last.now entries.now) }
{
    let length = entries.len();
    for (place, entry) in entries.iter().enumerate() {
        let before = separator(place, length, ", ", last);
        write!(text, "{before}")?;
        put_values(text, entry.values(), " ", " ")?;
    }
    Ok(())
}

/// Appends `, {weight} times` to `text` if `weight` is more than 1.
fn put_times(text: &mut String, weight: u32) -> Result<(), AllocError>
    ensures { OnOk result (string_bytes text.new ≡ string_bytes text.old ++ times_text weight) }
{
    if weight > 1 {
        write!(text, ", {weight} times")?;
    }
    Ok(())
}
