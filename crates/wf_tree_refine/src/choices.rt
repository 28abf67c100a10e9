//! Choices in place of the values of tuples, such as the names that a split gives to a value.

ghost use Rattle.std.specs.Prelude.{◌≡◌, ◌<◌, ◌≤◌, ◌+◌, ◌*◌, ◌∷◌, ◌++◌, ℕ, [], All, IfErr, IfOk, OnOk, drop, flat_map, length, map, take};
ghost use Rattle.wf_model.specs.Simplex.{processes_of};
ghost use Rattle.wf_tree_model.specs.Tuples.{choices_of};
ghost use Rattle.wf_tree_refine.specs.Choices.{chosen_by, sets_listed};
ghost use Rattle.wf_tree_refine.specs.Limits.{IsTooMany};

use crate::fault::RefineFault;
use crate::rows::push_limited;
use std::alloc::{AllocError, Global};
use wf_base::set::{Mask, singleton, split_first};
use wf_simplex::Simplex;
use wf_task::Row;

/// The number of sets in a table of choices: one for each of four processes and each of 256 values.
pub const SETS: usize = 1024;

/// The choices of the processes of a tuple, and a limit on the number of tuples.
#[derive(Clone, Copy)]
struct Chooser<'a> {
    /// The sets of choices, one for each process and value; see [`set_place`].
    sets: &'a [Mask],
    /// The processes of a tuple, by place.
    processes: &'a [u8],
    /// The largest allowed number of tuples.
    most: usize,
}

/// Returns the index of the set for `process` and `value` in a table of choices.
pub fn set_place(process: u8, value: u8) -> usize
    ensures place { result ≡ process * 256 + value }
    ensures value { value ≤ 255 }
{
    usize::from(process) * 256 + usize::from(value)
}

/// Creates a table of choices in which the only choice of a process in place of a value is the
/// value itself.
///
/// # Errors
///
/// Returns `AllocError` if memory runs out.
pub fn identity_choices(alloc: Global) -> Result<Vec<Mask>, AllocError>
    ensures count { IfOk result (λ sets. length sets.items ≡ sets_listed) }
    ensures alone { IfOk result (λ sets. (process value : ℕ) → process < 4 → value < 256
        → chosen_by sets.items process value ≡ value ∷ []) }
{
    let mut sets = Vec::with_capacity(alloc, SETS)?;
    'places: for place in 0..SETS {
        sets.push_reserved(singleton((place % 256) as u8));
    }
    Ok(sets)
}

/// Returns all tuples that arise from `rows` by replacing each value with one of its choices.
/// `sets` is the table of choices by process and value, and the rows are tuples of `simplex`.
///
/// The choices of the rows follow in the order of the rows. A tuple that arises several times is
/// listed each time.
///
/// # Errors
///
/// Returns [`RefineFault::TooManyTuples`] if there are more than `most` tuples, and
/// [`RefineFault::OutOfMemory`] if memory runs out.
pub fn choice_rows(
    alloc: Global,
    sets: &[Mask],
    simplex: &Simplex,
    rows: &[Row],
    most: usize,
) -> Result<Vec<Row>, RefineFault>
    requires sets { length sets.now ≡ sets_listed }
    requires long { All (λ row. length row ≡ length simplex.now) rows.now }
    ensures rows { IfOk result (λ found. found.items
        ≡ flat_map (choices_of (chosen_by sets.now) (processes_of simplex.now)) rows.now) }
    ensures within { IfOk result (λ found. length found.items ≤ most) }
    ensures refused { IfErr result (λ fault. IsTooMany fault most
        (length (flat_map (choices_of (chosen_by sets.now) (processes_of simplex.now)) rows.now))) }
{
    let processes = processes_of(alloc, simplex)?;
    let chooser = Chooser {
        sets,
        processes: &processes,
        most,
    };
    let mut found = Vec::new(alloc);
    'rows: for row in rows {
        push_choices(&mut found, &chooser, row, [0; 4], 0)?;
    }
    Ok(found)
}

/// Returns the processes of `simplex`, in ascending order.
fn processes_of(alloc: Global, simplex: &Simplex) -> Result<Vec<u8>, AllocError>
    ensures processes { IfOk result (λ found. found.items ≡ processes_of simplex.now) }
    ensures small { IfOk result (λ found. All (λ process. process < 4) found.items) }
{
    let mut found = Vec::with_capacity(alloc, 4)?;
    'places: for place in 0..simplex.colours() {
        found.push_reserved(simplex.colour(place));
    }
    Ok(found)
}

/// Appends to `found` all tuples that begin with the first `place` values of `values` and go on
/// with choices for the values of `row` from `place` on.
fn push_choices(
    found: &mut Vec<Row>,
    chooser: &Chooser<'_>,
    row: &Row,
    values: [u8; 4],
    place: u8,
) -> Result<(), RefineFault>
    requires sets { length chooser.now.sets.now ≡ sets_listed }
    requires long { length chooser.now.processes.now ≡ length row.now }
    requires small { All (λ process. process < 4) chooser.now.processes.now }
    requires place { place ≤ length row.now }
    requires within { length found.old.items ≤ chooser.now.most }
    ensures pushed { OnOk result (found.new.items ≡ found.old.items
        ++ map (λ rest. take place values ++ rest)
        (choices_of (chosen_by chooser.now.sets.now) (drop place chooser.now.processes.now)
        (drop place row.now))) }
    ensures within { OnOk result (length found.new.items ≤ chooser.now.most) }
    ensures refused { IfErr result (λ fault. IsTooMany fault chooser.now.most
        (length found.old.items + length (choices_of (chosen_by chooser.now.sets.now)
        (drop place chooser.now.processes.now) (drop place row.now)))) }
{
    if place == row.size() {
        let made = Row::new(&values[..usize::from(place)]);
        return push_limited(found, chooser.most, made);
    }
    let process = chooser.processes[usize::from(place)];
    let mut left = chooser.sets[set_place(process, row.value(place))];
    'values: while let Some(next) = split_first(left) {
        let (value, others) = next;
        left = others;
        let mut longer = values;
        longer[usize::from(place)] = value;
        push_choices(found, chooser, row, longer, place + 1)?;
    }
    Ok(())
}
