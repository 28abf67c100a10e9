//! The rows of value lists, and the values that occur in simplices.

ghost use Rattle.std.specs.Prelude.{◌≡◌, All, map, flat_map, vec_items, IfOk};
ghost use Rattle.std.specs.Ordering.{nat_cmp};
ghost use Rattle.std.specs.Cmp.Lexicographic.{slice_cmp};
ghost use Rattle.wf_model.specs.Lists.{in_order};
ghost use Rattle.wf_model.specs.Simplex.{values_of};
ghost use Rattle.wf_task_parse.specs.DraftSeen.{entry_seen};
ghost use Rattle.wf_task.specs.Mask.{HasMore, IsMaskOf};
ghost use Rattle.wf_task.specs.Tuples.{IsRow, NamesRows, rows_at};

use crate::row::Row;
use crate::slots::EntryCount;
use crate::tuples::lists_at;
use std::alloc::{AllocError, Global};
use wf_base::set::{Mask, empty, with};
use wf_simplex::Simplex;
use wf_task_parse::{DeltaEntry, ValueList};

/// Returns the rows of `lists` in ascending order, each once. It takes O(n log n) steps, and five
/// bytes a list.
fn rows(alloc: Global, lists: &[ValueList]) -> Result<Vec<Row>, AllocError>
    requires { All IsRow (map (λ t. t.items) lists.now) }
    ensures { IfOk result (λ rows. rows.items
        ≡ in_order (slice_cmp nat_cmp) (map (λ t. t.items) lists.now)) }
{
    let mut rows = Vec::with_capacity(alloc, lists.len())?;
    for list in lists {
        rows.push(Row::of_values(list))?;
    }
    rows.sort_unstable();
    rows.dedup();
    Ok(rows)
}

/// Returns for each slot the rows of the entry of `delta` that it names. Each slot must name
/// exactly one.
pub(crate) fn all_rows(
    alloc: Global,
    delta: &[DeltaEntry],
    slots: &[EntryCount],
) -> Result<Vec<Vec<Row>>, AllocError>
    requires { All (NamesRows (map entry_seen delta.now)) slots.now }
    ensures { IfOk result (λ found. map vec_items found.items
        ≡ map (rows_at (map entry_seen delta.now)) slots.now) }
{
    let mut found = Vec::with_capacity(alloc, slots.len())?;
    for slot in slots {
        found.push_reserved(rows(alloc, lists_at(delta, *slot))?);
    }
    Ok(found)
}

/// Returns `set` with the values of `simplex` added.
fn with_values(set: Mask, simplex: &Simplex) -> Mask
    ensures { HasMore set (values_of simplex.now) result }
{
    let mut more = set;
    for place in 0..simplex.colours() {
        let process = simplex.colour(place);
        let Some(value) = simplex.value(process) else {
            unreachable!()
        };
        let next = with(more, value);
        more = next;
    }
    more
}

/// Returns the set of the values that occur in `simplices`.
pub(crate) fn mask(simplices: &[Simplex]) -> Mask
    ensures { IsMaskOf result (flat_map values_of simplices.now) }
{
    let mut mask = empty();
    for simplex in simplices {
        let more = with_values(mask, simplex);
        mask = more;
    }
    mask
}
