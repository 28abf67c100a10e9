//! Names of a split: each value at a place of a simplex gets one name for each connected component
//! of the tuples that have it there.

ghost use Rattle.std.specs.Prelude.{◌≡◌, ◌<◌, ◌≤◌, ◌+◌, List, [], All, Err, IfErr, IfOk, length, map, nat_lt, slice_index, true, vec_items, if◌then◌else◌};
ghost use Rattle.std.specs.Cmp.Lexicographic.{slice_cmp};
ghost use Rattle.std.specs.List.{list_any};
ghost use Rattle.std.specs.Ordering.{nat_cmp};
ghost use Rattle.wf_model.specs.Lists.{below, has, in_order};
ghost use Rattle.wf_model.specs.Task.{Tuple};
ghost use Rattle.wf_base.specs.Set.Sets.{values_in};
ghost use Rattle.wf_tree_model.specs.Splits.{names_of, with_names};
ghost use Rattle.wf_tree_refine.specs.declared.fault.RefineFault.TheVariants.{TooManyNames, TooManyTuples};
ghost use Rattle.wf_tree_refine.specs.Names.{AreNumbered, HasLargeName, first_new, has_large_name, most_name, row_of, splitting};
ghost use Rattle.wf_tree_refine.specs.Near.{most_at_hand};

use crate::fault::{MAX_NAME, RefineFault};
use crate::parts::component_indices;
use crate::ways::Adjacency;
use std::alloc::{AllocError, Global};
use wf_base::set::{Mask, contains, empty, with};
use wf_simplex::Simplex;
use wf_task::Row;

/// Returns for each row the name that replaces its value at `place` in a split of `simplex`.
///
/// Rows get the same name if they lie in one connected component, where rows are adjacent if they
/// agree at `place` and differ at one other place. The first component with a value keeps the value
/// as its name; each further one gets the next of the new names, which begin with `new`. `rows` are
/// the tuples of `simplex`: in ascending order, without duplicates, with a value for each
/// participant.
///
/// # Errors
///
/// Returns [`RefineFault::TooManyNames`] if a row would get a name above [`MAX_NAME`], and
/// [`RefineFault::OutOfMemory`] if memory runs out.
pub fn star_names(
    alloc: Global,
    simplex: &Simplex,
    rows: &[Row],
    place: u8,
    new: u32,
) -> Result<Vec<u8>, RefineFault>
    requires few { length rows.now ≤ most_at_hand }
    requires ascending { in_order (slice_cmp nat_cmp) rows.now ≡ rows.now }
    requires long { All (λ row. length row ≡ length simplex.now) rows.now }
    requires inside { place < length simplex.now }
    requires new { new ≤ first_new }
    ensures names { IfOk result (λ names.
        names.items ≡ map ((splitting simplex.now rows.now new).name place) rows.now) }
    ensures refused { result ≡ Err TooManyNames → list_any
        (λ tuple. nat_lt most_name ((splitting simplex.now rows.now new).name place tuple)) rows.now
        ≡ true }
    ensures names_alone { IfErr result (λ fault. fault ≡ TooManyTuples → ⊥) }
{
    let numbers = component_indices(alloc, rows, simplex.colours(), Adjacency::Star(place))?;
    let names = component_names(alloc, rows, &numbers, place, new)?;
    Ok(names_by_component(alloc, &numbers, &names)?)
}

/// Returns the names of the components, in their order. `numbers` holds the index of the component
/// of each row, and all rows of a component have the same value at `place`. New names begin with
/// `new`.
fn component_names(
    alloc: Global,
    rows: &[Row],
    numbers: &[u32],
    place: u8,
    new: u32,
) -> Result<Vec<u8>, RefineFault>
    requires new { new ≤ first_new }
    requires inside { All (λ row. place < length row) rows.now }
    requires each { length numbers.now ≡ length rows.now }
    ensures names { IfOk result (λ names. (parts : List (List Tuple))
        → AreNumbered place rows.now numbers.now parts
        → names.items ≡ names_of place new [] parts) }
    ensures refused { result ≡ Err TooManyNames → (parts : List (List Tuple))
        → AreNumbered place rows.now numbers.now parts
        → HasLargeName (names_of place new [] parts) numbers.now }
    ensures names_alone { IfErr result (λ fault. fault ≡ TooManyTuples → ⊥) }
{
    let mut names = Vec::with_capacity(alloc, rows.len())?;
    let mut seen = empty();
    let mut next = new;
    'rows: for (number, row) in rows.iter().enumerate() {
        if numbers[number] as usize == names.len() {
            let value = row.value(place);
            let (name, after) = name_for(seen, next, value)?;
            names.push_reserved(name);
            let more = with(seen, value);
            seen = more;
            next = after;
        }
    }
    Ok(names)
}

/// Returns the name of the next component, whose value is `value`, and the next unused new name.
/// `seen` holds the values of the earlier components: a value that is not among them becomes the
/// name itself; otherwise the name is `next`.
fn name_for(seen: Mask, next: u32, value: u8) -> Result<(u8, u32), RefineFault>
    requires { next ≤ first_new }
    ensures name { IfOk result (λ named.
        named.0 ≡ (if has (values_in seen) value then next else value)) }
    ensures next { IfOk result (λ named.
        named.1 ≡ (if has (values_in seen) value then next + 1 else next)) }
    ensures few { IfOk result (λ named. named.1 ≤ first_new) }
    ensures seen { IfErr result (λ e. has (values_in seen) value ≡ true) }
    ensures large { IfErr result (λ e. most_name < next) }
    ensures names_alone { IfErr result (λ fault. fault ≡ TooManyTuples → ⊥) }
{
    if !contains(seen, value) {
        return Ok((value, next));
    }
    if next > MAX_NAME {
        return Err(RefineFault::TooManyNames);
    }
    Ok((next as u8, next + 1))
}

/// Returns the list of `names[number]` for each `number` of `numbers`.
fn names_by_component(alloc: Global, numbers: &[u32], names: &[u8]) -> Result<Vec<u8>, AllocError>
    requires { All (λ number. number < length names.now) numbers.now }
    ensures { IfOk result (λ each. each.items ≡ map (slice_index names.now) numbers.now) }
{
    let mut each = Vec::with_capacity(alloc, numbers.len())?;
    'numbers: for number in numbers {
        each.push_reserved(names[*number as usize]);
    }
    Ok(each)
}

/// Returns the rows of `simplex` with names in place of their values, for a split in which new
/// names begin with `new`. See [`star_names`] for the names at one place.
///
/// `rows` are in ascending order, without duplicates, and have a value for each participant.
///
/// # Errors
///
/// Returns [`RefineFault::TooManyNames`] if a row would get a name above [`MAX_NAME`], and
/// [`RefineFault::OutOfMemory`] if memory runs out.
pub fn named_rows(
    alloc: Global,
    simplex: &Simplex,
    rows: &[Row],
    new: u32,
) -> Result<Vec<Row>, RefineFault>
    requires few { length rows.now ≤ most_at_hand }
    requires ascending { in_order (slice_cmp nat_cmp) rows.now ≡ rows.now }
    requires long { All (λ row. length row ≡ length simplex.now) rows.now }
    requires new { new ≤ first_new }
    ensures named { IfOk result (λ named.
        named.items ≡ map (with_names (splitting simplex.now rows.now new)) rows.now) }
    ensures refused { result ≡ Err TooManyNames
        → list_any (has_large_name (splitting simplex.now rows.now new)) rows.now ≡ true }
    ensures names_alone { IfErr result (λ fault. fault ≡ TooManyTuples → ⊥) }
{
    let size = simplex.colours();
    let mut columns: Vec<Vec<u8>> = Vec::with_capacity(alloc, 4)?;
    'places: for place in 0..size {
        columns.push_reserved(star_names(alloc, simplex, rows, place, new)?);
    }
    Ok(rows_of(alloc, &columns, rows.len())?)
}

/// Returns `count` rows; row `i` has the value at index `i` of each column.
fn rows_of(alloc: Global, columns: &[Vec<u8>], count: usize) -> Result<Vec<Row>, AllocError>
    requires some { 1 ≤ length columns.now }
    requires few { length columns.now ≤ 4 }
    requires long { All (λ column. length column.items ≡ count) columns.now }
    ensures { IfOk result (λ rows. rows.items
        ≡ map (row_of (map vec_items columns.now)) (below count)) }
{
    let mut rows = Vec::with_capacity(alloc, count)?;
    'numbers: for number in 0..count {
        rows.push_reserved(row_of(columns, number));
    }
    Ok(rows)
}

/// Returns the row of the values at index `number` of each column.
fn row_of(columns: &[Vec<u8>], number: usize) -> Row
    requires some { 1 ≤ length columns.now }
    requires few { length columns.now ≤ 4 }
    requires inside { All (λ column. number < length column.items) columns.now }
    ensures { result ≡ row_of (map vec_items columns.now) number }
{
    let mut values = [0; 4];
    'places: for (place, column) in columns.iter().enumerate() {
        values[place] = column[number];
    }
    Row::new(&values[..columns.len()])
}
