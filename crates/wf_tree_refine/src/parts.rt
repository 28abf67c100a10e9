//! The connected components of the tuples of an input simplex, numbered.

ghost use Rattle.std.specs.Prelude.{◌≡◌, ◌<◌, ◌≤◌, ℕ, All, IfOk, OnOk, length, map, slice_index};
ghost use Rattle.std.specs.Cmp.Lexicographic.{slice_cmp};
ghost use Rattle.std.specs.Ordering.{nat_cmp};
ghost use Rattle.wf_model.specs.Lists.{in_order};
ghost use Rattle.wf_tree_model.specs.Parts.{parts};
ghost use Rattle.wf_tree_refine.specs.Forest.{AreParents, IsForest, rank};
ghost use Rattle.wf_tree_refine.specs.Keys.{HaveBytes, JoinsAt};
ghost use Rattle.wf_tree_refine.specs.Near.{most_at_hand, near_by, part_of};

use crate::key::{get_or_insert, key_without};
use crate::roots::join;
use crate::ways::Adjacency;
use std::alloc::{AllocError, Global};
use std::collections::HashMap;
use wf_task::Row;

/// The largest number of tuples that a task may have at one simplex, and the largest number that a
/// split or a cover may make at all simplices together.
pub const MAX_TUPLES: usize = 1_000_000;

/// Returns for each row the index of its connected component. Components are numbered in the order
/// of their first rows; `ways` says which rows are adjacent.
///
/// `rows` are in ascending order, without duplicates, and each has `size` values. The function
/// looks up a key for each place of each row. Its memory is eight bytes a row and a hash table with
/// room for all rows.
///
/// # Errors
///
/// Returns `AllocError` if memory runs out.
pub fn component_indices(
    alloc: Global,
    rows: &[Row],
    size: u8,
    ways: Adjacency,
) -> Result<Vec<u32>, AllocError>
    requires few { length rows.now ≤ most_at_hand }
    requires ascending { in_order (slice_cmp nat_cmp) rows.now ≡ rows.now }
    requires long { All (λ row. length row ≡ size) rows.now }
    ensures { IfOk result (λ numbers.
        numbers.items ≡ map (part_of (parts (near_by ways size) rows.now)) rows.now) }
{
    let mut parents = singletons(alloc, rows.len() as u32)?;
    'places: for place in 0..size {
        if ways.may_differ(size, place) {
            join_at(alloc, &mut parents, rows, place)?;
        }
    }
    ranks(alloc, &parents)
}

/// Creates a forest of `count` numbers, each of which is a root.
fn singletons(alloc: Global, count: u32) -> Result<Vec<u32>, AllocError>
    ensures count { IfOk result (λ parents. length parents.items ≡ count) }
    ensures parents { IfOk result (λ parents. AreParents parents.items) }
    ensures forest { IfOk result (λ parents. IsForest parents.items (λ number. number)) }
{
    (0..count).collect(alloc)
}

/// Joins the trees of all rows that agree at all places but `place`.
fn join_at(alloc: Global, parents: &mut [u32], rows: &[Row], place: u8) -> Result<(), AllocError>
    requires few { length rows.now ≤ most_at_hand }
    requires each { length parents.old ≡ length rows.now }
    requires parents { AreParents parents.old }
    ensures parents { OnOk result (AreParents parents.new) }
    ensures joined { OnOk result ((label : ℕ → ℕ) → IsForest parents.old label
        → JoinsAt place rows.now parents.new label) }
    ensures small { OnOk result (HaveBytes rows.now (length rows.now)) }
{
    let mut firsts = HashMap::with_capacity(alloc, rows.len())?;
    'rows: for (number, row) in rows.iter().enumerate() {
        let number = number as u32;
        let first = get_or_insert(&mut firsts, key_without(row, place), number)?;
        join(parents, first, number);
    }
    Ok(())
}

/// Returns for each number the index of its root among all roots. The roots are counted in
/// ascending order.
fn ranks(alloc: Global, parents: &[u32]) -> Result<Vec<u32>, AllocError>
    requires few { length parents.now ≤ most_at_hand }
    requires parents { AreParents parents.now }
    ensures count { IfOk result (λ ranks. length ranks.items ≡ length parents.now) }
    ensures ranks { IfOk result (λ ranks. (label : ℕ → ℕ) → IsForest parents.now label
        → (i : ℕ) → i < length parents.now → slice_index ranks.items i ≡ rank label (label i)) }
{
    let mut ranks: Vec<u32> = Vec::with_capacity(alloc, parents.len())?;
    let mut roots = 0;
    'numbers: for (number, parent) in parents.iter().enumerate() {
        let parent = *parent as usize;
        if parent == number {
            ranks.push_reserved(roots);
            roots += 1;
        } else {
            ranks.push_reserved(ranks[parent]);
        }
    }
    Ok(ranks)
}
