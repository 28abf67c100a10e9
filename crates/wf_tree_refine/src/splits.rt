//! Splits: give several names to the values that processes decide on an input simplex.

ghost use Rattle.std.specs.Prelude.{◌≡◌, ◌<◌, ◌≤◌, ◌==◌, ◌&&◌, ◌||◌, ℕ, All, IfErr, IfOk, None, Some, false, length, map, true, vec_items};
ghost use Rattle.std.specs.Cmp.Lexicographic.{slice_cmp};
ghost use Rattle.std.specs.List.{AllByRecursion, list_any};
ghost use Rattle.std.specs.Ordering.{nat_cmp};
ghost use Rattle.wf_model.specs.Lists.{has, in_order};
ghost use Rattle.wf_tree_model.specs.Counting.Rules.{rule_at};
ghost use Rattle.wf_tree_model.specs.Splits.{Splitting, by_stars, choices, split, tuples_on_face, tuples_split, with_names};
ghost use Rattle.wf_tree_model.specs.Trees.{new_name};
ghost use Rattle.wf_tree_model.specs.Tuples.{is_part};
ghost use Rattle.wf_tree_refine.specs.AtHand.{IsAtHand, at_hand};
ghost use Rattle.wf_tree_refine.specs.Choices.{AreChoices, chosen_by, names_beside, sets_listed};
ghost use Rattle.wf_tree_refine.specs.Limits.{IsTooMany, split_fault};
ghost use Rattle.wf_tree_refine.specs.Names.{first_new, has_large_name, splitting};
ghost use Rattle.wf_tree_refine.specs.Near.{most_at_hand};
ghost use Rattle.wf_tree_refine.specs.SplitSeen.{IsSplit, rule_of, split_seen};
ghost use Rattle.wf_tree_refine.specs.declared.fault.RefineFault.TheVariants.{OutOfMemory, TooManyNames};

use crate::choices::{choice_rows, identity_choices, set_place};
use crate::faces::{is_part, mask_of, restricted_row};
use crate::fault::RefineFault;
use crate::names::named_rows;
use crate::parts::MAX_TUPLES;
use crate::rows::{has_row, push_limited, sorted_unique};
use crate::values::new_name;
use std::alloc::{AllocError, Global};
use wf_base::set::{Mask, with};
use wf_simplex::Simplex;
use wf_task::{Row, Task};

/// Returns the tuples of the task after a split of `simplex`. `rows` holds the tuples of each input
/// simplex before the split.
///
/// At each place of `simplex`, a value gets one name for each connected component of the tuples
/// that have it there; new names begin above the largest value in `rows`. Tuples on the faces of
/// `simplex` are restrictions of the renamed tuples of `simplex`. On all other simplices each
/// process may decide the value itself or any name of it.
///
/// # Errors
///
/// - [`RefineFault::TooManyNames`]: a tuple of `simplex` would get a name above
///   [`MAX_NAME`](crate::MAX_NAME).
/// - [`RefineFault::TooManyTuples`]: otherwise, if more than [`MAX_TUPLES`](crate::MAX_TUPLES)
///   tuples would be made.
/// - [`RefineFault::OutOfMemory`]: memory ran out.
pub fn split_rows(
    alloc: Global,
    task: &Task,
    rows: &[Vec<Row>],
    simplex: usize,
) -> Result<Vec<Vec<Row>>, RefineFault>
    requires at_hand { IsAtHand task.now (map vec_items rows.now) }
    requires simplex { simplex < length rows.now }
    ensures split { IfOk result (λ found.
        let t = at_hand task.now (map vec_items rows.now) in
        at_hand task.now (map vec_items found.items)
        ≡ split (by_stars (rule_at t simplex) (new_name t)) t) }
    ensures at_hand { IfOk result (λ found. IsAtHand task.now (map vec_items found.items)) }
    ensures within { IfOk result (λ found.
        let t = at_hand task.now (map vec_items rows.now) in
        split_fault (by_stars (rule_at t simplex) (new_name t)) t ≡ None) }
    ensures refused { IfErr result (λ fault. (fault ≡ OutOfMemory → ⊥)
        → let t = at_hand task.now (map vec_items rows.now) in
        split_fault (by_stars (rule_at t simplex) (new_name t)) t ≡ Some fault) }
{
    let simplices = task.inputs().simplices();
    let new = new_name(task, rows);
    let split = split_by(alloc, &simplices[simplex], &rows[simplex], new)?;
    let mut found = Vec::with_capacity(alloc, rows.len())?;
    let mut left = MAX_TUPLES;
    'simplices: for (place, tuples) in rows.iter().enumerate() {
        let made = rows_split(alloc, &split, &simplices[place], tuples, left)?;
        left -= made.len();
        found.push_reserved(sorted_unique(made));
    }
    Ok(found)
}

/// A split of an input simplex.
#[derive(Drop)]
struct Split<'a> {
    /// The simplex whose values get names.
    simplex: Simplex,
    /// The tuples of the simplex.
    rows: &'a [Row],
    /// The first new name.
    new: u32,
    /// The tuples of the simplex with names in place of values, in the order of `rows`.
    named: Vec<Row>,
    /// The table of choices: for each process and value, the value itself and its names.
    sets: Vec<Mask>,
}

/// Creates the split of `simplex`, which allows the tuples `rows`. New names begin with `new`.
/// Fails with `TooManyNames` if a name is too large.
fn split_by<'a>(
    alloc: Global,
    simplex: &Simplex,
    rows: &'a [Row],
    new: u32,
) -> Result<Split<'a>, RefineFault>
    requires few { length rows.now ≤ most_at_hand }
    requires ascending { in_order (slice_cmp nat_cmp) rows.now ≡ rows.now }
    requires long { All (λ row. length row ≡ length simplex.now) rows.now }
    requires new { new ≤ first_new }
    ensures seen { IfOk result (λ split. split_seen split ≡ splitting simplex.now rows.now new) }
    ensures split { IfOk result (λ split. IsSplit split) }
    ensures small { IfOk result (λ split.
        list_any (has_large_name (splitting simplex.now rows.now new)) rows.now ≡ false) }
    ensures refused { IfErr result (λ fault. (fault ≡ OutOfMemory → ⊥) → (fault ≡ TooManyNames)
        × (list_any (has_large_name (splitting simplex.now rows.now new)) rows.now ≡ true)) }
{
    let named = named_rows(alloc, simplex, rows, new)?;
    let sets = name_sets(alloc, simplex, rows, &named)?;
    Ok(Split {
        simplex: *simplex,
        rows,
        new,
        named,
        sets,
    })
}

/// Returns the table of choices of a split: for each process and value, the value itself and its
/// names. `named` holds the tuples `rows` with names in place of values.
fn name_sets(
    alloc: Global,
    simplex: &Simplex,
    rows: &[Row],
    named: &[Row],
) -> Result<Vec<Mask>, AllocError>
    requires long { All (λ row. length row ≡ length simplex.now) rows.now }
    requires each { length named.now ≡ length rows.now }
    requires named { All (λ row. length row ≡ length simplex.now) named.now }
    ensures sets { IfOk result (λ sets. (s : Splitting) → s.rule ≡ rule_of simplex.now rows.now
        → named.now ≡ map (with_names s) rows.now → AreChoices (choices s) 256 sets.items) }
    ensures small { IfOk result (λ sets. AllByRecursion (All (λ name. name ≤ 255)) named.now) }
{
    let mut sets = identity_choices(alloc)?;
    'places: for place in 0..simplex.colours() {
        add_names(&mut sets, simplex.colour(place), rows, named, place);
    }
    Ok(sets)
}

/// Adds to `sets`, for each row, the name at `place` in `named` to the choices for the row's value
/// there. `process` is the process at this place.
fn add_names(sets: &mut [Mask], process: u8, rows: &[Row], named: &[Row], place: u8)
    requires sets { length sets.old ≡ sets_listed }
    requires process { process < 4 }
    requires long { All (λ row. place < length row) rows.now }
    requires each { length named.now ≡ length rows.now }
    requires named { All (λ row. place < length row) named.now }
    ensures kept { length sets.new ≡ sets_listed }
    ensures names { (p v z : ℕ) → p < 4 → v < 256 → has (chosen_by sets.new p v) z
        ≡ (has (chosen_by sets.old p v) z
        || (process == p && has (names_beside place v rows.now named.now) z)) }
    ensures small { AllByRecursion (All (λ name. name ≤ 255)) named.now }
{
    'rows: for (number, row) in rows.iter().enumerate() {
        let name = &named[number];
        // for the proof only: a clause of this call states that names fit into a byte
        let _ = name.size();
        let at = set_place(process, row.value(place));
        sets[at] = with(sets[at], name.value(place));
    }
}

/// Returns the tuples of `simplex` after a split, unsorted and perhaps with duplicates. `rows` are
/// its tuples before the split. Fails with `TooManyTuples` if there are more than `most`.
fn rows_split(
    alloc: Global,
    split: &Split<'_>,
    simplex: &Simplex,
    rows: &[Row],
    most: usize,
) -> Result<Vec<Row>, RefineFault>
    requires split { IsSplit split.now }
    requires ascending { in_order (slice_cmp nat_cmp) rows.now ≡ rows.now }
    requires long { All (λ row. length row ≡ length simplex.now) rows.now }
    requires small { AllByRecursion (AllByRecursion (λ value. value < 256)) rows.now }
    ensures rows { IfOk result (λ found. found.items
        ≡ tuples_split (split_seen split.now) (rule_of simplex.now rows.now)) }
    ensures within { IfOk result (λ found. length found.items ≤ most) }
    ensures refused { IfErr result (λ fault. IsTooMany fault most
        (length (tuples_split (split_seen split.now) (rule_of simplex.now rows.now)))) }
{
    // for the proof only: the clauses of this call state what holds for every simplex
    let _ = simplex.colours();
    if is_part(simplex, &split.simplex) {
        face_rows(alloc, split, simplex, rows, most)
    } else {
        choice_rows(alloc, &split.sets, simplex, rows, most)
    }
}

/// Returns the tuples of `face`, a face of the split simplex, after the split: the restrictions to
/// `face` of those renamed tuples whose restriction before the split is in `allowed`. Fails with
/// `TooManyTuples` if there are more than `most`.
fn face_rows(
    alloc: Global,
    split: &Split<'_>,
    face: &Simplex,
    allowed: &[Row],
    most: usize,
) -> Result<Vec<Row>, RefineFault>
    requires split { IsSplit split.now }
    requires ascending { in_order (slice_cmp nat_cmp) allowed.now ≡ allowed.now }
    requires part { is_part face.now split.now.simplex ≡ true }
    ensures rows { IfOk result (λ found. found.items
        ≡ tuples_on_face (split_seen split.now) (rule_of face.now allowed.now)) }
    ensures within { IfOk result (λ found. length found.items ≤ most) }
    ensures refused { IfErr result (λ fault. IsTooMany fault most
        (length (tuples_on_face (split_seen split.now) (rule_of face.now allowed.now)))) }
{
    // for the proof only: the clauses of this call state what holds for every simplex
    let _ = face.colours();
    let mask = mask_of(alloc, face, &split.simplex)?;
    let mut found = Vec::new(alloc);
    'rows: for (number, row) in split.rows.iter().enumerate() {
        if has_row(allowed, &restricted_row(&mask, row)) {
            push_limited(
                &mut found,
                most,
                restricted_row(&mask, &split.named[number]),
            )?;
        }
    }
    Ok(found)
}
