//! Lifts the tuples of a task to the sheets of a cover.

ghost use Rattle.std.specs.Prelude.{◌≡◌, ◌<◌, ◌≤◌, ◌+◌, ◌*◌, ◌/◌, ◌%◌, ◌++◌, All, IfErr, IfOk, None, OnOk, Some, length, map, true, vec_items};
ghost use Rattle.std.specs.Cmp.Lexicographic.{slice_cmp};
ghost use Rattle.std.specs.List.{AllByRecursion};
ghost use Rattle.std.specs.Ordering.{nat_cmp};
ghost use Rattle.wf_model.specs.Lists.{below, in_order};
ghost use Rattle.wf_base.specs.Set.Sets.{values_in};
ghost use Rattle.wf_tree_model.specs.Counting.Signs.{keep};
ghost use Rattle.wf_tree_model.specs.Covers.{covered, is_flat, is_flat_on, lifted, lifts, lifts_on_face, tuples_covered};
ghost use Rattle.wf_tree_model.specs.Tuples.{is_part};
ghost use Rattle.wf_tree_refine.specs.AtHand.{IsAtHand, at_hand};
ghost use Rattle.wf_tree_refine.specs.Choices.{AreChoices, sets_listed};
ghost use Rattle.wf_tree_refine.specs.Limits.{IsTooMany};
ghost use Rattle.wf_tree_refine.specs.Names.{first_new};
ghost use Rattle.wf_tree_refine.specs.SplitSeen.{rule_of};
ghost use Rattle.wf_tree_refine.specs.declared.fault.RefineFault.TheVariants.{OutOfMemory};
ghost use Rattle.wf_tree_steps.specs.Cover.Faults.{cover_fault, cover_seen};
ghost use Rattle.wf_tree_steps.specs.Cover.LiftSeen.{IsLift, lift_seen, on_sheets, sheeted};
ghost use Rattle.wf_tree_steps.specs.Cover.Limits.{sheets_fault};

use crate::cover::cover::Covering;
use crate::cover::flat::{KeyedCovering, moved};
use crate::cover::turns::index_moves;
use std::alloc::{AllocError, Global};
use wf_base::set::{Mask, empty, singleton, with};
use wf_simplex::Simplex;
use wf_task::{Row, Task};
use wf_tree_refine::{
    MAX_NAME, MAX_TUPLES, RefineFault, SETS, choice_rows, has_row, is_part, mask_of, new_name,
    push_limited, restricted_row, sorted_unique, vertex_at,
};

/// Returns the tuples of all input simplices after `cover` was applied, which must have no fault.
/// `rows` holds the tuples of each input simplex before.
///
/// On the covered simplex and its faces, values are lifted to sheets together, as the cover's moves
/// say; the corner itself is on sheet 0. On all other simplices, the processes of the covered
/// simplex may decide each value on any sheet. The value `v` on sheet `s` gets the name `v + s *
/// n`, where `n` is the first name larger than all values in `rows`.
///
/// # Errors
///
/// - [`RefineFault::TooManyNames`]: the names on all sheets do not fit into a byte.
/// - [`RefineFault::TooManyTuples`]: otherwise, if more than
///   [`MAX_TUPLES`](wf_tree_refine::MAX_TUPLES) tuples would be made.
/// - [`RefineFault::OutOfMemory`]: memory ran out.
pub fn covered_rows(
    alloc: Global,
    task: &Task,
    rows: &[Vec<Row>],
    cover: &Covering,
) -> Result<Vec<Vec<Row>>, RefineFault>
    requires at_hand { IsAtHand task.now (map vec_items rows.now) }
    requires simplex { cover.now.simplex < length rows.now }
    requires faultless { let t = at_hand task.now (map vec_items rows.now) in
        cover_fault (cover_seen t cover.now) ≡ None }
    ensures covered { IfOk result (λ found.
        let t = at_hand task.now (map vec_items rows.now) in
        at_hand task.now (map vec_items found.items) ≡ covered (cover_seen t cover.now) t) }
    ensures at_hand { IfOk result (λ found. IsAtHand task.now (map vec_items found.items)) }
    ensures within { IfOk result (λ found.
        let t = at_hand task.now (map vec_items rows.now) in
        sheets_fault (cover_seen t cover.now) t ≡ None) }
    ensures refused { IfErr result (λ fault. (fault ≡ OutOfMemory → ⊥)
        → let t = at_hand task.now (map vec_items rows.now) in
        sheets_fault (cover_seen t cover.now) t ≡ Some fault) }
{
    let new = new_name(task, rows);
    if u32::from(cover.sheets) * new > MAX_NAME + 1 {
        return Err(RefineFault::TooManyNames);
    }
    let simplices = task.inputs().simplices();
    let number = cover.simplex as usize;
    let lift = lift_tables(alloc, cover, &simplices[number], &rows[number], new)?;
    let mut found = Vec::with_capacity(alloc, rows.len())?;
    let mut left = MAX_TUPLES;
    'simplices: for (place, tuples) in rows.iter().enumerate() {
        let made = lift_rows(alloc, &lift, &simplices[place], tuples, left)?;
        left -= made.len();
        found.push_reserved(sorted_unique(made));
    }
    Ok(found)
}

/// A cover with the tables that lift tuples to its sheets.
#[derive(Drop)]
pub(crate) struct Lift<'a> {
    /// The cover, with an index of its moves.
    pub round: KeyedCovering<'a>,
    /// The covered simplex.
    pub simplex: Simplex,
    /// The tuples of the covered simplex.
    pub rows: &'a [Row],
    /// The number of names on each sheet.
    pub new: u32,
    /// The corner: the vertex on which values are on sheet 0.
    pub corner: Simplex,
    /// The table of choices: for each process of the simplex and each value, the value's names on
    /// all sheets; for other processes, the value itself.
    pub sets: Vec<Mask>,
}

/// Builds the tables that lift tuples to the sheets of `cover`. `simplex` is the simplex that the
/// cover covers, `rows` are its tuples, and `new` is the number of names on each sheet.
fn lift_tables<'a>(
    alloc: Global,
    cover: &'a Covering,
    simplex: &Simplex,
    rows: &'a [Row],
    new: u32,
) -> Result<Lift<'a>, AllocError>
    requires long { All (λ row. length row ≡ length simplex.now) rows.now }
    requires small { AllByRecursion (AllByRecursion (λ value. value < new)) rows.now }
    requires corner { cover.now.corner < length simplex.now }
    requires flat { is_flat (sheeted cover.now simplex.now rows.now new) ≡ true }
    requires names { cover.now.sheets * new ≤ first_new }
    requires few { new ≤ first_new }
    ensures seen { IfOk result (λ lift. lift_seen lift
        ≡ sheeted cover.now simplex.now rows.now new) }
    ensures lift { IfOk result (λ lift. IsLift lift) }
{
    let turns = index_moves(alloc, &cover.moves)?;
    let sets = sheet_sets(alloc, simplex, cover.sheets, new)?;
    Ok(Lift {
        round: KeyedCovering { cover, turns },
        simplex: *simplex,
        rows,
        new,
        corner: vertex_at(simplex, cover.corner),
        sets,
    })
}

/// Returns the table of choices of a cover: for each process of `simplex` and each value below
/// `new`, the value's names on all `sheets`; for others, the value itself.
fn sheet_sets(
    alloc: Global,
    simplex: &Simplex,
    sheets: u8,
    new: u32,
) -> Result<Vec<Mask>, AllocError>
    requires names { sheets * new ≤ first_new }
    requires few { new ≤ first_new }
    ensures { IfOk result (λ sets. AreChoices (on_sheets simplex.now sheets new) new sets.items) }
{
    let mut sets = Vec::with_capacity(alloc, SETS)?;
    'places: for place in 0..SETS {
        sets.push_reserved(set_at(simplex, sheets, new, place));
    }
    Ok(sets)
}

/// Returns the entry at index `place` of the table of choices that [`sheet_sets`] builds. The index
/// of `value` at `process` is `256 * process + value`.
fn set_at(simplex: &Simplex, sheets: u8, new: u32, place: usize) -> Mask
    requires names { sheets * new ≤ first_new }
    requires inside { place < sets_listed }
    ensures { place % 256 < new
        → values_in result ≡ on_sheets simplex.now sheets new (place / 256) (place % 256) }
{
    let process = (place / 256) as u8;
    let value = (place % 256) as u8;
    if u32::from(value) >= new {
        return singleton(value);
    }
    if simplex.place(process).is_none() {
        return singleton(value);
    }
    sheet_set(value, sheets, new)
}

/// Returns the set of the names of `value` on all `sheets`.
fn sheet_set(value: u8, sheets: u8, new: u32) -> Mask
    requires names { sheets * new ≤ first_new }
    requires value { value < new }
    ensures { values_in result ≡ map (λ sheet. value + sheet * new) (below sheets) }
{
    let mut set = empty();
    'sheets: for sheet in 0..sheets {
        let more = with(set, name_on(value, u32::from(sheet), new));
        set = more;
    }
    set
}

/// Returns the name of `value` on the sheet `sheet`, if each sheet has `new` names.
fn name_on(value: u8, sheet: u32, new: u32) -> u8
    requires { value + sheet * new ≤ 255 }
    ensures { result ≡ value + sheet * new }
{
    (u32::from(value) + sheet * new) as u8
}

/// Returns the tuples of `simplex` with values on sheets, unsorted and perhaps with duplicates.
/// `rows` are its tuples without sheets. Fails with `TooManyTuples` if there are more than `most`.
fn lift_rows(
    alloc: Global,
    lift: &Lift<'_>,
    simplex: &Simplex,
    rows: &[Row],
    most: usize,
) -> Result<Vec<Row>, RefineFault>
    requires lift { IsLift lift.now }
    requires ascending { in_order (slice_cmp nat_cmp) rows.now ≡ rows.now }
    requires long { All (λ row. length row ≡ length simplex.now) rows.now }
    requires small { AllByRecursion (AllByRecursion (λ value. value < lift.now.new)) rows.now }
    ensures rows { IfOk result (λ found. found.items
        ≡ tuples_covered (lift_seen lift.now) (rule_of simplex.now rows.now)) }
    ensures within { IfOk result (λ found. length found.items ≤ most) }
    ensures refused { IfErr result (λ fault. IsTooMany fault most
        (length (tuples_covered (lift_seen lift.now) (rule_of simplex.now rows.now)))) }
{
    // for the proof only: the clauses of this call state what holds for every simplex
    let _ = simplex.colours();
    if *simplex == lift.corner {
        rows_within(alloc, rows, most)
    } else if is_part(simplex, &lift.simplex) {
        face_rows(alloc, lift, simplex, rows, most)
    } else {
        choice_rows(alloc, &lift.sets, simplex, rows, most)
    }
}

/// Copies `rows`. Fails with `TooManyTuples` if there are more than `most`.
fn rows_within(alloc: Global, rows: &[Row], most: usize) -> Result<Vec<Row>, RefineFault>
    ensures rows { IfOk result (λ found. found.items ≡ rows.now) }
    ensures within { IfOk result (λ found. length found.items ≤ most) }
    ensures refused { IfErr result (λ fault. IsTooMany fault most (length rows.now)) }
{
    let mut found = Vec::new(alloc);
    'rows: for row in rows {
        push_limited(&mut found, most, *row)?;
    }
    Ok(found)
}

/// Returns the tuples of `face`, a face of the covered simplex, with values on sheets: the
/// restrictions to `face` of the lifts of those tuples whose own restriction is in `allowed`. Fails
/// with `TooManyTuples` if there are more than `most`.
fn face_rows(
    alloc: Global,
    lift: &Lift<'_>,
    face: &Simplex,
    allowed: &[Row],
    most: usize,
) -> Result<Vec<Row>, RefineFault>
    requires lift { IsLift lift.now }
    requires ascending { in_order (slice_cmp nat_cmp) allowed.now ≡ allowed.now }
    requires part { is_part face.now lift.now.simplex ≡ true }
    ensures rows { IfOk result (λ found. found.items
        ≡ lifts_on_face (lift_seen lift.now) (rule_of face.now allowed.now)) }
    ensures within { IfOk result (λ found. length found.items ≤ most) }
    ensures refused { IfErr result (λ fault. IsTooMany fault most
        (length (lifts_on_face (lift_seen lift.now) (rule_of face.now allowed.now)))) }
{
    // for the proof only: the clauses of this call state what holds for every simplex
    let _ = face.colours();
    let mask = mask_of(alloc, face, &lift.simplex)?;
    let mut found = Vec::new(alloc);
    'rows: for row in lift.rows {
        if has_row(allowed, &restricted_row(&mask, row)) {
            push_lifts(&mut found, lift, &mask, row, most)?;
        }
    }
    Ok(found)
}

/// Appends to `found`, for each sheet, the lift of `row` with this sheet at the corner, restricted
/// to the places that are true in `mask`. Fails with `TooManyTuples` if `found` would have more
/// than `most` rows.
fn push_lifts(
    found: &mut Vec<Row>,
    lift: &Lift<'_>,
    mask: &[bool],
    row: &Row,
    most: usize,
) -> Result<(), RefineFault>
    requires lift { IsLift lift.now }
    requires long { length row.now ≡ length lift.now.simplex }
    requires small { AllByRecursion (λ value. value < lift.now.new) row.now }
    requires flat { is_flat_on (lift_seen lift.now) row.now ≡ true }
    requires each { length mask.now ≡ length row.now }
    requires some { 0 < length (keep mask.now row.now) }
    requires within { length found.old.items ≤ most }
    ensures pushed { OnOk result (found.new.items
        ≡ found.old.items ++ map (keep mask.now) (lifts (lift_seen lift.now) row.now)) }
    ensures within { OnOk result (length found.new.items ≤ most) }
    ensures refused { IfErr result (λ fault. IsTooMany fault most
        (length found.old.items + length (lifts (lift_seen lift.now) row.now))) }
{
    'sheets: for sheet in 0..lift.round.cover.sheets {
        push_limited(found, most, restricted_row(mask, &lifted(lift, row, sheet)))?;
    }
    Ok(())
}

/// Returns `row` with each value replaced by its name on a sheet: the value at the corner is on
/// `sheet`, and the sheets at the other places follow by the moves of the cover.
fn lifted(lift: &Lift<'_>, row: &Row, sheet: u8) -> Row
    requires lift { IsLift lift.now }
    requires long { length row.now ≡ length lift.now.simplex }
    requires small { AllByRecursion (λ value. value < lift.now.new) row.now }
    requires flat { is_flat_on (lift_seen lift.now) row.now ≡ true }
    requires sheet { sheet < lift.now.round.cover.now.sheets }
    ensures { result ≡ lifted (lift_seen lift.now) row.now sheet }
{
    let mut values = [0; 4];
    'places: for place in 0..row.size() {
        let there = moved(&lift.round, row, lift.round.cover.corner, place, sheet);
        values[usize::from(place)] = name_on(row.value(place), there as u32, lift.new);
    }
    Row::new(&values[..usize::from(row.size())])
}
