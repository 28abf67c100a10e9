//! The table of a rule's tuples, in the form that suits their number and their largest value.

ghost use Rattle.std.specs.Prelude.{◌≡◌, ℕ, ◌<◌, ◌≤◌, ◌^◌, ◌*◌, [], All, IfOk, length, map, slice_index, slice_index_or, count_by};
ghost use Rattle.wf_model.specs.Box.{is_alive};
ghost use Rattle.wf_base.specs.Set.Parts.{part_limit, part_values};
ghost use Rattle.wf_base.specs.Set.Sets.{values_in};
ghost use Rattle.wf_lane.specs.Table.{AreFirstParts, AreNarrow, AreOneHot, HasSupported, IsOneHot, closed, opened, sets_of, word_at};
ghost use Rattle.wf_lane.specs.Rows.{AreCut, AreJoined, HasColumns, IsStored, IsWhole, block_limit, block_rows, rows_in, table_in};

use crate::column::{BLOCK_WORDS, Column, Columns};
use crate::few::WORD_ROWS;
use crate::lanes::{Support64, revise_columns, word_or};
use crate::wide::{is_narrow, revise_rows};
use std::alloc::{AllocError, Global};
use std::marker::Model;
use std::sync::Arc;
use wf_base::set::set64::Set64;
use wf_base::set::{Mask, from_set64, low_set64};
use wf_task::Row;

/// Number of rows that the kernel for uncut tables takes in about the time that the kernel for
/// blocks needs for one value of one place in one block.
const ROWS_OF_A_VALUE: usize = 2;

/// The result of the kernel: the supported values, and the number of live rows.
#[derive(Clone, Copy, Debug, PartialEq, Eq)]
pub struct Support {
    /// The supported values at each place: those that some live row has there. Past the width of
    /// the table the sets are empty.
    pub masks: [Mask; 4],
    /// Number of live rows: rows whose value at each place is a candidate there.
    pub alive: u32,
}

/// The two forms in which a table stores its rows.
#[derive(Drop)]
enum Kind {
    // All values are below 64. A row that is narrower than four has the value 0 at the remaining
    // places.
    Narrow(Columns),
    // Some value is 64 or more: the rows, unchanged.
    Wide(Vec<Row>),
}

/// A table of rows of the same width, which is from 1 to 4.
///
/// A clause sees it as the width and the list of the rows.
#[derive(Drop)]
pub struct TupleTable {
    width: u8,
    // the rows, which several tables may share
    kind: Arc<Kind, Global>,
}

impl Model for TupleTable {
    ghost use Rattle.wf_lane.specs.Table.{Table};
    ghost use Rattle.wf_lane.specs.Kinds.{IsKind, table_of_kind};

    ghost Value = { Table };

    ghost view = { λ t. table_of_kind t.width t.kind.value };

    ghost invariant = { λ t. IsKind t.width t.kind.value };
}

/// Returns the value of `row` at `place` as a word with one bit set, or that of 0 past its end.
/// `width` is the length of the row; the caller passes it so that a loop over rows tests it only
/// once.
fn word_at(row: &Row, width: u8, place: u8) -> u64
    requires long { length row.now ≡ width }
    requires narrow { All (λ x. x < part_limit) row.now }
    ensures { result ≡ word_at place row.now }
{
    if place < width {
        1 << row.value(place)
    } else {
        1
    }
}

/// Returns the number of blocks into which `rows` rows should be cut, or 0 if the kernel of eight
/// rows a step is faster. `values` is the number of values that occur, summed over the places.
fn blocks_of(rows: usize, values: usize) -> usize
    requires rows { rows < 2 ^ 32 }
    requires values { values ≤ 256 }
    ensures few { result ≤ block_limit }
    ensures all { 0 < result → rows ≤ block_rows * result }
{
    let blocks = rows.div_ceil(64 * BLOCK_WORDS);
    if rows < ROWS_OF_A_VALUE * values * blocks {
        0
    } else {
        blocks
    }
}

/// Returns the value of each row at `place` as a word. All rows have the width `width`.
fn words_at(alloc: Global, rows: &[Row], width: u8, place: u8) -> Result<Vec<u64>, AllocError>
    requires long { All (λ row. length row ≡ width) rows.now }
    requires narrow { AreNarrow rows.now }
    ensures words { IfOk result (λ words. words.items ≡ map (word_at place) rows.now) }
    ensures one_hot { IfOk result (λ words. All IsOneHot words.items) }
{
    let mut words = Vec::with_capacity(alloc, rows.len())?;
    for row in rows {
        words.push_reserved(word_at(row, width, place));
    }
    Ok(words)
}

/// Creates the column of `place`, not cut into blocks. All rows have the width `width`.
fn column(alloc: Global, rows: &[Row], width: u8, place: u8) -> Result<Column, AllocError>
    requires long { All (λ row. length row ≡ width) rows.now }
    requires narrow { AreNarrow rows.now }
    ensures words { IfOk result (λ column. column.words.items ≡ map (word_at place) rows.now) }
    ensures one_hot { IfOk result (λ column. All IsOneHot column.words.items) }
    ensures whole { IfOk result IsWhole }
{
    let words = words_at(alloc, rows, width, place)?;
    Ok(Column::whole(alloc, words))
}

/// Returns the values below 64 of each set. This loses nothing, as no row of a narrow table has
/// another value.
fn first_parts(sets: [Mask; 4]) -> [Set64; 4]
    ensures { AreFirstParts result sets }
{
    [
        low_set64(sets[0]),
        low_set64(sets[1]),
        low_set64(sets[2]),
        low_set64(sets[3]),
    ]
}

/// Converts sets of values below 64 to sets of four words each.
fn of_parts(parts: [Set64; 4]) -> [Mask; 4]
    ensures { (place : ℕ) → values_in (slice_index_or result place [])
        ≡ part_values (slice_index parts place) }
{
    [
        from_set64(parts[0]),
        from_set64(parts[1]),
        from_set64(parts[2]),
        from_set64(parts[3]),
    ]
}

/// Replaces the sets from place `width` on by the set of all values, so that they restrict no row.
fn open_past(width: u8, sets: [Set64; 4]) -> [Set64; 4]
    ensures { result ≡ opened width sets }
{
    [
        sets[0],
        word_or(1 < width, sets[1], u64::MAX),
        word_or(2 < width, sets[2], u64::MAX),
        word_or(3 < width, sets[3], u64::MAX),
    ]
}

/// Replaces the sets from place `width` on by the empty set.
fn clear_past(width: u8, masks: [Set64; 4]) -> [Set64; 4]
    ensures { result ≡ closed width masks }
{
    [
        masks[0],
        word_or(1 < width, masks[1], 0),
        word_or(2 < width, masks[2], 0),
        word_or(3 < width, masks[3], 0),
    ]
}

/// Revises the columns with the kernel for their form: returns the values that some live row has at
/// each place, and the number of live rows.
fn support_in(columns: &Columns, sets: [Set64; 4]) -> Support64
    requires cut { AreCut columns.now }
    requires all { 0 < columns.now.first.blocks
        → length columns.now.first.words.items ≤ block_rows * columns.now.first.blocks }
    requires few { length columns.now.first.words.items < 2 ^ 32 }
    requires one_hot { All AreOneHot (rows_in columns.now) }
    ensures { AreJoined sets (rows_in columns.now) result.masks result.alive }
{
    if columns.first.blocks == 0 {
        return revise_columns(
            &columns.first.words,
            &columns.second.words,
            &columns.third.words,
            &columns.fourth.words,
            sets,
        );
    }
    if columns.first.words.len() > WORD_ROWS {
        return columns.revise_blocks(sets);
    }
    columns.revise_few(sets)
}

/// Builds the columns of `rows`, which all have the width `width`.
fn columns_of(alloc: Global, rows: &[Row], width: u8) -> Result<Columns, AllocError>
    requires few { length rows.now < 2 ^ 32 }
    requires long { All (λ row. length row ≡ width) rows.now }
    requires narrow { AreNarrow rows.now }
    ensures { IfOk result (HasColumns rows.now) }
{
    let first = column(alloc, rows, width, 0)?;
    let second = column(alloc, rows, width, 1)?;
    let third = column(alloc, rows, width, 2)?;
    let fourth = column(alloc, rows, width, 3)?;
    let values = first.count_values()
        + second.count_values()
        + third.count_values()
        + fourth.count_values();
    let blocks = blocks_of(rows.len(), values);
    Ok(Columns {
        first: first.cut(alloc, blocks)?,
        second: second.cut(alloc, blocks)?,
        third: third.cut(alloc, blocks)?,
        fourth: fourth.cut(alloc, blocks)?,
    })
}

/// Returns what the columns of a table of width `width` support of `candidates`, and the number of
/// live rows.
fn support_of(columns: &Columns, width: u8, candidates: [Mask; 4]) -> Support
    requires { IsStored width columns.now }
    ensures supported { HasSupported result.masks (table_in width columns.now) candidates }
    ensures rest { (place : ℕ) → width ≤ place
        → values_in (slice_index_or result.masks place []) ≡ [] }
    ensures alive { result.alive
        ≡ count_by (is_alive (sets_of width candidates)) (table_in width columns.now).rows }
{
    let sets = open_past(width, first_parts(candidates));
    let found = support_in(columns, sets);
    Support {
        masks: of_parts(clear_past(width, found.masks)),
        alive: found.alive,
    }
}

impl TupleTable {
    /// Builds the table of `rows`, which all have the width `width`, from 1 to 4. There must be
    /// fewer than 2^32 rows.
    ///
    /// # Errors
    ///
    /// Returns `AllocError` if memory runs out.
    pub fn build(alloc: Global, rows: &[Row], width: u8) -> Result<TupleTable, AllocError>
        requires some { 1 ≤ width }
        requires narrow { width ≤ 4 }
        requires long { All (λ row. length row ≡ width) rows.now }
        requires few { length rows.now < 2 ^ 32 }
        ensures { IfOk result (λ table. table ≡ record { width = width; rows = rows.now }) }
    {
        let kind = if is_narrow(rows) {
            Kind::Narrow(columns_of(alloc, rows, width)?)
        } else {
            Kind::Wide(rows.to_vec(alloc)?)
        };
        Ok(TupleTable {
            width,
            kind: Arc::new(alloc, kind)?,
        })
    }

    /// Returns another handle on the same rows, which are not copied.
    ///
    /// # Errors
    ///
    /// Returns `AllocError` if too many handles share the rows.
    pub fn share(&self) -> Result<TupleTable, AllocError>
        ensures { IfOk result (λ table. table ≡ self.now) }
    {
        Ok(TupleTable {
            width: self.width,
            kind: Arc::try_clone(&self.kind)?,
        })
    }

    /// Returns the supported values at each place, and the number of live rows. A row is live if
    /// its value at each place is a candidate there, and a value is supported at a place if some
    /// live row has it there. Candidates past the width of the table are ignored.
    pub fn revise(&self, candidates: [Mask; 4]) -> Support
        ensures supported { HasSupported result.masks self.now candidates }
        ensures rest { (place : ℕ) → self.now.width ≤ place
            → values_in (slice_index_or result.masks place []) ≡ [] }
        ensures alive { result.alive
            ≡ count_by (is_alive (sets_of self.now.width candidates)) self.now.rows }
    {
        match &*self.kind {
            Kind::Narrow(columns) => support_of(columns, self.width, candidates),
            Kind::Wide(rows) => revise_rows(rows, candidates),
        }
    }
}
