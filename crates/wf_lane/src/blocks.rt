//! The kernel for tables that are cut into blocks, of 512 rows each: it takes a block a step.

ghost use Rattle.std.specs.Prelude.{◌≡◌, ◌<◌, ◌≤◌, ◌*◌, ◌^◌, ◌==◌, true, not, length, cond, filter, count_ones, sum_by};
ghost use Rattle.std.specs.List.{All};
ghost use Rattle.wf_model.specs.Lists.{has};
ghost use Rattle.wf_base.specs.Set.Parts.{part_limit, part_values};
ghost use Rattle.wf_lane.specs.Words.{ors};
ghost use Rattle.wf_lane.specs.Table.{AreOneHot};
ghost use Rattle.wf_lane.specs.Rows.{AreAllLeft, AreCut, AreJoined, AreLeft, IsCut, IsInBlocks, IsWanted, OccurIn, OccurInAll, block_rows, block_words, is_among, is_met, is_one_of, is_value, row_sets, rows_in};

use crate::column::{BLOCK_WORDS, Column, Columns};
use crate::lanes::Support64;
use std::simd::prelude::*;
use wf_base::set::set64::{Set64, difference, intersection, split_first, without};

/// Returns whether some lane of `rows` is not 0.
fn has_some(rows: u64x8) -> bool
    ensures { result ≡ not (ors rows == 0) }
{
    rows.reduce_or() != 0
}

/// Returns the number of rows in `rows`, a set of rows of one block.
fn count_rows(rows: u64x8) -> u32
    ensures { result ≡ sum_by count_ones rows }
{
    let [a, b, c, d, e, f, g, h] = rows.to_array();
    a.count_ones()
        + b.count_ones()
        + c.count_ones()
        + d.count_ones()
        + e.count_ones()
        + f.count_ones()
        + g.count_ones()
        + h.count_ones()
}

/// Returns `set` without `value` if `is_met` is true, or else unchanged.
pub(crate) fn without_met(set: Set64, value: u8, is_met: bool) -> Set64
    requires { value < part_limit }
    ensures { part_values result
        ≡ cond is_met (filter (λ v. not (v == value)) (part_values set)) (part_values set) }
{
    if is_met { without(set, value) } else { set }
}

impl Column {
    /// Returns the rows of a block that have `value`, which must occur. The block's rows are those
    /// of the eight words from `start` on.
    fn rows_with(&self, value: u8, start: usize) -> u64x8
        requires cut { IsCut self.now }
        requires value { has (part_values self.now.values) value ≡ true }
        requires small { value < part_limit }
        requires block { IsInBlocks self.now start }
        ensures { result ≡ row_sets (is_value value) self.now.words.items start block_words }
    {
        u64x8::from_slice(&self.sets[self.starts[value as usize] + start..])
    }

    /// Returns the rows of a block that have one of `values`. The block's rows are those of the
    /// eight words from `start` on.
    fn rows_among(&self, values: Set64, start: usize) -> u64x8
        requires cut { IsCut self.now }
        requires values { OccurIn self.now values }
        requires block { IsInBlocks self.now start }
        ensures { result ≡ row_sets (is_one_of values) self.now.words.items start block_words }
    {
        let mut joined = u64x8::splat(0);
        let mut left = values;
        'values: while let Some((value, others)) = split_first(left) {
            left = others;
            joined |= self.rows_with(value, start);
        }
        joined
    }

    /// Returns those of `values` that none of the rows `live` of a block has. The block's rows are
    /// those of the eight words from `start` on.
    fn unsupported(&self, values: Set64, live: u64x8, start: usize) -> Set64
        requires cut { IsCut self.now }
        requires values { OccurIn self.now values }
        requires block { IsInBlocks self.now start }
        ensures { AreLeft result values (is_met live self.now.words.items start) }
    {
        let mut unmet = values;
        let mut left = values;
        'values: while let Some((value, others)) = split_first(left) {
            left = others;
            let rows = live & self.rows_with(value, start);
            unmet = without_met(unmet, value, has_some(rows));
        }
        unmet
    }

    /// Returns the candidates that occur in some row.
    pub(crate) fn wanted(&self, candidates: Set64) -> Set64
        ensures wanted { IsWanted self.now result candidates }
        ensures occur { OccurIn self.now result }
    {
        intersection(candidates, self.values)
    }
}

impl Columns {
    /// Returns the rows of a block whose value at each place is in `wanted` there. The block's rows
    /// are those of the eight words from `start` on.
    fn live_rows(&self, wanted: [Set64; 4], start: usize) -> u64x8
        requires cut { AreCut self.now }
        requires wanted { OccurInAll self.now wanted }
        requires block { IsInBlocks self.now.first start }
        ensures { result ≡ row_sets (is_among wanted) (rows_in self.now) start block_words }
    {
        self.first.rows_among(wanted[0], start)
            & self.second.rows_among(wanted[1], start)
            & self.third.rows_among(wanted[2], start)
            & self.fourth.rows_among(wanted[3], start)
    }

    /// Returns for each place those of `values` that none of the rows `live` of a block has there.
    /// The block's rows are those of the eight words from `start` on.
    fn unsupported(&self, values: [Set64; 4], live: u64x8, start: usize) -> [Set64; 4]
        requires cut { AreCut self.now }
        requires values { OccurInAll self.now values }
        requires block { IsInBlocks self.now.first start }
        ensures { AreAllLeft self.now live start result values }
    {
        if !has_some(live) {
            return values;
        }
        [
            self.first.unsupported(values[0], live, start),
            self.second.unsupported(values[1], live, start),
            self.third.unsupported(values[2], live, start),
            self.fourth.unsupported(values[3], live, start),
        ]
    }

    /// Revises the table block by block: returns the values that some live row has at each place,
    /// and the number of live rows. A row is live if its value at each place is in `sets`.
    pub(crate) fn revise_blocks(&self, sets: [Set64; 4]) -> Support64
        requires cut { AreCut self.now }
        requires all { length self.now.first.words.items ≤ block_rows * self.now.first.blocks }
        requires few { length self.now.first.words.items < 2 ^ 32 }
        requires one_hot { All AreOneHot (rows_in self.now) }
        ensures { AreJoined sets (rows_in self.now) result.masks result.alive }
    {
        let wanted = [
            self.first.wanted(sets[0]),
            self.second.wanted(sets[1]),
            self.third.wanted(sets[2]),
            self.fourth.wanted(sets[3]),
        ];
        let mut unmet = wanted;
        let mut alive = 0;
        for block in 0..self.first.blocks {
            let start = BLOCK_WORDS * block;
            let live = self.live_rows(wanted, start);
            unmet = self.unsupported(unmet, live, start);
            alive += count_rows(live);
        }
        let masks = [
            difference(wanted[0], unmet[0]),
            difference(wanted[1], unmet[1]),
            difference(wanted[2], unmet[2]),
            difference(wanted[3], unmet[3]),
        ];
        Support64 { masks, alive }
    }
}
