//! The kernel for tables that have at most 64 rows and are cut into blocks: only the first word of
//! each row set is used.

ghost use Rattle.std.specs.Prelude.{◌≡◌, ◌<◌, ◌≤◌, true, length};
ghost use Rattle.std.specs.List.{All};
ghost use Rattle.wf_model.specs.Lists.{has};
ghost use Rattle.wf_base.specs.Set.Parts.{part_limit, part_values};
ghost use Rattle.wf_lane.specs.Table.{AreOneHot};
ghost use Rattle.wf_lane.specs.Rows.{AreCut, AreFewLeft, AreJoined, AreLeft, AreWanted, IsCut, OccurIn, OccurInAll, is_among, is_met_early, is_one_of, is_value, row_set, rows_in, word_rows};

use crate::blocks::without_met;
use crate::column::{Column, Columns};
use crate::lanes::Support64;
use wf_base::set::set64::{Set64, difference, split_first};

/// Number of rows that one word of a row set covers.
pub(crate) const WORD_ROWS: usize = 64;

impl Column {
    /// Returns those of the first 64 rows that have `value`, which must occur.
    fn early_with(&self, value: u8) -> u64
        requires cut { IsCut self.now }
        requires blocks { 0 < self.now.blocks }
        requires value { has (part_values self.now.values) value ≡ true }
        requires small { value < part_limit }
        ensures { result ≡ row_set (is_value value) self.now.words.items 0 }
    {
        self.sets[self.starts[value as usize]]
    }

    /// Returns those of the first 64 rows that have one of `values`.
    fn early_among(&self, values: Set64) -> u64
        requires cut { IsCut self.now }
        requires blocks { 0 < self.now.blocks }
        requires values { OccurIn self.now values }
        ensures { result ≡ row_set (is_one_of values) self.now.words.items 0 }
    {
        let mut joined = 0;
        let mut left = values;
        'values: while let Some((value, others)) = split_first(left) {
            left = others;
            joined |= self.early_with(value);
        }
        joined
    }

    /// Returns those of `values` that none of the rows `live` has, a set of some of the first 64
    /// rows.
    fn unmet_early(&self, values: Set64, live: u64) -> Set64
        requires cut { IsCut self.now }
        requires blocks { 0 < self.now.blocks }
        requires values { OccurIn self.now values }
        ensures { AreLeft result values (is_met_early live self.now.words.items) }
    {
        let mut unmet = values;
        let mut left = values;
        'values: while let Some((value, others)) = split_first(left) {
            left = others;
            let rows = live & self.early_with(value);
            unmet = without_met(unmet, value, rows != 0);
        }
        unmet
    }
}

impl Columns {
    /// Returns for each place the candidates that occur there in some row.
    fn wanted(&self, sets: [Set64; 4]) -> [Set64; 4]
        ensures wanted { AreWanted self.now result sets }
        ensures occur { OccurInAll self.now result }
    {
        [
            self.first.wanted(sets[0]),
            self.second.wanted(sets[1]),
            self.third.wanted(sets[2]),
            self.fourth.wanted(sets[3]),
        ]
    }

    /// Returns those of the first 64 rows whose value at each place is in `wanted` there.
    fn live_early(&self, wanted: [Set64; 4]) -> u64
        requires cut { AreCut self.now }
        requires blocks { 0 < self.now.first.blocks }
        requires wanted { OccurInAll self.now wanted }
        ensures { result ≡ row_set (is_among wanted) (rows_in self.now) 0 }
    {
        self.first.early_among(wanted[0])
            & self.second.early_among(wanted[1])
            & self.third.early_among(wanted[2])
            & self.fourth.early_among(wanted[3])
    }

    /// Returns for each place those of `values` that none of the rows `live` has there, a set of
    /// some of the first 64 rows.
    fn all_unmet_early(&self, values: [Set64; 4], live: u64) -> [Set64; 4]
        requires cut { AreCut self.now }
        requires blocks { 0 < self.now.first.blocks }
        requires values { OccurInAll self.now values }
        ensures { AreFewLeft self.now live result values }
    {
        [
            self.first.unmet_early(values[0], live),
            self.second.unmet_early(values[1], live),
            self.third.unmet_early(values[2], live),
            self.fourth.unmet_early(values[3], live),
        ]
    }

    /// Revises a table of at most 64 rows: returns the values that some live row has at each place,
    /// and the number of live rows. A row is live if its value at each place is in `sets`.
    pub(crate) fn revise_few(&self, sets: [Set64; 4]) -> Support64
        requires cut { AreCut self.now }
        requires blocks { 0 < self.now.first.blocks }
        requires few { length self.now.first.words.items ≤ word_rows }
        requires one_hot { All AreOneHot (rows_in self.now) }
        ensures { AreJoined sets (rows_in self.now) result.masks result.alive }
    {
        let wanted = self.wanted(sets);
        let live = self.live_early(wanted);
        let unmet = self.all_unmet_early(wanted, live);
        let masks = [
            difference(wanted[0], unmet[0]),
            difference(wanted[1], unmet[1]),
            difference(wanted[2], unmet[2]),
            difference(wanted[3], unmet[3]),
        ];
        let alive = live.count_ones();
        Support64 { masks, alive }
    }
}
