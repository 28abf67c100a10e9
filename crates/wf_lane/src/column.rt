//! One place of a table: the value of each row as a word, and in a large table also the set of rows
//! of each value.

ghost use Rattle.std.specs.Prelude.{◌≡◌, ◌<◌, ◌≤◌, ◌+◌, ◌*◌, cond, length, IfOk};
ghost use Rattle.std.specs.List.{All};
ghost use Rattle.wf_base.specs.Set.Parts.{part_limit};
ghost use Rattle.wf_lane.specs.Words.{ors};
ghost use Rattle.wf_lane.specs.Table.{IsOneHot};
ghost use Rattle.wf_lane.specs.Rows.{AreMarked, ArePlaces, IsCut, IsWhole, block_limit, block_rows, block_words};

use std::alloc::{AllocError, Global};
use wf_base::set::set64::{Set64, contains};

/// Number of words in a set of rows of one block. With a bit for each row, a block has 512 rows.
pub(crate) const BLOCK_WORDS: usize = 8;

/// Number of possible values: a word has a bit for each.
const VALUES: u8 = 64;

/// The values of the rows of a table at one place.
///
/// If the rows are cut into blocks, each value that occurs has the set of the rows that have it:
/// bit i of its word k stands for row 64 * k + i. A set has the words of all blocks, and no bit
/// past the last row.
#[derive(Drop)]
pub(crate) struct Column {
    /// The value of each row, as a word with one bit set.
    pub(crate) words: Vec<u64>,
    /// The values that occur.
    pub(crate) values: Set64,
    /// Number of blocks, or 0 if the rows are not cut into blocks.
    pub(crate) blocks: usize,
    /// Index in `sets` at which the set of each value begins. Empty if the rows are not cut into
    /// blocks.
    pub(crate) starts: Vec<usize>,
    /// The sets of rows of all values, one after the other. Empty if the rows are not cut into
    /// blocks.
    pub(crate) sets: Vec<u64>,
}

/// The columns of a table, one for each place.
#[derive(Drop)]
pub(crate) struct Columns {
    pub(crate) first: Column,
    pub(crate) second: Column,
    pub(crate) third: Column,
    pub(crate) fourth: Column,
}

/// Returns the union of all `words`.
fn join_all(words: &[u64]) -> u64
    ensures { result ≡ ors words.now }
{
    let mut joined = 0;
    for word in words {
        joined |= *word;
    }
    joined
}

/// The layout of a column's row sets, which lie one after the other.
#[derive(Drop)]
struct Places {
    // number of words of a set
    words: usize,
    // index at which the set of each value begins
    starts: Vec<usize>,
    // index at which the last set ends
    end: usize,
}

/// Returns the index at which a set ends that begins at `start`. A value that doesn't occur has a
/// set of no words.
fn end_of(start: usize, words: usize, occurs: bool) -> usize
    requires { start + words ≤ part_limit * (block_words * block_limit) }
    ensures { result ≡ start + cond occurs words 0 }
{
    if occurs { start + words } else { start }
}

impl Places {
    /// Computes the layout of the row sets of `values`, with `words` words for each.
    fn of(alloc: Global, values: Set64, words: usize) -> Result<Places, AllocError>
        requires { words ≤ block_words * block_limit }
        ensures words { IfOk result (λ places. places.words ≡ words) }
        ensures apart { IfOk result (ArePlaces values) }
    {
        let mut starts = Vec::with_capacity(alloc, usize::from(VALUES))?;
        let mut end: usize = 0;
        'values: for value in 0..VALUES {
            starts.push_reserved(end);
            end = end_of(end, words, contains(values, value));
        }
        Ok(Places { words, starts, end })
    }

    /// Builds the row sets of the values that occur, where `words` has the value of each row.
    fn sets_of(&self, alloc: Global, words: &[u64]) -> Result<Vec<u64>, AllocError>
        requires one_hot { All IsOneHot words.now }
        requires apart { ArePlaces (ors words.now) self.now }
        requires room { length words.now ≤ 64 * self.now.words }
        ensures long { IfOk result (λ sets. length sets.items ≡ self.now.end) }
        ensures marked { IfOk result
            (λ sets. AreMarked (ors words.now) self.now words.now sets.items) }
    {
        let mut sets = vec![in alloc; 0; self.end]?;
        for row in 0..words.len() {
            let start = self.starts[words[row].trailing_zeros() as usize];
            sets[start + row / 64] |= 1 << (row % 64);
        }
        Ok(sets)
    }
}

impl Column {
    /// Creates a column of these rows that is not cut into blocks.
    pub(crate) fn whole(alloc: Global, words: Vec<u64>) -> Column
        ensures words { result.words.items ≡ words.items }
        ensures whole { IsWhole result }
    {
        let values = join_all(&words);
        Column {
            words,
            values,
            blocks: 0,
            starts: Vec::new(alloc),
            sets: Vec::new(alloc),
        }
    }

    /// Returns the number of values that occur.
    pub(crate) fn count_values(&self) -> usize
        ensures { result ≤ part_limit }
    {
        self.values.count_ones() as usize
    }

    /// Cuts the rows of the column into `blocks` blocks. Does nothing if `blocks` is 0.
    pub(crate) fn cut(self, alloc: Global, blocks: usize) -> Result<Column, AllocError>
        requires whole { IsWhole self }
        requires one_hot { All IsOneHot self.words.items }
        requires few { blocks ≤ block_limit }
        requires all { 0 < blocks → length self.words.items ≤ block_rows * blocks }
        ensures words { IfOk result (λ column. column.words.items ≡ self.words.items) }
        ensures blocks { IfOk result (λ column. column.blocks ≡ blocks) }
        ensures cut { IfOk result IsCut }
    {
        if blocks == 0 {
            return Ok(self);
        }
        let places = Places::of(alloc, self.values, BLOCK_WORDS * blocks)?;
        let sets = places.sets_of(alloc, &self.words)?;
        Ok(Column {
            blocks,
            starts: places.starts,
            sets,
            ..self
        })
    }
}
