//! Words: the ordered partitions of the participants of one round.

ghost use Rattle.std.specs.Prelude.{◌≡◌, ℕ, ◌+◌, ◌<◌, ◌≤◌, ◌==◌, Contains, IsTrue, false, nat_le, length, count_by, slice_get, slice_index, Some};
ghost use Rattle.std.specs.Bool.{OnFalse};
ghost use Rattle.wf_model.specs.Word.{is_allowed, words};
ghost use Rattle.wf_simplex.specs.WordTable.{start_of, end_of};

use std::marker::Model;

/// The words of one participant, then those of two, of three and of four, in ascending order for
/// each size. Shorter words are padded with zeros.
static WORDS: [[u8; 4]; 92] = [
    [0, 0, 0, 0],
    [0, 0, 0, 0],
    [0, 1, 0, 0],
    [1, 0, 0, 0],
    [0, 0, 0, 0],
    [0, 0, 1, 0],
    [0, 1, 0, 0],
    [0, 1, 1, 0],
    [0, 1, 2, 0],
    [0, 2, 1, 0],
    [1, 0, 0, 0],
    [1, 0, 1, 0],
    [1, 0, 2, 0],
    [1, 1, 0, 0],
    [1, 2, 0, 0],
    [2, 0, 1, 0],
    [2, 1, 0, 0],
    [0, 0, 0, 0],
    [0, 0, 0, 1],
    [0, 0, 1, 0],
    [0, 0, 1, 1],
    [0, 0, 1, 2],
    [0, 0, 2, 1],
    [0, 1, 0, 0],
    [0, 1, 0, 1],
    [0, 1, 0, 2],
    [0, 1, 1, 0],
    [0, 1, 1, 1],
    [0, 1, 1, 2],
    [0, 1, 2, 0],
    [0, 1, 2, 1],
    [0, 1, 2, 2],
    [0, 1, 2, 3],
    [0, 1, 3, 2],
    [0, 2, 0, 1],
    [0, 2, 1, 0],
    [0, 2, 1, 1],
    [0, 2, 1, 2],
    [0, 2, 1, 3],
    [0, 2, 2, 1],
    [0, 2, 3, 1],
    [0, 3, 1, 2],
    [0, 3, 2, 1],
    [1, 0, 0, 0],
    [1, 0, 0, 1],
    [1, 0, 0, 2],
    [1, 0, 1, 0],
    [1, 0, 1, 1],
    [1, 0, 1, 2],
    [1, 0, 2, 0],
    [1, 0, 2, 1],
    [1, 0, 2, 2],
    [1, 0, 2, 3],
    [1, 0, 3, 2],
    [1, 1, 0, 0],
    [1, 1, 0, 1],
    [1, 1, 0, 2],
    [1, 1, 1, 0],
    [1, 1, 2, 0],
    [1, 2, 0, 0],
    [1, 2, 0, 1],
    [1, 2, 0, 2],
    [1, 2, 0, 3],
    [1, 2, 1, 0],
    [1, 2, 2, 0],
    [1, 2, 3, 0],
    [1, 3, 0, 2],
    [1, 3, 2, 0],
    [2, 0, 0, 1],
    [2, 0, 1, 0],
    [2, 0, 1, 1],
    [2, 0, 1, 2],
    [2, 0, 1, 3],
    [2, 0, 2, 1],
    [2, 0, 3, 1],
    [2, 1, 0, 0],
    [2, 1, 0, 1],
    [2, 1, 0, 2],
    [2, 1, 0, 3],
    [2, 1, 1, 0],
    [2, 1, 2, 0],
    [2, 1, 3, 0],
    [2, 2, 0, 1],
    [2, 2, 1, 0],
    [2, 3, 0, 1],
    [2, 3, 1, 0],
    [3, 0, 1, 2],
    [3, 0, 2, 1],
    [3, 1, 0, 2],
    [3, 1, 2, 0],
    [3, 2, 0, 1],
    [3, 2, 1, 0],
];

/// One immediate snapshot of one to four participants, as an ordered partition of them into blocks.
///
/// Contracts see it as the list of the participants' block numbers, by ascending process. Blocks
/// are numbered from 0 without gaps. A participant sees the participants of its own block and of
/// all earlier ones. The words of one size are ordered as these lists.
#[derive(Clone, Copy, Debug)]
pub struct Word {
    size: u8,
    // the index in the table `WORDS`
    index: u8,
}

impl Model for Word {
    ghost use Rattle.std.specs.Prelude.{ℕ, List};
    ghost use Rattle.std.proofs.Common.{ap₂};
    ghost use Rattle.wf_simplex.specs.WordTable.{word_at, start_of, end_of, size_of, index_of, IsInTable, length-word_at, index_of-word_at};

    ghost Value = { List ℕ };

    ghost view = { λ w. word_at w.size w.index };

    ghost invariant = { λ w. IsInTable w.size w.index };

    ghost inverse = { λ w. record { size = size_of w; index = index_of w } };

    ghost inverse_ok = { λ w h.
        ap₂ (λ n k. record { size = n; index = k })
        (length-word_at w.size w.index h) (index_of-word_at w.size w.index h) };
}

impl Word {
    /// Returns the first word of `size` participants: all of them in one block.
    pub fn first(size: u8) -> Word
        requires some { 1 ≤ size }
        requires few { size ≤ 4 }
        ensures { slice_get (words 1 size) 0 ≡ Some result }
    {
        Word::first_allowed(size, 1)
    }

    /// Returns the first word of `size` participants whose first block has at least `m`
    /// participants, or all if there are fewer. It is the word with all of them in one block.
    pub fn first_allowed(size: u8, m: u8) -> Word
        requires some { 1 ≤ size }
        requires few { size ≤ 4 }
        requires one { 1 ≤ m }
        requires most { m ≤ 4 }
        ensures { slice_get (words m size) 0 ≡ Some result }
    {
        Word {
            size,
            index: start(size),
        }
    }

    /// Moves on to the next word of the same size and returns `true`. At the last word, returns
    /// `false` and leaves it unchanged.
    pub fn next(&mut self) -> bool
        ensures size { length self.new ≡ length self.old }
        ensures next { (k : ℕ) → slice_get (words 1 (length self.old)) k ≡ Some self.old
            → IsTrue result → slice_get (words 1 (length self.old)) (k + 1) ≡ Some self.new }
        ensures last { (k : ℕ) → slice_get (words 1 (length self.old)) k ≡ Some self.old
            → result ≡ false → k + 1 ≡ length (words 1 (length self.old)) }
        ensures stays { OnFalse result (self.new ≡ self.old) }
    {
        self.next_allowed(1)
    }

    /// Moves on to the next word of the same size whose first block has at least `m` participants,
    /// or all if there are fewer, and returns `true`. If there is none, returns `false` and leaves
    /// the word unchanged.
    pub fn next_allowed(&mut self, m: u8) -> bool
        requires one { 1 ≤ m }
        requires most { m ≤ 4 }
        ensures size { length self.new ≡ length self.old }
        ensures next { (k : ℕ) → slice_get (words m (length self.old)) k ≡ Some self.old
            → IsTrue result → slice_get (words m (length self.old)) (k + 1) ≡ Some self.new }
        ensures last { (k : ℕ) → slice_get (words m (length self.old)) k ≡ Some self.old
            → result ≡ false → k + 1 ≡ length (words m (length self.old)) }
        ensures stays { OnFalse result (self.new ≡ self.old) }
    {
        let size = self.size;
        for index in self.index + 1..end(size) {
            let word = Word { size, index };
            if word.allowed(m) {
                *self = word;
                return true;
            }
        }
        false
    }

    /// Returns `true` if the first block has at least `m` participants, or all if there are fewer.
    pub fn allowed(&self, m: u8) -> bool
        ensures { result ≡ is_allowed m self.now }
    {
        m.min(self.size()) <= self.first_block()
    }

    /// Returns the number of participants in the first block.
    fn first_block(&self) -> u8
        ensures { result ≡ count_by (λ block. block == 0) self.now }
    {
        let mut count = 0;
        for i in 0..self.size() {
            if self.level(i) == 0 {
                count += 1;
            }
        }
        count
    }

    /// Returns the number of participants, from 1 to 4.
    pub fn size(&self) -> u8
        ensures count { result ≡ length self.now }
        ensures some { 1 ≤ result }
        ensures few { result ≤ 4 }
        ensures word { Contains (words 1 (length self.now)) self.now }
    {
        self.size
    }

    /// Returns the block number, from 0, of participant `i`.
    pub fn level(&self, i: u8) -> u8
        requires { i < length self.now }
        ensures level { result ≡ slice_index self.now i }
        ensures small { result < length self.now }
    {
        WORDS[self.index as usize][i as usize]
    }

    /// Returns `true` if participant `i` sees participant `j`: if the block of `j` is that of `i`
    /// or an earlier one.
    pub fn sees(&self, i: u8, j: u8) -> bool
        requires i { i < length self.now }
        requires j { j < length self.now }
        ensures { result ≡ nat_le (slice_index self.now j) (slice_index self.now i) }
    {
        self.level(j) <= self.level(i)
    }
}

/// Returns the number of words of `size` participants.
pub fn word_count(size: u8) -> u32
    requires some { 1 ≤ size }
    requires few { size ≤ 4 }
    ensures { result ≡ length (words 1 size) }
{
    allowed_count(size, 1)
}

/// Returns the number of words of `size` participants whose first block has at least `m`
/// participants, or all if there are fewer.
pub fn allowed_count(size: u8, m: u8) -> u32
    requires some { 1 ≤ size }
    requires few { size ≤ 4 }
    requires one { 1 ≤ m }
    requires most { m ≤ 4 }
    ensures { result ≡ length (words m size) }
{
    match (size, m) {
        (1, _) => 1,
        (2, 1) => 3,
        (3, 1) => 13,
        (3, 2) => 4,
        (4, 1) => 75,
        (4, 2) => 23,
        (4, 3) => 5,
        _ => 1,
    }
}

/// Returns the index in `WORDS` of the first word of `size` participants.
fn start(size: u8) -> u8
    requires some { 1 ≤ size }
    requires few { size ≤ 4 }
    ensures { result ≡ start_of size }
{
    match size {
        1 => 0,
        2 => 1,
        3 => 4,
        _ => 17,
    }
}

/// Returns the index in `WORDS` just past the last word of `size` participants.
fn end(size: u8) -> u8
    requires some { 1 ≤ size }
    requires few { size ≤ 4 }
    ensures { result ≡ end_of size }
{
    match size {
        1 => 1,
        2 => 4,
        3 => 17,
        _ => 92,
    }
}
