//! Marks on executions: the propagation queue.

ghost use Rattle.std.specs.Prelude.{◌≡◌, ◌<◌, ◌≤◌, ◌*◌, ◌/◌, ◌^◌, [], All, length, slice_index, ◌⊎◌, OnErr, OnOk, IfSome, IfNone};
ghost use Rattle.wf_model.specs.Limits.{most_executions};
ghost use Rattle.wf_network.specs.Limits.{most_words};
ghost use Rattle.wf_network.specs.Marks.{AreSetBelow, HasRoom, IsHalf, IsLast, IsLastHere, IsMore, IsNext, KeepsBitsBut, KeepsWordsBut, MarksEach, MarksOnly, MarksOnlyWord, MarksWord, TopsTell, bit_of};

use crate::users::MarkMask;
use std::alloc::{AllocError, Global};

/// Factor that shifts the bits of the lower half of a 64-bit word into its upper half.
const HALF: u64 = 1 << 32;

/// A set of marked executions: a bit set, and a summary of which of its words are not 0, by which
/// the next marked execution is found fast.
#[derive(Drop)]
pub struct Marks {
    /// Marks of the executions: bit n % 64 of word n / 64 is set if execution n is marked.
    pub words: Vec<u64>,
    /// Summary of `words`: bit n % 64 of `tops[n / 64]` is set if `words[n]` is not 0, and may be
    /// set if it is 0.
    pub tops: Vec<u64>,
    ghost few: { length words.items ≤ most_words },
    ghost few_tops: { length tops.items ≤ most_words },
    ghost tops_within: { length words.items ≤ 64 * length tops.items },
    ghost tops_tell: { TopsTell words.items tops.items },
}

impl Marks {
    /// Creates an empty set of marks with room for no execution. See [`Marks::reserve`].
    pub fn new(alloc: Global) -> Marks
        ensures none { result.words.items ≡ [] }
    {
        Marks {
            words: Vec::new(alloc),
            tops: Vec::new(alloc),
        }
    }

    /// Makes room for the marks of at least `executions` executions. If there was too little room,
    /// no execution is marked afterwards; else nothing changes.
    ///
    /// # Errors
    ///
    /// Returns `AllocError` if memory runs out; the marks are then unchanged.
    pub fn reserve(&mut self, alloc: Global, executions: u32) -> Result<(), AllocError>
        requires { executions ≤ most_executions }
        ensures room { OnOk result (executions ≤ 64 * length self.new.words.items) }
        ensures kept { HasRoom executions self.old.words.items
            → self.new.words.items ≡ self.old.words.items }
        ensures none { OnOk result (HasRoom executions self.old.words.items
            ⊎ IsLast self.new.words.items 0) }
        ensures refused { OnErr result (self.new.words.items ≡ self.old.words.items) }
    {
        let words = executions as usize / 64 + 1;
        if self.words.len() < words {
            *self = Marks {
                words: vec![in alloc; 0; words]?,
                tops: vec![in alloc; 0; words / 64 + 1]?,
            };
        }
        Ok(())
    }

    /// Marks the executions of all `words`, and no others. Each of `words` must lie within the room
    /// for marks.
    pub fn mark_each(&mut self, words: &[MarkMask])
        requires { All (λ w. w.word < 2 * length self.old.words.items) words.now }
        ensures marked { MarksEach self.new.words.items words.now }
        ensures only { MarksOnly self.old.words.items words.now self.new.words.items }
        ensures kept { IsMore self.old.words.items self.new.words.items }
        ensures long { length self.new.words.items ≡ length self.old.words.items }
    {
        for word in words {
            self.mark(*word);
        }
    }

    /// Marks the executions of `users`.
    fn mark(&mut self, users: MarkMask)
        requires { users.word < 2 * length self.old.words.items }
        ensures marked { MarksWord self.new.words.items users }
        ensures only { MarksOnlyWord self.old.words.items users self.new.words.items }
        ensures kept { IsMore self.old.words.items self.new.words.items }
        ensures long { length self.new.words.items ≡ length self.old.words.items }
    {
        add_bit(&mut self.tops, users.word as usize / 2);
        add_users(&mut self.words, users);
    }

    /// Marks all executions that there is room for, also numbers past the last execution.
    pub fn mark_all(&mut self)
        ensures marked { AreSetBelow (64 * length self.old.words.items) self.new.words.items }
        ensures long { length self.new.words.items ≡ length self.old.words.items }
    {
        self.words.fill(u64::MAX);
        self.tops.fill(u64::MAX);
    }

    /// Removes all marks. It writes only to the words that may have marks.
    pub fn clear(&mut self)
        ensures cleared { IsLast self.new.words.items 0 }
        ensures long { length self.new.words.items ≡ length self.old.words.items }
    {
        let mut next = 0;
        'words: while let Some(word) = next_bit(&self.tops, next) {
            if word >= self.words.len() {
                return;
            }
            self.words[word] = 0;
            take_bit(&mut self.tops, word);
            next = word + 1;
        }
    }

    /// Removes the mark of the first marked execution whose number is at least `from`, and returns
    /// that number. Returns `None` if no such execution is marked.
    pub fn take_next(&mut self, from: u32) -> Option<u32>
        ensures next { IfSome result (IsNext self.old.words.items from) }
        ensures taken { IfSome result (λ n. bit_of self.new.words.items n ≡ 0) }
        ensures others { IfSome result (KeepsBitsBut self.old.words.items self.new.words.items) }
        ensures last { IfNone result (IsLast self.old.words.items from) }
        ensures same { IfNone result (self.new.words.items ≡ self.old.words.items) }
        ensures long { length self.new.words.items ≡ length self.old.words.items }
    {
        let number = self.next(from as usize)? as u32;
        self.take(number);
        Some(number)
    }

    /// Removes the mark of execution `number`, if it has one. There must be room for its mark.
    pub fn take(&mut self, number: u32)
        requires { number < 64 * length self.old.words.items }
        ensures taken { bit_of self.new.words.items number ≡ 0 }
        ensures others { KeepsBitsBut self.old.words.items self.new.words.items number }
        ensures long { length self.new.words.items ≡ length self.old.words.items }
    {
        let number = number as usize;
        if take_bit(&mut self.words, number) == 0 {
            take_bit(&mut self.tops, number / 64);
        }
    }

    /// Returns the first marked execution whose number is at least `from`.
    fn next(&self, from: usize) -> Option<usize>
        requires { from < 2 ^ 32 }
        ensures next { IfSome result (IsNext self.now.words.items from) }
        ensures last { IfNone result (IsLast self.now.words.items from) }
    {
        let mut from = from;
        'words: while from / 64 < self.words.len() {
            let found = first_here(&self.words, from);
            if found.is_some() {
                return found;
            }
            from = 64 * next_bit(&self.tops, from / 64 + 1)?;
        }
        None
    }
}

/// Returns the index of the first set bit at or after `from` in a bit set.
fn next_bit(words: &[u64], from: usize) -> Option<usize>
    requires few { length words.now ≤ most_words }
    requires low { from < 2 ^ 33 }
    ensures next { IfSome result (IsNext words.now from) }
    ensures last { IfNone result (IsLast words.now from) }
{
    let mut from = from;
    'words: while from / 64 < words.len() {
        let found = first_here(words, from);
        if found.is_some() {
            return found;
        }
        from = (from / 64 + 1) * 64;
    }
    None
}

/// Returns the index of the first set bit at or after `from` in the word that holds bit `from`, or
/// `None` if the rest of that word is 0.
fn first_here(words: &[u64], from: usize) -> Option<usize>
    requires within { from / 64 < length words.now }
    requires low { from < 2 ^ 34 }
    ensures next { IfSome result (IsNext words.now from) }
    ensures last { IfNone result (IsLastHere words.now from) }
{
    let here = words[from / 64] >> (from % 64);
    if here == 0 {
        return None;
    }
    Some(from + here.trailing_zeros() as usize)
}

/// Sets bit `bit` of a bit set.
fn add_bit(words: &mut Vec<u64>, bit: usize)
    requires { bit < 64 * length words.old.items }
    ensures added { bit_of words.new.items bit ≡ 1 }
    ensures others { KeepsBitsBut words.old.items words.new.items bit }
    ensures long { length words.new.items ≡ length words.old.items }
    ensures words { KeepsWordsBut words.old.items words.new.items (bit / 64) }
{
    words[bit / 64] |= 1 << (bit % 64);
}

/// Sets the bits of the executions of `users` in a bit set.
fn add_users(words: &mut Vec<u64>, users: MarkMask)
    requires { users.word < 2 * length words.old.items }
    ensures marked { MarksWord words.new.items users }
    ensures only { MarksOnlyWord words.old.items users words.new.items }
    ensures kept { IsMore words.old.items words.new.items }
    ensures long { length words.new.items ≡ length words.old.items }
    ensures words { KeepsWordsBut words.old.items words.new.items (users.word / 2) }
{
    words[users.word as usize / 2] |= half_of(users);
}

/// Returns the bits of `users` at their positions in a 64-bit word of marks, of which `users`
/// covers the lower or the upper half.
fn half_of(users: MarkMask) -> u64
    ensures { IsHalf users result }
{
    let bits = u64::from(users.bits);
    if users.word % 2 == 0 {
        bits
    } else {
        bits * HALF
    }
}

/// Clears bit `bit` of a bit set, and returns its word as it is afterwards.
fn take_bit(words: &mut Vec<u64>, bit: usize) -> u64
    requires { bit < 64 * length words.old.items }
    ensures left { result ≡ slice_index words.new.items (bit / 64) }
    ensures taken { bit_of words.new.items bit ≡ 0 }
    ensures less { slice_index words.new.items (bit / 64) ≤ slice_index words.old.items (bit / 64) }
    ensures others { KeepsBitsBut words.old.items words.new.items bit }
    ensures long { length words.new.items ≡ length words.old.items }
    ensures words { KeepsWordsBut words.old.items words.new.items (bit / 64) }
{
    let left = words[bit / 64] & !(1 << (bit % 64));
    words[bit / 64] = left;
    left
}
