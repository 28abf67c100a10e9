//! The kernel cache: results of the kernel, which finds the values that a rule supports.

ghost use Rattle.std.specs.Prelude.{◌≡◌, [], All, List, Some};
ghost use Rattle.wf_model.specs.Problem.{Constraint};
ghost use Rattle.wf_network.specs.Revising.{AreKnown, IsKnown, IsKnownNibbles, IsKnownParts, IsKnownWord, answers_in};

use std::alloc::Global;
use wf_base::set::Mask;
use wf_base::set::set64::Set64;

/// Number of slots that a table of the cache has at first.
const FEWEST: usize = 64;

/// Largest number of slots for candidates of which one is 64 or more.
const MAX_WIDE: usize = 4096;

/// Largest number of slots for candidates below 4, and for candidates below 64 of which one is 16
/// or more.
const MAX_NARROW: usize = 65536;

/// Largest number of slots for candidates below 16 of which one is 4 or more.
///
/// Tasks with few values have few such results. Tasks with many values have more of them than there
/// are slots, and each miss costs a walk over the rule's tuples. With twice as many slots, small
/// tasks would take longer with several workers, since each worker has a cache of its own.
const MAX_SMALL: usize = 131_072;

/// Factor by which the number of slots grows, up to its largest value.
const GROWTH: usize = 4;

/// A cached result for candidates of any size: the values that a rule supports at each place.
#[derive(Clone, Copy, Debug)]
pub struct CacheEntry {
    /// The execution that stands for all rules with this table. See `Network::leads`.
    pub execution: u32,
    /// The candidates at each place.
    pub candidates: [Mask; 4],
    /// The candidates that the rule supports, at each place. Past the places of the rule the sets
    /// are empty.
    pub supported: [Mask; 4],
}

/// A cached result for candidates that are all below 64. It has a quarter of the size of
/// [`CacheEntry`].
///
/// Past the places of the rule, `candidates` and `supported` repeat the first place, since the
/// first point of the execution is repeated there. So `supported` equals `candidates` if no
/// candidate is lost.
#[derive(Clone, Copy, Debug)]
pub struct Set64Entry {
    /// The execution that stands for all rules with this table. See `Network::leads`.
    pub execution: u32,
    /// The candidates at each place.
    pub candidates: [Set64; 4],
    /// The candidates that the rule supports, at each place.
    pub supported: [Set64; 4],
}

/// A cached result for candidates that are all below 16. A `u64` has 16 bits for each place, those
/// of the first place lowest. Past the places of the rule, the first place is repeated.
#[derive(Clone, Copy, Debug)]
pub struct WordEntry {
    /// The execution that stands for all rules with this table, or in an empty slot `u32::MAX`,
    /// which is no execution's number.
    pub execution: u32,
    /// The candidates at each place.
    pub candidates: u64,
    /// The candidates that the rule supports, at each place.
    pub supported: u64,
}

/// A cached result for candidates that are all below 4, in eight bytes: a `u16` has four bits for
/// each place, those of the first place lowest. Past the places of the rule, the first place is
/// repeated.
///
/// Most problems have no larger candidates, and the smaller the results are, the more of them fit
/// into the processor's caches.
#[derive(Clone, Copy, Debug)]
pub struct NibbleEntry {
    /// The execution that stands for all rules with this table, or in an empty slot `u32::MAX`,
    /// which is no execution's number.
    pub execution: u32,
    /// The candidates at each place.
    pub candidates: u16,
    /// The candidates that the rule supports, at each place.
    pub supported: u16,
}

/// A number that no execution has. It tells an empty slot of the cache.
const NO_EXECUTION: u32 = u32::MAX;

/// An empty slot for candidates below 4.
const NO_NIBBLES: NibbleEntry = NibbleEntry {
    execution: NO_EXECUTION,
    candidates: 0,
    supported: 0,
};

/// An empty slot for candidates below 16.
const NO_WORD: WordEntry = WordEntry {
    execution: NO_EXECUTION,
    candidates: 0,
    supported: 0,
};

/// The kernel cache. It has four direct-mapped tables, by the size of the candidates: a rule and
/// its candidates determine the one slot in which their result may lie, and it stays there until
/// another result replaces it.
///
/// No result of a search depends on what is cached; a miss only costs time.
#[derive(Drop)]
pub struct SupportCache {
    /// Results for candidates that are all below 4.
    pub tiny: Vec<NibbleEntry>,
    /// Number of results that were added to `tiny` since it last grew, that is, of its misses.
    pub tiny_misses: u32,
    /// Results for candidates below 16 of which one is 4 or more.
    pub small: Vec<WordEntry>,
    /// Number of results that were added to `small` since it last grew, that is, of its misses.
    pub small_misses: u32,
    /// Results for candidates below 64 of which one is 16 or more.
    pub narrow: Vec<Option<Set64Entry>>,
    /// Number of results that were added to `narrow` since it last grew, that is, of its misses.
    pub narrow_misses: u32,
    /// Results for candidates of which one is 64 or more.
    pub wide: Vec<Option<CacheEntry>>,
    /// Number of results that were added to `wide` since it last grew, that is, of its misses.
    pub wide_misses: u32,
}

impl SupportCache {
    /// Creates an empty cache without slots. [`SupportCache::grow`] makes the first ones.
    pub fn new(alloc: Global) -> SupportCache
        ensures { answers_in result ≡ [] }
    {
        SupportCache {
            tiny: Vec::new(alloc),
            tiny_misses: 0,
            small: Vec::new(alloc),
            small_misses: 0,
            narrow: Vec::new(alloc),
            narrow_misses: 0,
            wide: Vec::new(alloc),
            wide_misses: 0,
        }
    }

    /// Adds slots to each table that had too many misses. Results for candidates below 64 move to
    /// their new slots, where one may replace another; those for larger candidates are dropped if
    /// their table grows.
    ///
    /// If memory runs out for a table, it stays unchanged.
    pub fn grow(&mut self, alloc: Global)
        ensures { (ks : List Constraint) → AreKnown ks (answers_in self.old)
            → AreKnown ks (answers_in self.new) }
    {
        self.grow_tiny(alloc);
        self.grow_small(alloc);
        self.grow_narrow(alloc);
        self.grow_wide(alloc);
    }

    /// Adds slots for candidates below 4 if there were too many misses.
    fn grow_tiny(&mut self, alloc: Global)
        ensures { (ks : List Constraint) → AreKnown ks (answers_in self.old)
            → AreKnown ks (answers_in self.new) }
    {
        let places = slots_wanted(self.tiny.len(), self.tiny_misses, MAX_NARROW);
        if places > self.tiny.len()
            && let Ok(tiny) = vec![in alloc; NO_NIBBLES; places]
        {
            let mut more = tiny;
            keep_tiny(&mut more, &self.tiny);
            self.tiny = more;
            self.tiny_misses = 0;
        }
    }

    /// Adds slots for candidates below 16 if there were too many misses.
    fn grow_small(&mut self, alloc: Global)
        ensures { (ks : List Constraint) → AreKnown ks (answers_in self.old)
            → AreKnown ks (answers_in self.new) }
    {
        let places = slots_wanted(self.small.len(), self.small_misses, MAX_SMALL);
        if places > self.small.len()
            && let Ok(small) = vec![in alloc; NO_WORD; places]
        {
            let mut more = small;
            keep_words(&mut more, &self.small);
            self.small = more;
            self.small_misses = 0;
        }
    }

    /// Adds slots for candidates below 64 if there were too many misses.
    fn grow_narrow(&mut self, alloc: Global)
        ensures { (ks : List Constraint) → AreKnown ks (answers_in self.old)
            → AreKnown ks (answers_in self.new) }
    {
        let places = slots_wanted(self.narrow.len(), self.narrow_misses, MAX_NARROW);
        if places > self.narrow.len()
            && let Ok(narrow) = vec![in alloc; None; places]
        {
            let mut more = narrow;
            keep_each(&mut more, &self.narrow);
            self.narrow = more;
            self.narrow_misses = 0;
        }
    }

    /// Adds slots for candidates of which one is 64 or more if there were too many misses. The
    /// results in the old slots are dropped.
    fn grow_wide(&mut self, alloc: Global)
        ensures { (ks : List Constraint) → AreKnown ks (answers_in self.old)
            → AreKnown ks (answers_in self.new) }
    {
        let places = slots_wanted(self.wide.len(), self.wide_misses, MAX_WIDE);
        // most problems have no such candidates, and need no slots for them
        if self.wide_misses > 0
            && places > self.wide.len()
            && let Ok(wide) = vec![in alloc; None; places]
        {
            self.wide = wide;
            self.wide_misses = 0;
        }
    }

    /// Stores `answer` in the slot `place` for candidates below 4, if there is such a slot, in
    /// place of the result that was there, and counts a miss.
    pub(crate) fn keep_nibbles(&mut self, place: usize, answer: NibbleEntry)
        ensures { (ks : List Constraint) → IsKnownNibbles ks answer
            → AreKnown ks (answers_in self.old) → AreKnown ks (answers_in self.new) }
    {
        self.tiny_misses = self.tiny_misses.saturating_add(1);
        if place < self.tiny.len() {
            self.tiny[place] = answer;
        }
    }

    /// Stores `answer` in the slot `place` for candidates below 16, if there is such a slot, in
    /// place of the result that was there, and counts a miss.
    pub(crate) fn keep_small(&mut self, place: usize, answer: WordEntry)
        ensures { (ks : List Constraint) → IsKnownWord ks answer
            → AreKnown ks (answers_in self.old) → AreKnown ks (answers_in self.new) }
    {
        self.small_misses = self.small_misses.saturating_add(1);
        if place < self.small.len() {
            self.small[place] = answer;
        }
    }

    /// Stores `answer` in the slot `place` for candidates below 64, if there is such a slot, in
    /// place of the result that was there, and counts a miss.
    pub(crate) fn keep_narrow(&mut self, place: usize, answer: Set64Entry)
        ensures { (ks : List Constraint) → IsKnownParts ks (Some answer)
            → AreKnown ks (answers_in self.old) → AreKnown ks (answers_in self.new) }
    {
        self.narrow_misses = self.narrow_misses.saturating_add(1);
        if place < self.narrow.len() {
            self.narrow[place] = Some(answer);
        }
    }

    /// Stores `answer` in the slot `place` for candidates of any size, if there is such a slot, in
    /// place of the result that was there, and counts a miss.
    pub(crate) fn keep_wide(&mut self, place: usize, answer: CacheEntry)
        ensures { (ks : List Constraint) → IsKnown ks (Some answer)
            → AreKnown ks (answers_in self.old) → AreKnown ks (answers_in self.new) }
    {
        self.wide_misses = self.wide_misses.saturating_add(1);
        if place < self.wide.len() {
            self.wide[place] = Some(answer);
        }
    }
}

/// Copies the cached results of `answers` into their slots in `places`, for candidates below 4. A
/// later one replaces an earlier one in the same slot.
fn keep_tiny(places: &mut Vec<NibbleEntry>, answers: &[NibbleEntry])
    ensures { (ks : List Constraint) → All (IsKnownNibbles ks) answers.now
        → All (IsKnownNibbles ks) places.old.items → All (IsKnownNibbles ks) places.new.items }
{
    for answer in answers {
        let place = slot_of_nibbles(answer.execution, answer.candidates, places.len());
        if place < places.len() && answer.execution != NO_EXECUTION {
            places[place] = *answer;
        }
    }
}

/// Copies the cached results of `answers` into their slots in `places`, for candidates below 16. A
/// later one replaces an earlier one in the same slot.
fn keep_words(places: &mut Vec<WordEntry>, answers: &[WordEntry])
    ensures { (ks : List Constraint) → All (IsKnownWord ks) answers.now
        → All (IsKnownWord ks) places.old.items → All (IsKnownWord ks) places.new.items }
{
    for answer in answers {
        let place = slot_of_word(answer.execution, answer.candidates, places.len());
        if place < places.len() && answer.execution != NO_EXECUTION {
            places[place] = *answer;
        }
    }
}

/// Copies the cached results of `answers` into their slots in `places`, for candidates below 64. A
/// later one replaces an earlier one in the same slot.
fn keep_each(places: &mut Vec<Option<Set64Entry>>, answers: &[Option<Set64Entry>])
    ensures { (ks : List Constraint) → All (IsKnownParts ks) answers.now
        → All (IsKnownParts ks) places.old.items → All (IsKnownParts ks) places.new.items }
{
    for answer in answers {
        if let Some(known) = answer {
            let place = slot_of(known.execution, known.candidates, places.len());
            if place < places.len() {
                places[place] = Some(*known);
            }
        }
    }
}

/// Returns how many slots a table should have that has `places` slots, had `misses` misses, and may
/// have at most `most` slots. It is `places` if the table should not grow.
fn slots_wanted(places: usize, misses: u32, most: usize) -> usize {
    if places < FEWEST {
        FEWEST
    } else if places < most && misses as usize > places / 4 {
        (GROWTH * places).min(most)
    } else {
        places
    }
}

/// Number of slots from which on candidates below 4 enter the index of their slot unhashed. See
/// [`slot_of_nibbles`].
const APART: usize = 4096;

/// Returns the slot, among `places` slots, for candidates below 4 of the rules that `execution`
/// stands for. `places` is a power of two, or 0, for which the slot is 0.
///
/// The cache is correct with any slot. If there are at least [`APART`] slots, the candidates of a
/// rule's first three places (12 bits) get different slots.
#[inline]
pub(crate) fn slot_of_nibbles(execution: u32, candidates: u16, places: usize) -> usize {
    if places < APART {
        return slot_of(execution, [u64::from(candidates), 0, 0, 0], places);
    }
    let place = u64::from(candidates) ^ mixed(u64::from(execution));
    place as usize & places.saturating_sub(1)
}

/// Returns the slot, among `places` slots, for candidates below 16 of the rules that `execution`
/// stands for. `places` is a power of two, or 0, for which the slot is 0.
#[inline]
pub(crate) fn slot_of_word(execution: u32, word: u64, places: usize) -> usize {
    slot_of(execution, [word, 0, 0, 0], places)
}

/// Returns the slot, among `places` slots, for `candidates` of the rules that `execution` stands
/// for. Of larger candidates, only those below 64 enter the hash. `places` is a power of two, or 0,
/// for which the slot is 0.
///
/// The cache is correct with any slot.
pub(crate) fn slot_of(execution: u32, candidates: [Set64; 4], places: usize) -> usize {
    let [a, b, c, d] = candidates;
    // the four parts don't overlap if each candidate is below 10
    let joined = a
        ^ b.rotate_left(21)
        ^ c.rotate_left(42)
        ^ d.rotate_left(11)
        ^ u64::from(execution).rotate_left(53);
    mixed(joined) as usize & places.saturating_sub(1)
}

/// Hashes `word` to 17 bits, as many as the index of [`MAX_SMALL`] slots has. It takes the high
/// bits of a product, since these depend on all bits of `word`. The hash of 0 is 0.
fn mixed(word: u64) -> u64 {
    (word ^ word >> 32).wrapping_mul(0x9e37_79b9_7f4a_7c15) >> 47
}
