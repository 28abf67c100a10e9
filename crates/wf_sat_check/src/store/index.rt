//! A hash table of clauses, so that a deletion compares few of them.

ghost use Rattle.std.specs.Prelude.{◌≡◌, ◌<◌, get_or, length, IfOk};
ghost use Rattle.wf_sat_check.specs.Store.Index.{Finds, FindsEach, FindsStill, FindsStillBut, bucket_of};
ghost use Rattle.wf_sat_check.specs.declared.store.index.HashEntry.{HashEntry};

use std::alloc::{AllocError, Global};
use std::marker::Model;

/// The average number of entries per bucket at which the table grows.
const FEW: usize = 4;

/// An entry of the hash table: the `number` of a clause and the `hash` of its literals.
#[derive(Clone, Copy, Drop)]
pub(crate) struct HashEntry {
    pub(crate) hash: u32,
    pub(crate) number: u32,
}

/// A hash table from the hashes of clauses to their numbers. Each entry is in the bucket that its
/// hash selects.
///
/// Contracts see the list of buckets.
#[derive(Drop)]
pub(crate) struct Index {
    buckets: Vec<Vec<HashEntry>>,
    // the entries that were put in since the table had this many buckets, removed ones included
    size: usize,
}

impl Model for Index {
    ghost use Rattle.std.specs.Prelude.{◌<◌, List, length, map};
    ghost use Rattle.wf_sat_check.specs.declared.store.index.HashEntry.{HashEntry};

    ghost Value = { List (List HashEntry) };

    ghost view = { λ i. map (λ b. b.items) i.buckets.items };

    ghost invariant = { λ i. 0 < length i.buckets.items };
}

impl Index {
    /// Creates an empty table.
    pub(crate) fn new(alloc: Global) -> Result<Index, AllocError> {
        Index::with_buckets(alloc, 1024)
    }

    /// Creates an empty table with `count` buckets.
    fn with_buckets(alloc: Global, count: usize) -> Result<Index, AllocError>
        requires { 0 < count }
    {
        let mut buckets = Vec::with_capacity(alloc, count)?;
        for _ in 0..count {
            buckets.push(Vec::new(alloc))?;
        }
        Ok(Index { buckets, size: 0 })
    }

    /// Returns the bucket of `hash`, which has all entries with that hash, and may have others.
    #[inline]
    pub(crate) fn bucket(&self, hash: u32) -> &[HashEntry]
        ensures { result.now ≡ bucket_of self.now hash }
    {
        let at = hash as usize % self.buckets.len();
        &self.buckets[at]
    }

    /// Adds `entry`, and doubles the number of buckets before if they hold [`FEW`] entries on
    /// average.
    ///
    /// # Errors
    ///
    /// Returns `AllocError` if memory runs out; the entries that the table had are then still
    /// found.
    pub(crate) fn push(&mut self, alloc: Global, entry: HashEntry) -> Result<(), AllocError>
        ensures found { IfOk result (λ done. Finds self.new entry) }
        ensures still { FindsStill self.old self.new }
    {
        if self.size >= self.buckets.len().saturating_mul(FEW) {
            self.grow(alloc)?;
        }
        self.put(entry)
    }

    /// Adds `entry` to the bucket of its hash, without growing the table.
    fn put(&mut self, entry: HashEntry) -> Result<(), AllocError>
        ensures found { IfOk result (λ done. Finds self.new entry) }
        ensures still { FindsStill self.old self.new }
    {
        let at = entry.hash as usize % self.buckets.len();
        self.buckets[at].push(entry)?;
        self.size = self.size.saturating_add(1);
        Ok(())
    }

    /// Adds each of `entries`, without growing the table.
    fn put_all(&mut self, entries: &[HashEntry]) -> Result<(), AllocError>
        ensures found { IfOk result (λ done. FindsEach self.new entries.now) }
        ensures still { FindsStill self.old self.new }
    {
        'entries: for entry in entries {
            self.put(*entry)?;
        }
        Ok(())
    }

    /// Doubles the number of buckets and moves the entries over. If memory runs out the table stays
    /// as it was.
    fn grow(&mut self, alloc: Global) -> Result<(), AllocError>
        ensures { FindsStill self.old self.new }
    {
        let mut larger = Index::with_buckets(alloc, self.buckets.len().saturating_mul(2))?;
        'buckets: for bucket in &self.buckets {
            larger.put_all(bucket)?;
        }
        *self = larger;
        Ok(())
    }

    /// Removes the entry at the index `place` of the bucket of `hash`. The last entry of the bucket
    /// moves to its place.
    pub(crate) fn take(&mut self, hash: u32, place: usize)
        requires { place < length (bucket_of self.old hash) }
        ensures { (entry : HashEntry) → entry ≡ get_or (bucket_of self.old hash) place entry
            → FindsStillBut entry self.old self.new }
    {
        let at = hash as usize % self.buckets.len();
        self.buckets[at].swap_remove(place);
    }
}
