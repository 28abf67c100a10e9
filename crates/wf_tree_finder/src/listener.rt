//! Progress reports of the finder.

/// A listener to the progress of a search. Results of the finder do not depend on it. Each method
/// does nothing unless a listener defines it.
pub trait FinderProgress {
    /// Reports that the system modulo the prime power `_modulus` is set up, with `_unknowns`
    /// unknowns. Its equations follow.
    fn system(&self, _modulus: u32, _unknowns: u64) {}

    /// Reports that `_count` equations of the system modulo the prime power `_modulus` have been
    /// taken in. The report comes at each power of two from 65,536 on, and when the system is done.
    fn equations(&self, _modulus: u32, _count: u64) {}

    /// Reports that the values of the simplex with the index `_simplex` were split.
    fn split(&self, _simplex: u32) {}

    /// Reports that the search turns to case `_number` of the `_count` cases of a simplex. Cases
    /// are numbered from 0.
    fn part(&self, _simplex: u32, _number: u32, _count: u32) {}

    /// Reports that a simplex allows nothing, which ends this branch of the tree.
    fn empty(&self, _simplex: u32) {}

    /// Reports that a cover of a simplex is tried.
    fn cover(&self, _simplex: u32) {}
}

/// A listener that does nothing.
pub struct NoFinderProgress;

impl FinderProgress for NoFinderProgress {}
