//! Kinds of adjacency between the tuples of a simplex.

ghost use Rattle.std.specs.Prelude.{◌≡◌};
ghost use Rattle.wf_tree_refine.specs.Near.{may_differ};

/// An adjacency of the tuples of a simplex. It determines their connected components.
#[derive(Clone, Copy, Debug, PartialEq, Eq)]
pub enum Adjacency {
    /// Tuples that differ at one place are adjacent; used for cases. On a vertex no two tuples are
    /// adjacent.
    Steps,
    /// Tuples that agree at this place and differ at one other place are adjacent; used for splits.
    Star(u8),
}

impl Adjacency {
    /// Returns whether adjacent tuples of `size` participants may differ at `place`.
    pub(crate) fn may_differ(self, size: u8, place: u8) -> bool
        ensures { result ≡ may_differ self size place }
    {
        match self {
            Adjacency::Steps => size != 1,
            Adjacency::Star(kept) => place != kept,
        }
    }
}
