//! The verdict on a clause with hints.

/// The verdict on a clause with hints.
#[derive(Clone, Copy, Debug, PartialEq, Eq)]
pub enum LratVerdict {
    /// The clause is justified. It follows by unit propagation, because the hints lead to a clause
    /// that is false; or it has a literal and its negation; or the groups of hints show that it is
    /// a resolution asymmetric tautology (RAT) on its first literal.
    Conflict,
    /// The clause is not justified: its hints, or the hints of a group, end without a conflict, or
    /// name a clause with at least two literals that are not false.
    NoConflict,
    /// A hint is the id of no clause that is kept.
    UnknownHint,
    /// A clause that needs a group of hints has none at its place, though there are groups. Each
    /// clause needs one that has the negation of the first literal, unless one of its other
    /// literals is true.
    ClauseLeftOut,
    /// The id of the clause is not larger than all ids so far, or is beyond the limit of
    /// [`MAX_ID_GROWTH`](crate::lrat::MAX_ID_GROWTH).
    IdOutOfRange,
}
