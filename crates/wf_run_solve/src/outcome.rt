//! The outcome of a search.

/// The outcome of a search that finished.
#[derive(Clone, Copy, Debug, PartialEq, Eq)]
pub enum Outcome {
    /// The task has a decision map.
    Map,
    /// The task has no decision map.
    Nothing,
}
