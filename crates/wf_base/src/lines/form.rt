//! How much a report says.

/// How much of a search's result a report contains.
#[derive(Clone, Copy, Debug, PartialEq, Eq)]
pub enum Form {
    /// A decision map, or the lines of a refutation.
    Full,
    /// A decision map, or the statement that there is none, without lines.
    Verdict,
    /// The least decision map with the lines that lead to it, or the lines of a refutation.
    Least,
}
