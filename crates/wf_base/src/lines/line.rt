//! The lines of a certificate.

/// One line of a certificate.
///
/// A certificate shows that a box of candidates, one set for each point, holds no decision map, or
/// none that is smaller than a given map. Its lines are the nodes of a search tree in preorder.
#[derive(Clone, Copy, Debug, PartialEq, Eq)]
pub enum Line {
    /// Line `p`: removes the candidate `value` from the point of `process` in `execution`, because
    /// no tuple that is allowed there and consists of candidates has `value` at the place of
    /// `process`.
    Remove {
        // in this order of the fields a line takes eight bytes
        /// The process.
        process: u8,
        /// The value.
        value: u8,
        /// The index of the execution.
        execution: u32,
    },
    /// Line `z`: the point has no candidate left. This ends the current block.
    Empty {
        /// The number of the point, from 0.
        point: u32,
    },
    /// Line `b`: a case split on the point. One block follows for each of its candidates, in
    /// ascending order.
    Branch {
        /// The number of the point, from 0.
        point: u32,
    },
    /// Line `f`: each point has exactly one candidate left, and together these are the least
    /// decision map. This is the last line.
    Found,
}

/// The lines of a certificate, in order.
pub type Lines = Vec<Line>;
