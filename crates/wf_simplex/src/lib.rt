//! Simplices, complexes and words: the plain data of the combinatorial view of wait-free computing.
//!
//! - [`Simplex`]: at most four processes, each with an input or output value. It is `Copy` and
//!   takes eight bytes.
//! - [`Complex`]: simplices with all their faces, in ascending order, each once.
//! - [`Word`]: one immediate snapshot, as an ordered partition of its participants.
//!
//! Only [`Complex`] allocates.
#![tactic(auto)]

pub mod complex;
mod keys;
mod recent;
pub mod simplex;
pub mod word;

pub use complex::Complex;
pub use simplex::{Simplex, SimplexFault};
pub use word::{Word, allowed_count, word_count};
