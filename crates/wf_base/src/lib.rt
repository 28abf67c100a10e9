//! What the other crates have in common and that knows no task: streams of bytes, sets of values,
//! and the lines of a certificate.
//!
//! - [`streams`]: readers and writers whose failed calls are counted, and a [`streams::Page`] that
//!   is written when it is full.
//! - [`set`]: sets of values below 256 in four machine words, and [`set::set64`] in one.
//! - [`lines`]: the [`lines::Line`] of a refutation, which the search writes and the checker reads.
#![tactic(auto)]

pub mod lines;
pub mod set;
pub mod streams;
