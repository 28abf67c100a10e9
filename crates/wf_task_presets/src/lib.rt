//! Set agreement and renaming, the two families of named tasks.
//!
//! - [`Preset`]: a task of one of these families, given by its numbers, and [`Inputs`]: the inputs
//!   that the processes of a set agreement task may have.
//! - [`set_agreement`] and [`renaming`]: create such a task, or report which limit it would exceed.
//! - [`set_agreement_decides_few_inputs`] and [`renaming_decides_different_names`]: laws that state
//!   which decisions the tasks allow, in the terms of the papers that introduced them.
#![tactic(auto)]

mod family;
mod laws;
mod named;
mod preset;

pub use laws::{renaming_decides_different_names, set_agreement_decides_few_inputs};
pub use named::Preset;
pub use preset::{Inputs, renaming, set_agreement};
