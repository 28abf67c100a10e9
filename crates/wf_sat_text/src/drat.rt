//! A byte-by-byte parser for clausal proofs with deletions, in the text form of DRAT.
//!
//! This module only reads the text; whether a lemma follows is checked by `wf_sat_check`. The
//! grammar is defined in `specs/Drat/Text`: the steps that a text has, and where and why it is not
//! a proof. [`Reader`] is proved to follow that definition for each byte.
//!
//! - [`Literal`]: a variable or its negation, and its [`Code`].
//! - [`Reader`]: the parser's state. [`Reader::transition`] returns the transition for the next
//!   byte, a [`Transition`], and the caller applies it. Begin reading here.

mod digits;
mod literal;
mod reader;

pub use literal::{Code, Literal, MAX_VARIABLES, SPARE_VARIABLES, last_variable};
pub use reader::{ParseError, Reader, Reading, Transition};
