//! A byte-by-byte parser for clausal proofs with hints, in the text form of LRAT.
//!
//! This module only reads the text; whether a clause is justified by its hints is checked by
//! `wf_sat_check`. The grammar is defined in `specs/Lrat/Text`: the steps that a text has, and
//! where and why it is not a proof. [`LratReader`] is proved to follow that definition for each
//! byte.
//!
//! - [`LratReader`]: the parser's state. [`LratReader::transition`] returns the transition for the
//!   next byte, a [`LratTransition`], and [`LratReader::follow`] applies it. Begin reading here.
//! - [`Hint`]: the id of a clause among the hints, with its sign.

mod numbers;
mod reader;
mod transitions;

pub use numbers::MAX_NUMBER;
pub use reader::{Hint, LratParseError, LratReader, LratStepPart, LratToken, LratTransition};
