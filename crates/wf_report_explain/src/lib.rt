//! Refutations in words, for people: `explain` prints them.
//!
//! - [`argument`]: the steps and cases of a refutation, each with the steps that it cites. Begin
//!   reading with its `write_argument`.
//! - [`words`]: how values, points, tuples and executions are written; `executions` uses it too.
#![tactic(auto)]

pub mod argument;
pub mod words;
