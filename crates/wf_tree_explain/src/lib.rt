//! Obstructions in words: an argument in English why a task has no decision map after any number of
//! rounds.
//!
//! - [`write_obstruction_argument`]: the whole text.
//!
//! `specs/Words` defines the text.
#![tactic(auto)]

mod argument;
mod balance;
mod case;
mod cover;
mod enter;
mod entry;
mod equations;
mod lists;
mod simplex;
mod split;

pub use argument::write_obstruction_argument;
