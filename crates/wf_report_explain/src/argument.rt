//! Turns the lines of a refutation into an argument in English why a task has no decision map after
//! some number of rounds.
//!
//! - [`write_argument`]: writes the whole argument. It passes over the lines once for the steps and
//!   cases.
//! - [`each_step_cites_earlier_steps`]: a law; there is nothing to call.
//!
//! The definitions are in `specs/Argument/`: `Parts` defines which lines are told together,
//! `ArgumentState` which candidates are excluded after some lines and why, `Text` the text itself,
//! and `Trail` how the program represents a state. The module [`words`](crate::words) writes the
//! parts.

mod argument;
mod grounds;
mod laws;
mod losses;
mod parts;
mod points;
mod reasons;
mod seat;
mod state;
mod steps;
mod summary;
mod title;
mod used;
mod words;

pub use argument::write_argument;
pub use laws::each_step_cites_earlier_steps;
