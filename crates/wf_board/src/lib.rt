//! The board: the least branch with a map and the counts of settled branches, shared by all
//! workers.
//!
//! A [`Board`] consists of three atomic words: the least posted branch, and the numbers of refuted
//! and of cut branches. Each worker has a [`BoardSeat`], and each call through it is one atomic
//! step, without locks, allocation or retries. Only [`Board::make`] allocates.
#![tactic(auto)]

mod board;
mod laws;
mod table;

pub use board::{Board, BoardSeat};
pub use laws::{calls_are_events, finish_answers_the_account};
