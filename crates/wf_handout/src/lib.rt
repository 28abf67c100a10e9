//! Handouts of work: each branch is given to one worker, in one of two ways.
//!
//! - [`Handout`]: the promise of both; begin reading here. A worker takes branches with its share,
//!   and what no share has taken is returned at the end.
//! - [`Counter`]: one atomic word that counts up. The worker that asks first gets the next branch.
//! - [`Stealing`]: a deque for each worker, which steals from the next worker's deque if its own is
//!   empty.
//!
//! Only dealing and finishing allocate, and taking never waits.
#![tactic(auto)]

mod counter;
mod deque;
mod handout;
mod stealing;
mod table;

pub use counter::{Counter, CounterShare};
pub use handout::Handout;
pub use stealing::{Stealing, StealingShare};
