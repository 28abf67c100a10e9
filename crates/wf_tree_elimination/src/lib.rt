//! Gaussian elimination modulo prime powers: whether linear equations contradict one another, with
//! multipliers that show it.
//!
//! An equation says that a sum of unknowns with coefficients is 0; the first unknown is the
//! constant, which has the value 1. If an equation contradicts those before it, multipliers are
//! returned with which the equations add up to a constant other than 0. That each contradiction is
//! found, and that multipliers and solutions are right, is tested and not proved: callers have to
//! check them.
//!
//! - [`Elimination`]: takes equations in. [`Contradiction`], [`Multiple`]: its results.
//! - [`Ring`], [`prime_powers`]: arithmetic modulo a prime power, and the prime powers of a
//!   modulus.
//! - [`EliminationFault`], [`LEVELS`], [`MAX_UNKNOWNS`], [`MAX_ENTRIES`], [`MAX_STEPS`]: when it
//!   gives up.
#![tactic(auto)]

mod elimination;
mod fault;
mod keep;
mod kept;
mod multipliers;
mod powers;
mod primes;
mod queue;
mod ring;
mod row;
mod solution;
mod take_in;

pub use elimination::Elimination;
pub use fault::{EliminationFault, MAX_ENTRIES, MAX_STEPS, MAX_UNKNOWNS};
pub use kept::{Contradiction, Multiple};
pub use powers::prime_powers;
pub use ring::Ring;
pub use row::LEVELS;
