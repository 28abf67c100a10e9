//! The check of balances. A balance is a list of multipliers for equations that hold for any values
//! of the views. In the sum of the multiplied equations each tuple that the task allows counts 0,
//! but the constant is not 0; so the task has no decision map.
//!
//! - [`is_balance`]: the check, for a task with any lists of tuples at its input simplices.
//! - [`Balance`], [`Multiplier`], [`Others`]: the input of the check.
//! - [`BalanceFault`]: why multipliers are not a balance.
//! - [`no_fault_exactly_if_balance`]: a law; there is nothing to call.

mod check;
mod fault;
mod judge;
mod key;
mod laws;
mod multiplier;
mod others;
mod weights;

pub use check::is_balance;
pub use fault::BalanceFault;
pub use laws::no_fault_exactly_if_balance;
pub use multiplier::{Balance, Multiplier};
pub use others::Others;
