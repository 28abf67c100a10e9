//! The run of `wfcheck obstruction`: from the bytes of a task to the bytes of an obstruction.
//!
//! - [`run_obstruction`]: reads a task, looks for an obstruction and writes it.
//! - [`ObstructionSpec`], [`MODULI`]: the options of the search.
//! - [`Finding`]: its result. [`Tried`]: what was tried without success. [`GaveUp`],
//!   [`SearchLimit`]: where and why it stopped before its end.
//! - [`found_obstructions_are_true`], [`seeking_is_counted`]: laws; there is nothing to call.
//!
//! Before an obstruction is written, its text is read and checked as `verify` does, so the finder
//! need not be trusted. How often it finds an obstruction is tested, not proved.
#![tactic(auto)]

mod finding;
mod laws;
mod run;
mod search;

pub use finding::{Finding, GaveUp, SearchLimit, Tried};
pub use laws::{found_obstructions_are_true, seeking_is_counted};
pub use run::run_obstruction;
pub use search::{MODULI, ObstructionSpec};
