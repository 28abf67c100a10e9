//! What the command lines of `wfcheck` and `wfverify` have in common: reading the arguments, the
//! options that both programs have, and the errors for arguments that are refused.
//!
//! - [`arguments`] reads the arguments that the program was started with.
//! - [`options`] builds options for `clap`; [`parse`] matches arguments against a command, and
//!   [`found`] reads the values of options from the match.
//! - [`WordsFault`] and [`UsageError`] are the reasons why arguments are refused.
//!   `specs/Asked.antt` defines which arguments ask for which job.
//! - [`VERSION`] and [`LOGIC`] identify a program.

mod called;
mod fault;
pub mod found;
mod mistake;
pub mod options;
mod reading;
mod version;

pub use called::arguments;
pub use fault::{WordsFault, missing};
pub use mistake::{ArgName, MAX_WORKERS, UsageError};
pub use reading::parse;
pub use version::{LOGIC, VERSION};
