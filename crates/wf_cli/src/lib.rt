//! What the command lines of `wfcheck` and `wfverify` have in common.
//!
//! - [`words`]: the words of a command line: options, how they are read, and the mistakes that are
//!   refused. Begin reading with its `parse`.
//! - [`service`]: opening the task's file, running a job on it, and reporting how the run ended.
#![tactic(auto)]

pub mod service;
pub mod words;
