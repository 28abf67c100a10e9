//! The checker as a function over any reader and any two writers. It uses nothing of the search and
//! nothing of the finder of obstructions: the engines of `wf_run_verify` do the checks.
//!
//! - [`run_checker`] is the whole program: it checks what standard input gives about the task in a
//!   file, which may be a report, an obstruction or a clausal proof with or without hints. Its
//!   relation is in `specs/Checker/Checker.antt`, and the meaning of exit status 0 in
//!   `specs/Checker/Headline.antt`.
//! - [`read_words`] turns words into a [`CheckJob`]. `specs/Checker/CommandLine.antt` defines the
//!   command line, and `specs/Checker/Asked.antt` which words ask for which [`Check`].

mod check;
mod checker;
mod command;
mod job;
mod laws;

pub use checker::run_checker;
pub use job::{Check, CheckJob, read_words};
pub use laws::{checking_is_counted, checks_are_true};
