//! The clause database and the trail of a checker for clausal proofs.
//!
//! This module stores clauses and finds them by their literals; unit propagation is in `rup`. A
//! literal is given by its [`Code`](wf_sat_text::drat::Code). It is proved that a stored clause
//! stays unchanged until it is deleted, and that a deletion removes one clause with the given
//! literals if there is one.
//!
//! - [`ClauseDb`]: the clause database. Begin reading here.
//! - [`Trail`]: the literals that are true, in the order in which they were assigned.
//! - [`FirstOccurrence`]: for each literal a lower bound on the numbers of the clauses that have
//!   it.
//! - [`negated`]: the negation of a literal.

mod alike;
mod clause_db;
mod clauses;
mod firsts;
mod hash;
mod index;
mod trail;

pub use clause_db::ClauseDb;
pub use firsts::FirstOccurrence;
pub use trail::{Trail, negated};
