//! A checker for clausal proofs (DRAT). Each lemma has to follow from the clauses that are kept by
//! reverse unit propagation (RUP), or be a resolution asymmetric tautology (RAT) on its first
//! literal.
//!
//! It is proved that if [`Checker::is_refuted`] returns `true`, and so if [`Proof::finish`] or
//! [`check_proof`] accepts, the added clauses have no common model, whatever the bytes of the proof
//! are. A RAT lemma need not follow, so the proof rests on the fact that each step keeps
//! satisfiability (`KeepsSatisfiable`).
//!
//! - [`Checker`]: adds clauses, and checks lemmas and deletions one by one. A lemma that it refuses
//!   is neither RUP nor RAT on its first literal (`IsUnjustified`).
//! - [`Proof`]: parses a proof in pieces and passes its steps to a checker. Which bytes give which
//!   fault is defined in `specs/Rup/Fed`.
//! - [`check_proof`]: does both for a formula and a proof in memory. Begin reading here.
//!
//! The clause database and the trail are in `store`; this module has the watch lists, unit
//! propagation and the RAT check.

mod checker;
mod database;
mod laws;
mod proof;
mod propagation;
mod rat;
mod scan;
mod settled;
mod watches;
mod whole;

pub use checker::Checker;
pub use laws::{what_follows_is_entailed, what_is_justified_is_redundant};
pub use proof::{Proof, ProofFault};
pub use wf_sat_text::drat::{Literal, MAX_VARIABLES, SPARE_VARIABLES, last_variable};
pub use whole::check_proof;
