//! A checker for clausal proofs with hints (LRAT). Each clause comes with the ids of clauses from
//! which it follows by unit propagation, in the order in which they become unit. Or it is a
//! resolution asymmetric tautology (RAT) on its first literal; then there is a group of such ids
//! for each clause that has the negation of that literal, after the negated id of that clause.
//!
//! It is proved that if [`LratChecker::is_refuted`] returns `true`, and so if [`LratProof::finish`]
//! accepts, the added clauses have no common model, whatever the bytes of the proof are. A RAT
//! clause need not follow, so the proof rests on the fact that each step keeps satisfiability
//! (`KeepsSatisfiable`).
//!
//! - [`LratChecker`]: adds clauses, and checks the steps of a proof one by one. `specs/Lrat/Hints`
//!   defines the verdict on each clause as a computable function, and `specs/Lrat/Ledger` what the
//!   checker knows.
//! - [`LratProof`]: parses a proof in pieces and passes its steps to a checker. Which bytes give
//!   which fault is defined in `specs/Lrat/Fed`. Begin reading here.

mod checker;
mod clauses;
mod follow;
mod groups;
mod packing;
mod proof;
mod rat;
mod scan;
mod trail;
mod verdict;

pub use checker::{LratChecker, MAX_ID_GROWTH};
pub use proof::{LratFault, LratProof};
pub use verdict::LratVerdict;
pub use wf_sat_text::drat::{Literal, MAX_VARIABLES, SPARE_VARIABLES, last_variable};
pub use wf_sat_text::lrat::Hint;
