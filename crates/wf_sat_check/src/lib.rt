//! Checkers of clausal proofs: if one accepts, the clauses that were added have no model, whatever
//! the bytes of the proof are.
//!
//! - [`rup`]: the checker of proofs without hints (DRAT), by unit propagation with two watched
//!   literals. Begin reading with its `check_proof`.
//! - [`lrat`]: the checker of proofs with hints (LRAT), which follows the hints alone.
//! - [`store`]: the clause database and the trail that both use.
#![tactic(auto)]

pub mod lrat;
pub mod rup;
pub mod store;
