//! The texts of SAT solvers: what a clause and a formula are, and parsers of clausal proofs that
//! take one byte at a time.
//!
//! - [`clauses`]: the definitions of literals, clauses, formulas and models.
//! - [`drat`]: the parser of proofs in the text form of DRAT. Begin reading with its `Reader`.
//! - [`lrat`]: the parser of proofs with hints, in the text form of LRAT.
//!
//! No function allocates. Whether a lemma follows is checked by `wf_sat_check`.
#![tactic(auto)]

pub mod clauses;
pub mod drat;
pub mod lrat;
