//! The counting argument: executions get a positive or a negative sign, and sums over the signed
//! executions of a simplex agree with those of its faces. The laws of balances in `wf_tree_model`
//! rest on it.
//!
//! `specs/Counting/Signs` defines the sign of an execution, `specs/Counting/Rules` how rules are
//! numbered, and `specs/Counting/Laws` what is proved. The function below is a law: its body is
//! empty, and its clauses are what is proved.

mod laws;

pub use laws::signed_executions_agree_on_faces;
