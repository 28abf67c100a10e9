//! Two ways to get another answer from one: a shorter refutation, and a map for more rounds.
//!
//! - [`trim`] removes lines of a refutation that are not needed.
//! - [`lift_values`] lifts a decision map to more rounds: each process decides what the map decides
//!   at its own view of an earlier round. It looks up one value for each point and builds no views.
//!
//! The other functions are laws: empty functions whose contracts are proved. `specs/Lift` has the
//! definitions, and `specs/Laws` the statements.
#![tactic(auto)]

mod kept;
mod laws;
mod needs;
mod path;
mod reasons;
mod stretch;
mod trimmer;
mod values;

pub use laws::{a_round_more_keeps_the_points_before, decision_maps_lift, lifted_lists};
pub use trimmer::trim;
pub use values::lift_values;
