//! The pool of workers as a pure state machine, which specifies what the concurrent pool does.
//!
//! A pool has a number of branches and some workers. A worker takes a free branch and settles it:
//! it posts the branch if it found a map, refutes it if it found that there is none, or cuts it,
//! for which it must have seen a lower branch posted. [`Core`] performs such [`Event`]s one by one,
//! or rejects one with the first reason against it. `specs/Core.antt` defines what an event needs
//! and what it does; the laws, such as [`first_true_place`], say what holds after every list of
//! legal events.
//!
//! A step costs a few look-ups and does not allocate.
#![tactic(auto)]

mod event;
mod laws;
mod machine;

pub use event::{Account, CoreFault, Event, Illegal, Status};
pub use laws::{
    accounts_add_up, first_true_place, lists_run_or_stop, no_branch_is_held_twice, steps_are_legal,
    what_runs_keep,
};
pub use machine::Core;
