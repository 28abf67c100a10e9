//! The protocol complex of a task after r rounds of iterated immediate snapshot.
//!
//! - [`Protocol`]: the executions of a task and its points, by their indices. Begin with
//!   [`Protocol::build`].
//! - [`PackedExecution`]: an execution with its points, in the form in which it is kept and shared.
//! - [`Views`]: a table with one id for each view. A view is what a process knows after some rounds
//!   of immediate snapshots: at the start its input, and later the views that it saw. The same view
//!   occurs in a great many executions, so the table keeps each view once, and refers to the views
//!   inside it by their ids. A look-up hashes a few numbers, however deep the view is.
//! - [`put_view`]: writes a view in words.
//! - [`execution_count_of_size`]: the number of executions on a simplex of a given size.
#![tactic(auto)]

mod classes;
mod fault;
mod firsts;
mod layout;
mod node;
mod numbering;
mod packed;
mod protocol;
mod rounds;
mod views;
mod words;

pub use fault::BuildFault;
pub use layout::execution_count_of_size;
pub use packed::PackedExecution;
pub use protocol::Protocol;
pub use views::Views;
pub use words::put_view;
