//! The kernel, which finds the values that a table of rows supports, and functions over the
//! candidate sets of a box. All values are below 256.
//!
//! - [`TupleTable`]: a table of rows; begin reading here. If each value is below 64,
//!   [`TupleTable::revise`] reads a small table as columns of words with one bit each, eight rows a
//!   step and the remaining ones one by one. It reads a large table as a set of rows for each value
//!   of each place, 512 rows a step, or 64 if there are no more. If some value is 64 or more, it
//!   reads the rows one by one.
//! - [`first_open`], [`first_empty`], [`count`] and [`meet`]: functions over the sets of a box.
//!
//! Only [`TupleTable::build`] and [`TupleTable::share`] may allocate.
#![tactic(auto)]

mod blocks;
mod column;
mod few;
mod lanes;
pub mod sets;
pub mod table;
mod wide;

pub use sets::{count, first_empty, first_open, meet};
pub use table::{Support, TupleTable};
