//! Decision tasks: reading and checking their texts, keeping them, and writing their canonical
//! texts.
//!
//! - [`Task`]: input and output simplices, and for each input simplex the tuples that its processes
//!   may decide. [`Task::read_text`] reads one, or says what is wrong with the text.
//! - [`TaskFault`]: why a text is not a task, with the [`Key`] or the [`TaskLimit`] that it is
//!   about.
//! - [`MAX_TEXT_BYTES`]: the largest number of bytes in a text. [`MAX_VERTICES`], [`MAX_INPUTS`],
//!   [`MAX_OUTPUTS`] and [`MAX_TUPLES`]: the other limits.
//! - [`Row`]: a tuple of output values, one for each process of an input simplex. It is `Copy` and
//!   takes five bytes.
#![tactic(auto)]

mod canonical;
mod complexes;
mod judge;
pub mod limits;
pub mod row;
mod rows;
mod slots;
pub mod task;
mod tuples;

pub use limits::{MAX_INPUTS, MAX_OUTPUTS, MAX_TUPLES, MAX_VERTICES, texts_have_most_bytes};
pub use row::Row;
pub use task::{MAX_TEXT_BYTES, Task};
pub use wf_task_parse::{Key, TaskFault, TaskLimit};
