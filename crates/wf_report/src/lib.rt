//! Reports: the answer to a question about a task and a number of rounds, written as a text and
//! read back.
//!
//! - [`Report`] has a [`Header`], which says what the report is about, and a [`Body`], its answer.
//! - [`write_report`] and [`read_report`] convert between reports and texts in memory. Begin here.
//! - [`CertFault`] is the reason for refusing a report.
//! - [`Window`] reads a report in pieces, which may be longer than memory. [`read_header`],
//!   [`read_answer`], [`read_values`] and [`next_step`] read its lines from front to end;
//!   [`skim_body`] and [`skim_steps`] read lines without keeping any. [`ReadStop`] is the reason
//!   for stopping early.
//! - [`number_after`], [`value_of`] and [`step_in`] parse one line, [`split_once`] and [`number`]
//!   parts of it.
//!
//! The laws say that reading a written report returns it, and that a text is read as a report only
//! if it is that report's text.
#![tactic(auto)]

mod bytes;
mod fault;
mod front;
mod halt;
mod laws;
mod lines;
mod reading;
mod report;
mod skim;
mod window;
mod writing;

pub use bytes::{number, split_once};
pub use fault::CertFault;
pub use front::{AnswerKind, read_answer, read_header};
pub use halt::ReadStop;
pub use laws::{reports_are_read_as_written, reports_are_written_as_read};
pub use lines::{next_step, read_values};
pub use reading::{FIRST_LINE, Section, number_after, read_report, step_in, value_of};
pub use report::{Body, Header, Report};
pub use skim::{skim_body, skim_steps};
pub use wf_task::MAX_TEXT_BYTES;
pub use window::{AtFront, MAX_REPORT_BYTES, MAX_REPORT_LINES, Window};
pub use writing::write_report;
