//! The checker of reports. Nothing that it accepts rests on the search: it needs only tasks,
//! protocol complexes, sets of values, and reports with their sources.
//!
//! - [`check`] checks a report in memory. Begin here.
//! - [`judge_body`] checks the body of a report while it is read, in the context of a
//!   [`CheckContext`].
//! - [`ReportChecker`] checks reports about one box only, each a [`TaskReport`].
//! - [`judge_header`], [`judge_map`] and [`LineChecker`] are the steps of a check. A `LineChecker`
//!   takes lines one by one, and judges by [`LineContext`] whether they show a [`ReportClaim`].
#![tactic(auto)]

mod blocks;
mod body;
mod boxes;
mod checking;
mod group;
mod judge;
mod judging;
mod maps;
mod row_block;
mod rows;
mod support;
mod tuples;

pub use body::{CheckContext, judge_body};
pub use checking::{ReportChecker, TaskReport, check, judge_header, judge_map, uniform_box};
pub use judge::{LineChecker, LineContext, ReportClaim};
