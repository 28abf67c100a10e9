//! Writing what the map of a report decides.

ghost use Rattle.std.specs.Thread.{IsSync};
ghost use Rattle.wf_run_verify.specs.Verify.{AreDecisions};

use crate::verify::{ReportAnswer, check_report};
use std::alloc::Global;
use std::thread::Threads;
use wf_report::Report;
use wf_run::{Answered, write_points};
use wf_task::Task;

/// The answer of a run about a task and a report: a list of the points of the protocol complex in
/// words, each with the value that the report's map has there. If the report has no map, the points
/// are listed without values. The report is checked first, as [`run_verify`](crate::run_verify)
/// does.
#[derive(Clone, Copy)]
pub struct DescribeMap<'a, T> {
    /// The runtime that starts threads.
    pub rt: &'a T,
}

impl<'a, T: Threads + Sync> ReportAnswer for DescribeMap<'a, T> {
    ghost is_ready = { λ _. IsSync T.row };

    type Answer = ();

    ghost is_text = { λ words. AreDecisions };

    fn of_report(&self, alloc: Global, task: &Task, report: Report) -> Answered<()> {
        let protocol = check_report(self.rt, alloc, task, &report)?;
        Ok((
            (),
            write_points(alloc, task, &protocol, report.body.values())?,
        ))
    }
}
