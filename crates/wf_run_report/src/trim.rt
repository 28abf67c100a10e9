//! Writing a report with only the needed lines.

ghost use Rattle.std.specs.Prelude.{◌≡◌, IfOk, map};
ghost use Rattle.std.specs.Thread.{IsSync};
ghost use Rattle.wf_complex.specs.Protocol.{IsProtocol};
ghost use Rattle.wf_base.specs.Lines.Lines.{line_of};
ghost use Rattle.wf_report.specs.Reports.{AreNumbered, body_length, report_seen};
ghost use Rattle.wf_run_verify.specs.Verify.{IsFaultless};
ghost use Rattle.wf_run_report.specs.Trimming.{AreTrimmed, IsShortened, report_with};

use std::alloc::{AllocError, Global};
use std::thread::Threads;
use wf_base::lines::Lines;
use wf_complex::Protocol;
use wf_report::{Body, CertFault, Report};
use wf_report_check::check;
use wf_report_trim::trim;
use wf_run::Answered;
use wf_run_verify::{ReportAnswer, check_report};
use wf_task::Task;

/// A request to shorten a report: the same task, rounds and answer, with only some of the lines.
///
/// The report is first checked as [`run_verify`](wf_run_verify::run_verify) checks it. The
/// shorter one is accepted too. A report with only a map stays as it is.
#[derive(Clone, Copy)]
pub struct TrimReport<'a, T> {
    /// The runtime that starts threads.
    pub rt: &'a T,
}

impl<'a, T: Threads + Sync> ReportAnswer for TrimReport<'a, T> {
    ghost is_ready = { λ _. IsSync T.row };

    type Answer = ();

    ghost is_text = { λ shorter. AreTrimmed };

    fn of_report(&self, alloc: Global, task: &Task, report: Report) -> Answered<()> {
        let protocol = check_report(self.rt, alloc, task, &report)?;
        let shorter = shorten(self.rt, alloc, task, &protocol, report)?;
        Ok(((), shorter.into_text(alloc)?))
    }
}

/// Returns a report that the checker accepts, with the same answer as `report` and some of its
/// lines. The checker must accept `report` too.
///
/// The needed lines are checked before they replace all lines. If the checker finds a fault in
/// them, the lines stay as they are.
///
/// # Errors
///
/// Fails only if memory runs out.
pub(crate) fn shorten<T: Threads + Sync>(
    rt: &T,
    alloc: Global,
    task: &Task,
    protocol: &Protocol,
    report: Report,
) -> Result<Report, AllocError>
    requires built { IsProtocol task.now report.header.rounds protocol.now }
    requires faultless { IsFaultless task.now (report_seen report) }
    requires few { AreNumbered (body_length report.body) }
    ensures shorter { IfOk result (λ shorter.
        IsShortened task.now (report_seen report) (report_seen shorter)) }
    ensures few { IfOk result (λ shorter. AreNumbered (body_length shorter.body)) }
{
    let lines = report.body.lines();
    let kept = trim(alloc, task, protocol, lines)?;
    if kept.len() == lines.len() {
        return Ok(report);
    }
    let (shorter, lines) = exchange_lines(report, kept);
    match check(rt, alloc, task, protocol, &shorter) {
        Ok(()) => Ok(shorter),
        Err(CertFault::OutOfMemory) => Err(AllocError),
        Err(_) => {
            let (whole, _) = exchange_lines(shorter, lines);
            Ok(whole)
        }
    }
}

/// Replaces the lines of `report` by `lines`. Returns the new report and the old lines; exchanging
/// them again restores `report`.
///
/// A map has no lines, so it and `lines` are returned unchanged.
fn exchange_lines(report: Report, lines: Lines) -> (Report, Lines)
    ensures report { let new = map line_of lines.items in
        report_seen result.0 ≡ report_with (report_seen report) new }
    ensures own { let own = map line_of result.1.items in
        report_with (report_seen result.0) own ≡ report_seen report }
{
    let header = report.header;
    let (body, own) = match report.body {
        Body::Map(values) => (Body::Map(values), lines),
        Body::Nothing(own) => (Body::Nothing(lines), own),
        Body::Least(values, own) => (Body::Least(values, lines), own),
    };
    (Report { header, body }, own)
}
