//! Checking a report about a task.

ghost use Rattle.std.specs.Prelude.{◌≡◌, ℕ, IfOk, List};
ghost use Rattle.std.specs.Thread.{IsSync};
ghost use Rattle.wf_model.specs.Limits.{most_bytes};
ghost use Rattle.wf_model.specs.Task as tasks;
ghost use Rattle.wf_model.specs.Report as reports;
ghost use Rattle.wf_base.specs.Streams.Ends.{CanRead};
ghost use Rattle.wf_report.specs.Reports.{AreNumbered, body_length, body_of, report_seen};
ghost use Rattle.wf_run.specs.Run.{Ran, Reads, answered};
ghost use Rattle.wf_run.specs.Sources.{CanReadBoth};
ghost use Rattle.wf_run_verify.specs.Verify.{Checks, ChecksReport, IsAccepted, IsReportOf, IsVerified, IsVerifiedFor, Judges, Verifies, accepted_words, seen};

use crate::as_read::{VerifyContext, verify_report, words_of};
use crate::outcome::Accepted;
use std::alloc::Global;
use std::io::{Read, Write};
use std::thread::Threads;
use wf_base::streams::{Sink, Source, read_all};
use wf_complex::Protocol;
use wf_report::{Body, Report, read_report};
use wf_report_check::check;
use wf_run::{Answered, PairAnswer, RunFault, run_over_pair};
use wf_task::{MAX_TEXT_BYTES, Task};

/// Reads a task and then a report about it, each to the end of its source, checks the report while
/// it is read, and writes a line that says what is accepted.
///
/// If `rounds` is given, the report has to be about that number of rounds, and the line names it.
/// What is accepted is true and does not depend on the search: a map is a decision map, and the
/// least one if the report says so; if the report says that there is none, no function on the views
/// is a decision map.
///
/// # Errors
///
/// Returns the reason why the task or the report is refused, or that memory ran out, or that a call
/// of a source or of the sink failed. Nothing is written unless the error is a failed write. A
/// report about other rounds than `rounds` is refused before its protocol complex is built.
pub fn run_verify<T: Threads + Sync, R: Read, C: Read, W: Write>(
    rt: &T,
    alloc: Global,
    task_source: &mut Source<R>,
    report_source: &mut Source<C>,
    sink: &mut Sink<W>,
    rounds: Option<u32>,
) -> Result<Accepted, RunFault>
    requires { CanReadBoth task_source.old report_source.old sink.old }
    ensures { Verifies most_bytes rounds task_source.old task_source.new
        report_source.old report_source.new sink.old sink.new result }
{
    let accepted = VerifyReport { rt, rounds };
    run_over_pair(alloc, task_source, report_source, sink, &accepted)
}

/// The answer of [`run_verify`]: what is accepted of a report, with a line that says so and names
/// the rounds if they are given.
#[derive(Clone, Copy)]
struct VerifyReport<'a, T> {
    rt: &'a T,
    rounds: Option<u32>,
}

impl<'a, T: Threads + Sync> PairAnswer for VerifyReport<'a, T> {
    type Answer = Accepted;

    ghost asks = { λ accepted. ChecksReport most_bytes accepted.rounds
        (IsAccepted accepted.rounds) };

    ghost is_ready = { λ _. IsSync T.row };

    fn of_pair<C: Read>(
        &self,
        alloc: Global,
        task: &Task,
        source: &mut Source<C>,
    ) -> Answered<Accepted> {
        let asked = VerifyContext {
            rt: self.rt,
            alloc,
            task,
            rounds: self.rounds,
        };
        verify_report(&asked, source)
    }
}

/// An answer of a run about a task and a report that is accepted, together with the text that the
/// run writes.
pub trait ReportAnswer {
    /// The type of the answer.
    type Answer: Drop;

    // states which text belongs to an answer about a task and a report
    ghost is_text: { Self → tasks.Task → reports.Report → Self.Answer → List ℕ → Type 0 };

    // the condition under which an answer may be requested
    ghost is_ready: { Self → Type 0 } = { λ _. Unit {0} };

    /// Checks `report`, which is about `task`, and returns the answer about it, with its text.
    ///
    /// # Errors
    ///
    /// Returns the fault for which the report is not accepted, or that memory ran out.
    fn of_report(&self, alloc: Global, task: &Task, report: Report) -> Answered<Self::Answer>
        requires ready { is_ready self.now }
        requires few { AreNumbered (body_length report.body) }
        ensures { IsVerified (is_text self.now) task.now (report_seen report) (answered result) };
}

/// Reads a task and then a report about it, each to the end of its source, and writes the text of
/// the answer that `asked` gives about the report.
///
/// # Errors
///
/// Returns the reason why the task or the report is refused, or that memory ran out, or that a call
/// of a source or of the sink failed. If `rounds` is given, a report about other rounds is refused
/// before its protocol complex is built.
pub fn run_over_report<A: ReportAnswer, R: Read, C: Read, W: Write>(
    alloc: Global,
    task_source: &mut Source<R>,
    report_source: &mut Source<C>,
    sink: &mut Sink<W>,
    rounds: Option<u32>,
    asked: &A,
) -> Result<A::Answer, RunFault>
    requires ready { A.is_ready asked.now }
    requires ends { CanReadBoth task_source.old report_source.old sink.old }
    ensures { Ran (Checks rounds (A.is_text asked.now) task_source.old task_source.new
        report_source.old report_source.new) sink.old sink.new result }
{
    let report = AboutReport { rounds, asked };
    run_over_pair(alloc, task_source, report_source, sink, &report)
}

/// The answer of [`run_over_report`]: what `asked` answers about the report that the second source
/// gives.
#[derive(Clone, Copy)]
struct AboutReport<'a, A> {
    // the rounds that the report has to be about, or `None` if any will do
    rounds: Option<u32>,
    asked: &'a A,
}

impl<'a, A: ReportAnswer> PairAnswer for AboutReport<'a, A> {
    type Answer = A::Answer;

    ghost asks = { λ about. ChecksReport most_bytes about.rounds (A.is_text about.asked.now) };

    ghost is_ready = { λ about. A.is_ready about.asked.now };

    fn of_pair<C: Read>(
        &self,
        alloc: Global,
        task: &Task,
        source: &mut Source<C>,
    ) -> Answered<A::Answer> {
        let report = read_report_from(alloc, source)?;
        answer_for(alloc, task, report, self.rounds, self.asked)
    }
}

/// Returns the answer that `asked` gives about `report`, or the fault [`RunFault::OtherRounds`] if
/// `rounds` is given and the report is about other rounds.
fn answer_for<A: ReportAnswer>(
    alloc: Global,
    task: &Task,
    report: Report,
    rounds: Option<u32>,
    asked: &A,
) -> Answered<A::Answer>
    requires ready { A.is_ready asked.now }
    requires few { AreNumbered (body_length report.body) }
    ensures { IsVerifiedFor rounds (A.is_text asked.now) task.now (report_seen report)
        (answered result) }
{
    match rounds {
        Some(wanted) if wanted != report.header.rounds => Err(RunFault::OtherRounds),
        _ => asked.of_report(alloc, task, report),
    }
}

/// Reads a report to the end of `source`. This is the first step of a run over a report.
///
/// # Errors
///
/// Returns `TooLong` if the text has more than 16,777,216 bytes, `Syntax` with the first line that
/// breaks the grammar, `Read` if a call of the source fails, or that memory ran out.
pub fn read_report_from<C: Read>(alloc: Global, source: &mut Source<C>) -> Result<Report, RunFault>
    requires { CanRead source.old }
    ensures read { Reads (IsReportOf most_bytes) source.old source.new (seen result) }
    ensures few { IfOk result (λ report. AreNumbered (body_length report.body)) }
{
    let text = read_all(alloc, source, MAX_TEXT_BYTES)?;
    report_of(alloc, &text)
}

/// Parses the text of a report.
///
/// # Errors
///
/// Returns `TooLong` if `text` has more than 16,777,216 bytes, `Syntax` with the first line that
/// breaks the grammar, or that memory ran out.
pub fn report_of(alloc: Global, text: &[u8]) -> Result<Report, RunFault>
    ensures read { IsReportOf most_bytes text.now (seen result) }
    ensures few { IfOk result (λ report. AreNumbered (body_length report.body)) }
{
    Ok(read_report(alloc, text)?)
}

/// Checks `report`, which is about `task`, and returns the protocol complex for its rounds. If it
/// returns one, what the report says is true.
///
/// # Errors
///
/// Returns the first fault of the report: one of those of [`run_verify`] that come after both texts
/// were read.
pub fn check_report<T: Threads + Sync>(
    rt: &T,
    alloc: Global,
    task: &Task,
    report: &Report,
) -> Result<Protocol, RunFault>
    requires { AreNumbered (body_length report.now.body) }
    ensures { Judges task.now (report_seen report.now) result }
{
    let protocol = Protocol::build(alloc, task, report.header.rounds)?;
    check(rt, alloc, task, &protocol, report)?;
    Ok(protocol)
}

/// Returns the words that say what is accepted of a report with the body `body`, such as "accepted
/// none".
pub fn accepted_words(body: &Body) -> &'static str
    ensures { result.now ≡ accepted_words (body_of body.now) }
{
    let accepted = match body {
        Body::Map(_) => Accepted::Map,
        Body::Nothing(_) => Accepted::Nothing,
        Body::Least(_, _) => Accepted::Least,
    };
    words_of(accepted)
}
