//! Checking a report about a task while the report is read.

ghost use Rattle.std.specs.Prelude.{◌≡◌, IfOk, OnOk, string_bytes, true};
ghost use Rattle.wf_model.specs.Limits.{most_bytes};
ghost use Rattle.wf_base.specs.Streams.Ends.{CanRead};
ghost use Rattle.wf_report.specs.Windows.{CanGive};
ghost use Rattle.wf_run.specs.Run.{answered};
ghost use Rattle.wf_run_verify.specs.AsRead.{ChecksOn, IsFirst, IsPrepared, IsPreparedFor, IsTold, ReadsReport, accepted_as, accepted_if};
ghost use Rattle.wf_run_verify.specs.Verify.{ChecksReport, IsAccepted, text_of, words_of};

use crate::outcome::Accepted;
use std::alloc::{AllocError, Global};
use std::io::Read;
use std::thread::Threads;
use wf_base::streams::Source;
use wf_complex::Protocol;
use wf_report::{
    AnswerKind, CertFault, Header, ReadStop, Window, read_answer, read_header, skim_body,
};
use wf_report_check::{CheckContext, judge_body, judge_header};
use wf_run::{Answered, RunFault};
use wf_task::{MAX_TEXT_BYTES, Task};

/// The context in which a report is checked: the task, the requested rounds, the allocator, and the
/// runtime that starts threads.
#[derive(Clone, Copy)]
pub(crate) struct VerifyContext<'a, T> {
    pub(crate) rt: &'a T,
    pub(crate) alloc: Global,
    pub(crate) task: &'a Task,
    // the rounds that the report has to be about, or `None` if any will do
    pub(crate) rounds: Option<u32>,
}

/// Checks the report that `source` gives. Returns what is accepted, with the line of text that says
/// so.
pub(crate) fn verify_report<T: Threads + Sync, C: Read>(
    asked: &VerifyContext<T>,
    source: &mut Source<C>,
) -> Answered<Accepted>
    requires { CanRead source.old }
    ensures { let a = asked.now in
        ChecksReport most_bytes a.rounds (IsAccepted a.rounds) a.task.now
        source.old source.new (answered result) }
{
    let mut window = Window::new(asked.alloc, MAX_TEXT_BYTES as u64)?;
    verify_in_window(asked, &mut window, source)
}

/// Checks the report that `source` gives, of which `window` holds what was read already. Returns
/// what is accepted, with the line of text that says so.
///
/// The report is read to its end even if a fault is found before, because a line that breaks the
/// grammar takes precedence over all other faults. In memory are only the protocol complex, the
/// boxes that are open, the values of a map, and one piece of the text.
pub(crate) fn verify_in_window<T: Threads + Sync, C: Read>(
    asked: &VerifyContext<T>,
    window: &mut Window,
    source: &mut Source<C>,
) -> Answered<Accepted>
    requires can { CanGive source.old window.old }
    requires first { IsFirst window.old }
    ensures { ChecksOn asked.now.rounds asked.now.task.now
        source.old source.new window.old (answered result) }
{
    match read_report(asked, window, source) {
        Ok(reported) => with_text(asked.alloc, reported, asked.rounds),
        Err(ReadStop::SourceFailed(fault)) => Err(RunFault::from(fault)),
        Err(ReadStop::BadReport(fault)) => {
            window.drain(source)?;
            Err(RunFault::from(fault))
        }
    }
}

/// Reads the whole report from `source`, and checks it. The outer error means that the text could
/// not be read or is not that of a report; the inner result is the verdict on a report that was
/// read to its end.
fn read_report<T: Threads + Sync, C: Read>(
    asked: &VerifyContext<T>,
    window: &mut Window,
    source: &mut Source<C>,
) -> Result<Result<Accepted, RunFault>, ReadStop>
    requires can { CanGive source.old window.old }
    requires number { window.old.number ≡ 1 }
    ensures read { ReadsReport asked.now.rounds asked.now.task.now
        source.old source.new window.old window.new result }
    ensures ended { OnOk result (window.new.ended ≡ true) }
    ensures can { OnOk result (CanGive source.new window.new) }
{
    let header = read_header(window, source)?;
    let answer = read_answer(window, source)?;
    match prepare_for(asked, header) {
        Err(fault) => {
            skim_body(asked.alloc, window, source, answer)?;
            Ok(Err(fault))
        }
        Ok(protocol) => {
            let judge = CheckContext {
                rt: asked.rt,
                alloc: asked.alloc,
                task: asked.task,
                protocol: &protocol,
            };
            let verdict = judge_body(&judge, window, source, answer)?;
            Ok(accepted_if(verdict, answer))
        }
    }
}

/// Builds the protocol complex for the rounds of a report with the header `header`.
///
/// # Errors
///
/// Returns [`RunFault::OtherRounds`] if other rounds are requested, before the complex is built,
/// and else the first fault of the header.
fn prepare_for<T>(asked: &VerifyContext<T>, header: Header) -> Result<Protocol, RunFault>
    ensures { IsPreparedFor asked.now.rounds asked.now.task.now header result }
{
    match asked.rounds {
        Some(wanted) if wanted != header.rounds => Err(RunFault::OtherRounds),
        _ => prepare(asked.alloc, asked.task, header),
    }
}

/// Builds the protocol complex for the rounds of a report with the header `header`, and checks the
/// numbers of the header against it.
fn prepare(alloc: Global, task: &Task, header: Header) -> Result<Protocol, RunFault>
    ensures { IsPrepared task.now header result }
{
    let protocol = Protocol::build(alloc, task, header.rounds)?;
    judge_header(task, &protocol, header)?;
    Ok(protocol)
}

/// Returns what is accepted of a report with the answer `answer`, or the fault in `verdict`.
fn accepted_if(verdict: Result<(), CertFault>, answer: AnswerKind) -> Result<Accepted, RunFault>
    ensures { result ≡ accepted_if verdict answer }
{
    verdict?;
    Ok(accepted_as(answer))
}

/// Returns what is accepted if a report with the answer `answer` has no fault.
fn accepted_as(answer: AnswerKind) -> Accepted
    ensures { result ≡ accepted_as answer }
{
    match answer {
        AnswerKind::Map => Accepted::Map,
        AnswerKind::Nothing => Accepted::Nothing,
        AnswerKind::Least => Accepted::Least,
    }
}

/// Returns the accepted answer in `reported`, with the line of text that says so, or the error in
/// `reported`. If `rounds` is given, the line names the number of rounds.
fn with_text(
    alloc: Global,
    reported: Result<Accepted, RunFault>,
    rounds: Option<u32>,
) -> Answered<Accepted>
    ensures { IsTold rounds reported (answered result) }
{
    let accepted = reported?;
    let text = accepted_text(alloc, accepted, rounds)?;
    Ok((accepted, text.into_bytes()))
}

/// Returns the line that says that `accepted` was accepted, such as `accepted none at 2 rounds`,
/// with a line feed. Without `rounds`, the line doesn't name the number of rounds.
pub(crate) fn accepted_text(
    alloc: Global,
    accepted: Accepted,
    rounds: Option<u32>,
) -> Result<String, AllocError>
    ensures { IfOk result (λ text. string_bytes text ≡ text_of rounds accepted) }
{
    let words = words_of(accepted);
    match rounds {
        None => format!(in alloc; "{words}\n"),
        Some(1) => format!(in alloc; "{words} at 1 round\n"),
        Some(rounds) => format!(in alloc; "{words} at {rounds} rounds\n"),
    }
}

/// Returns the words that say what is accepted, such as "accepted none".
pub(crate) fn words_of(accepted: Accepted) -> &'static str
    ensures { result.now ≡ words_of accepted }
{
    match accepted {
        Accepted::Map => "accepted map",
        Accepted::Nothing => "accepted none",
        Accepted::Least => "accepted least",
    }
}
