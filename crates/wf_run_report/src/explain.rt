//! Explaining a certificate in words: what a map decides, why there is no map, or why there is none
//! after any number of rounds.

ghost use Rattle.std.specs.Prelude.{◌≡◌, ◌≤◌, IfOk, length};
ghost use Rattle.std.specs.Thread.{IsSync};
ghost use Rattle.wf_model.specs.Limits.{most_bytes};
ghost use Rattle.wf_complex.specs.Protocol.{IsProtocol};
ghost use Rattle.wf_report.specs.Reports.{AreNumbered, body_length, body_of, report_seen};
ghost use Rattle.wf_tree_text.specs.Seen.{nodes_seen, obstruction_seen};
ghost use Rattle.wf_tree_text.specs.Text.{lines_of_nodes};
ghost use Rattle.wf_run.specs.Run.{Reads, answered};
ghost use Rattle.wf_run_verify.specs.Verify.{IsVerified};
ghost use Rattle.wf_run_report.specs.Explaining.{AreExplained, ExplainsObstruction, ExplainsReport, ExplainsText, TellsObstruction, body_explained};

use crate::trim::shorten;
use std::alloc::{AllocError, Global};
use std::io::Read;
use std::thread::Threads;
use wf_base::streams::{Source, read_all};
use wf_complex::Protocol;
use wf_report::{Body, Report};
use wf_report_explain::argument::write_argument;
use wf_run::{Answered, PairAnswer, write_points};
use wf_run_verify::{check_report, judge_obstruction, obstruction_of, report_of};
use wf_task::{MAX_TEXT_BYTES, Task};
use wf_tree_explain::write_obstruction_argument;
use wf_tree_text::{Obstruction, is_obstruction_text};

/// A request to explain a certificate in words.
///
/// The certificate is first checked as
/// [`VerifyCertificate`](wf_run_verify::VerifyCertificate) checks it. The text is then:
///
/// - for a report with a map, the points of the protocol complex with the value of each;
/// - for a refutation, the argument of its lines, without those that are not needed;
/// - for an obstruction, why there is no map after any number of rounds.
#[derive(Clone, Copy)]
pub struct ExplainCertificate<'a, T> {
    /// The runtime that starts threads.
    pub rt: &'a T,
}

impl<'a, T: Threads + Sync> PairAnswer for ExplainCertificate<'a, T> {
    type Answer = ();

    ghost is_ready = { λ _. IsSync T.row };

    ghost asks = { λ words t. Reads (ExplainsText t) };

    fn of_pair<C: Read>(&self, alloc: Global, task: &Task, source: &mut Source<C>) -> Answered<()> {
        let text = read_all(alloc, source, MAX_TEXT_BYTES)?;
        explain_text(self.rt, alloc, task, &text)
    }
}

/// Checks the certificate in `text`, which has to be about `task`, and returns it in words.
fn explain_text<T: Threads + Sync>(rt: &T, alloc: Global, task: &Task, text: &[u8]) -> Answered<()>
    ensures { ExplainsText task.now text.now (answered result) }
{
    if is_obstruction_text(text) {
        explain_obstruction(alloc, task, text)
    } else {
        explain_report(rt, alloc, task, text)
    }
}

/// Checks the obstruction in `text`, which has to be one of `task`, and returns it in words.
fn explain_obstruction(alloc: Global, task: &Task, text: &[u8]) -> Answered<()>
    ensures { ExplainsObstruction task.now text.now (answered result) }
{
    let obstruction = obstruction_of(alloc, text)?;
    explain_checked_obstruction(alloc, task, &obstruction)
}

/// Checks `obstruction` of `task`, and returns it in words.
fn explain_checked_obstruction(
    alloc: Global,
    task: &Task,
    obstruction: &Obstruction,
) -> Answered<()>
    requires few { length (lines_of_nodes (nodes_seen obstruction.now.nodes.items)) ≤ most_bytes }
    ensures { TellsObstruction task.now (obstruction_seen obstruction.now) (answered result) }
{
    judge_obstruction(alloc, task, obstruction)?;
    Ok((
        (),
        write_obstruction_argument(alloc, task, &obstruction.nodes)?,
    ))
}

/// Checks the report in `text`, which has to be about `task`, and returns it in words.
fn explain_report<T: Threads + Sync>(
    rt: &T,
    alloc: Global,
    task: &Task,
    text: &[u8],
) -> Answered<()>
    ensures { ExplainsReport task.now text.now (answered result) }
{
    let report = report_of(alloc, text)?;
    explain_checked_report(rt, alloc, task, report)
}

/// Checks `report` about `task`, and returns it in words, a refutation without the lines that are
/// not needed.
fn explain_checked_report<T: Threads + Sync>(
    rt: &T,
    alloc: Global,
    task: &Task,
    report: Report,
) -> Answered<()>
    requires { AreNumbered (body_length report.body) }
    ensures { IsVerified AreExplained task.now (report_seen report) (answered result) }
{
    let protocol = check_report(rt, alloc, task, &report)?;
    let shorter = shorten(rt, alloc, task, &protocol, report)?;
    Ok(((), explain_body(alloc, task, &protocol, &shorter.body)?))
}

/// Returns the answer `body` in words: the points of a map, or the argument of a refutation.
fn explain_body(
    alloc: Global,
    task: &Task,
    protocol: &Protocol,
    body: &Body,
) -> Result<Vec<u8>, AllocError>
    requires { IsProtocol task.now protocol.now.rounds protocol.now }
    ensures { IfOk result (λ text. text.items
        ≡ body_explained task.now protocol.now.rounds (body_of body.now)) }
{
    match body {
        Body::Map(values) | Body::Least(values, _) => write_points(alloc, task, protocol, values),
        Body::Nothing(lines) => write_argument(alloc, task, protocol, lines),
    }
}
