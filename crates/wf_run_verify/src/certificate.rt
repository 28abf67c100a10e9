//! Checking a certificate about a task, which is a report or an obstruction.

ghost use Rattle.std.specs.Prelude.{◌≡◌, ◌≤◌, IfOk, OnOk, length, string_bytes};
ghost use Rattle.std.specs.Thread.{IsSync};
ghost use Rattle.wf_model.specs.Limits.{most_bytes};
ghost use Rattle.wf_base.specs.Streams.Ends.{CanRead};
ghost use Rattle.wf_report.specs.Windows.{CanGive};
ghost use Rattle.wf_tree_text.specs.Seen.{nodes_seen, obstruction_seen};
ghost use Rattle.wf_tree_text.specs.Text.{lines_of_nodes};
ghost use Rattle.wf_run.specs.Run.{answered};
ghost use Rattle.wf_run_verify.specs.Certificates.{ChecksObstruction, ChecksSource, JudgesObstruction, Peeks, as_verified, never_text};
ghost use Rattle.wf_run_verify.specs.Verify.{most_of};

use crate::as_read::{VerifyContext, verify_in_window};
use crate::obstruction::{judge_obstruction, obstruction_of};
use crate::outcome::{Accepted, Verified};
use std::alloc::{AllocError, Global};
use std::io::Read;
use std::thread::Threads;
use wf_base::streams::{ReadFault, Source};
use wf_report::{MAX_REPORT_BYTES, Window};
use wf_run::{Answered, PairAnswer};
use wf_task::{MAX_TEXT_BYTES, Task};
use wf_tree_text::{Obstruction, is_obstruction_text};

/// A request to check a certificate about a task, for [`run_over_pair`](wf_run::run_over_pair). If
/// the first line is that of an obstruction, the certificate is read as a whole and checked as one.
/// Otherwise it is checked as a report while it is read, as [`run_verify`](crate::run_verify) does,
/// except that it may be longer if `is_long`.
///
/// A task with an obstruction has no decision map after any number of rounds, so an obstruction may
/// be accepted whatever `rounds` is.
#[derive(Clone, Copy)]
pub struct VerifyCertificate<'a, T> {
    /// The runtime that starts threads.
    pub rt: &'a T,
    /// The rounds that a report has to be about, or `None` if any will do.
    pub rounds: Option<u32>,
    /// Whether a report may have up to 2^62 bytes, in place of 16,777,216. The limit of an
    /// obstruction is the latter in both cases.
    pub is_long: bool,
}

impl<'a, T: Threads + Sync> PairAnswer for VerifyCertificate<'a, T> {
    type Answer = Verified;

    ghost is_ready = { λ _. IsSync T.row };

    ghost asks = { λ accepted. ChecksSource (most_of accepted.is_long) accepted.rounds };

    fn of_pair<C: Read>(
        &self,
        alloc: Global,
        task: &Task,
        source: &mut Source<C>,
    ) -> Answered<Verified> {
        let asked = VerifyContext {
            rt: self.rt,
            alloc,
            task,
            rounds: self.rounds,
        };
        verify_certificate(&asked, source, self.is_long)
    }
}

/// Checks the certificate that `source` gives, in the context `asked`. Returns what is accepted and
/// the line to be written. A report may be longer than [`MAX_TEXT_BYTES`] if `is_long`.
///
/// The first line decides whether the certificate is an obstruction. Until that line is read, the
/// limit of bytes is that of an obstruction.
fn verify_certificate<T: Threads + Sync, C: Read>(
    asked: &VerifyContext<T>,
    source: &mut Source<C>,
    is_long: bool,
) -> Answered<Verified>
    requires { CanRead source.old }
    ensures { ChecksSource (most_of is_long) asked.now.rounds asked.now.task.now
        source.old source.new (answered result) }
{
    let mut window = Window::new(asked.alloc, MAX_TEXT_BYTES as u64)?;
    let is_one = begins_as_obstruction(&mut window, source)?;
    if is_one {
        let text = window.read_rest(asked.alloc, source)?;
        return verify_obstruction(asked.alloc, asked.task, &text, asked.rounds);
    }
    window.allow(report_byte_limit(is_long));
    as_verified(verify_in_window(asked, &mut window, source))
}

/// Returns the largest number of bytes that a report may have.
fn report_byte_limit(is_long: bool) -> u64
    ensures { result ≡ most_of is_long }
{
    if is_long {
        MAX_REPORT_BYTES
    } else {
        MAX_TEXT_BYTES as u64
    }
}

/// Returns whether the text in `window` begins with the first line of an obstruction. Reads from
/// `source` only as much as is needed to decide that.
fn begins_as_obstruction<C: Read>(
    window: &mut Window,
    source: &mut Source<C>,
) -> Result<bool, ReadFault>
    requires { CanGive source.old window.old }
    ensures told { Peeks source.old source.new window.old window.new result }
    ensures can { OnOk result (CanGive source.new window.new) }
{
    window.seek(source)?;
    Ok(is_obstruction_text(window.pending()))
}

/// Returns what was accepted of a report as the answer about a certificate, and passes on an error.
fn as_verified(answer: Answered<Accepted>) -> Answered<Verified>
    ensures { answered result ≡ as_verified (answered answer) }
{
    match answer {
        Ok((accepted, line)) => Ok((Verified::Report(accepted), line)),
        Err(fault) => Err(fault),
    }
}

/// Parses `text` as an obstruction, and checks that it is one of `task`. Returns the acceptance and
/// the line to be written, which names `rounds` if it is given.
fn verify_obstruction(
    alloc: Global,
    task: &Task,
    text: &[u8],
    rounds: Option<u32>,
) -> Answered<Verified>
    ensures { ChecksObstruction rounds task.now text.now (answered result) }
{
    let obstruction = obstruction_of(alloc, text)?;
    check_parsed_obstruction(alloc, task, &obstruction, rounds)
}

/// Checks that `obstruction` is an obstruction of `task`. Returns the acceptance and the line to be
/// written, which names `rounds` if it is given.
fn check_parsed_obstruction(
    alloc: Global,
    task: &Task,
    obstruction: &Obstruction,
    rounds: Option<u32>,
) -> Answered<Verified>
    requires few { length (lines_of_nodes (nodes_seen obstruction.now.nodes.items)) ≤ most_bytes }
    ensures { JudgesObstruction rounds task.now (obstruction_seen obstruction.now)
        (answered result) }
{
    judge_obstruction(alloc, task, obstruction)?;
    let text = obstruction_text(alloc, rounds)?;
    Ok((Verified::Obstruction, text.into_bytes()))
}

/// Returns the line to be written if an obstruction is accepted. It names `rounds`, or "every
/// number of rounds" if `rounds` is `None`.
fn obstruction_text(alloc: Global, rounds: Option<u32>) -> Result<String, AllocError>
    ensures { IfOk result (λ text. string_bytes text ≡ never_text rounds) }
{
    match rounds {
        None => format!(in alloc; "accepted none at every number of rounds\n"),
        Some(1) => format!(in alloc; "accepted none at 1 round\n"),
        Some(rounds) => format!(in alloc; "accepted none at {rounds} rounds\n"),
    }
}
