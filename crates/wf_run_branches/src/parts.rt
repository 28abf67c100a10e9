//! Separates and checks the parts in a text that holds one behind another.

ghost use Rattle.std.specs.Prelude.{◌≡◌, ◌<◌, ◌≤◌, length};
ghost use Rattle.wf_model.specs.Outline.{boxes_left_out};
ghost use Rattle.wf_complex.specs.Protocol.{IsProtocol};
ghost use Rattle.wf_report_check.specs.Within.{IsCheckerOf};
ghost use Rattle.wf_run_branches.specs.Branches.{IsCoverOf};
ghost use Rattle.wf_run_branches.specs.Joining.{IsBodyIn, TakesPart, body_seen, ends_here, in_part, next_part, part_length};

use crate::branch::branch_in;
use crate::verifying::{PartContext, check_part, part_of};
use std::alloc::Global;
use std::thread::Threads;
use wf_report::{Body, CertFault};
use wf_report_check::ReportChecker;
use wf_run::{PartFault, RunFault};
use wf_search::Cover;

/// The end of a part: the line `end`, with the line feed of the line before it.
const END_MARK: &[u8] = b"\nend\n";

/// Splits `text` behind its first part, which ends with the first line `end`. If there is no such
/// line, the part is the whole text.
pub(crate) fn next_part(text: &[u8]) -> (&[u8], &[u8])
    ensures part { result.0.now ≡ (next_part text.now).0 }
    ensures rest { result.1.now ≡ (next_part text.now).1 }
{
    text.split_at(part_length(text))
}

/// Returns the length of the first part of `text` in bytes, with its line `end`. If there is no
/// such line, that is the length of `text`.
fn part_length(text: &[u8]) -> usize
    ensures length { result ≡ part_length text.now }
    ensures within { result ≤ length text.now }
{
    for at in 0..text.len() {
        if ends_here(&text[at..]) {
            return at + END_MARK.len();
        }
    }
    text.len()
}

/// Returns whether `text` begins with a line feed and then the line `end`.
fn ends_here(text: &[u8]) -> bool
    ensures { result ≡ ends_here text.now }
{
    if text.len() < END_MARK.len() {
        return false;
    }
    let (front, _rest) = text.split_at(END_MARK.len());
    front == END_MARK
}

/// Checks `text` as the part about branch `number`, and returns its answer.
///
/// # Errors
///
/// Returns `RunFault::NoPart` if the text is no part about that branch, `RunFault::InPart` if the
/// part is not accepted, and any other fault unchanged. Both carry the branch.
pub(crate) fn check_next_part<T: Threads + Sync>(
    judge: &PartContext<T>,
    alloc: Global,
    cover: &Cover,
    checker: &ReportChecker,
    number: u32,
    text: &[u8],
) -> Result<Body, RunFault>
    requires protocol { IsProtocol judge.now.task.now
        judge.now.protocol.now.rounds judge.now.protocol.now }
    requires cover { IsCoverOf judge.now.task.now judge.now.protocol.now.rounds cover.now }
    requires checker { IsCheckerOf judge.now.task.now checker.now }
    requires there { number < length (boxes_left_out cover.now) }
    ensures { TakesPart number judge.now.task.now judge.now.protocol.now.rounds
        text.now (body_seen result) }
{
    match body_in(judge, alloc, cover, checker, number, text) {
        Ok(body) => Ok(body),
        Err(fault) => Err(fault_in_part(number, fault)),
    }
}

/// Checks `text` as the part about branch `number`, and returns its answer. The errors don't say
/// yet that the part is one of several.
fn body_in<T: Threads + Sync>(
    judge: &PartContext<T>,
    alloc: Global,
    cover: &Cover,
    checker: &ReportChecker,
    number: u32,
    text: &[u8],
) -> Result<Body, RunFault>
    requires protocol { IsProtocol judge.now.task.now
        judge.now.protocol.now.rounds judge.now.protocol.now }
    requires cover { IsCoverOf judge.now.task.now judge.now.protocol.now.rounds cover.now }
    requires checker { IsCheckerOf judge.now.task.now checker.now }
    requires there { number < length (boxes_left_out cover.now) }
    ensures { IsBodyIn number judge.now.task.now judge.now.protocol.now.rounds
        text.now (body_seen result) }
{
    let branch = branch_in(alloc, cover, number)?;
    let report = part_of(alloc, &branch, text)?;
    check_part(judge, alloc, checker, branch, &report)?;
    Ok(report.body)
}

/// Turns the fault of a single part into that of part `branch` of several. Faults that aren't about
/// the text of a part stay unchanged.
fn fault_in_part(branch: u32, fault: RunFault) -> RunFault
    ensures { result ≡ in_part branch fault }
{
    let fault = match fault {
        RunFault::OtherPart => return RunFault::NoPart { branch },
        RunFault::TooLong => PartFault::Report(CertFault::TooLong),
        RunFault::Cert(fault) => PartFault::Report(fault),
        RunFault::NotInBranch => PartFault::NotInBranch,
        fault => return fault,
    };
    RunFault::InPart { branch, fault }
}
