//! Checks a part: a report whose answer is about one branch of a task's question.

ghost use Rattle.std.specs.Prelude.{◌≡◌, ◌++◌, ℕ, List, IfOk, IfSome, None};
ghost use Rattle.std.specs.Thread.{IsSync};
ghost use Rattle.wf_base.specs.Streams.Ends.{CanRead};
ghost use Rattle.wf_complex.specs.Protocol.{IsProtocol};
ghost use Rattle.wf_report.specs.Reports.{AreNumbered, body_length, body_of, report_seen};
ghost use Rattle.wf_report_check.specs.Within.{IsCheckerOf};
ghost use Rattle.wf_base.specs.Set.Sets.{box_of};
ghost use Rattle.wf_run.specs.Run.{answered};
ghost use Rattle.wf_run_verify.specs.Verify.{seen};
ghost use Rattle.wf_run_branches.specs.Branches.{IsBranch};
ghost use Rattle.wf_run_branches.specs.Refuting.{ReadsIn};
ghost use Rattle.wf_run_branches.specs.Verifying.{ChecksIn, ChecksPart, IsPartOf, JudgesPart, ReadsPart, is_outside, lies_in};

use crate::branch::{BranchCandidates, branch_of};
use std::alloc::Global;
use std::io::Read;
use std::thread::Threads;
use wf_base::set::{Mask, contains};
use wf_base::streams::{Source, read_all};
use wf_complex::Protocol;
use wf_report::{Body, Report, read_report};
use wf_report_check::{ReportChecker, TaskReport};
use wf_run::{Answered, ComplexAnswer, RunFault, TaskWithComplex};
use wf_run_verify::accepted_words;
use wf_task::{MAX_TEXT_BYTES, Task};

/// The check of a part, which is the answer about one branch of a task's question. The second
/// source gives the part. An accepted map is a decision map in the branch, and the least one there
/// if it comes with lines. If the part is accepted without a map, no decision map lies in the
/// branch.
///
/// If the branch doesn't exist, the run is refused with [`NoBranch`](RunFault::NoBranch) before the
/// part is read; the fault carries the number of branches. A part about another branch is refused
/// with [`OtherPart`](RunFault::OtherPart), and a decision map that lies in another branch with
/// [`NotInBranch`](RunFault::NotInBranch). Line numbers in other refusals count from the first line
/// of the report inside the part.
#[derive(Clone, Copy)]
pub struct VerifyPart<'a, T> {
    /// The runtime that starts the threads of the check.
    pub rt: &'a T,
    /// The 0-based index of the branch.
    pub number: u32,
}

impl<'a, T: Threads + Sync> ComplexAnswer for VerifyPart<'a, T> {
    ghost is_ready = { λ _. IsSync T.row };

    ghost reads = { λ part. ReadsIn ReadsPart part.number };

    fn read_about<C: Read>(
        &self,
        subject: &TaskWithComplex,
        source: &mut Source<C>,
    ) -> Answered<()> {
        let branch = branch_of(subject.alloc, subject.task, subject.protocol, self.number)?;
        let judge = PartContext {
            rt: self.rt,
            task: subject.task,
            protocol: subject.protocol,
        };
        verify_part(&judge, subject.alloc, branch, source)
    }
}

/// A checker of parts about the branches of one task's question.
#[derive(Drop)]
pub(crate) struct PartContext<'a, T> {
    pub(crate) rt: &'a T,
    pub(crate) task: &'a Task,
    pub(crate) protocol: &'a Protocol,
}

/// Reads a part about `branch` from `source`, checks it, and returns the line that says what was
/// accepted.
fn verify_part<T: Threads + Sync, C: Read>(
    judge: &PartContext<T>,
    alloc: Global,
    branch: BranchCandidates,
    source: &mut Source<C>,
) -> Answered<()>
    requires source { CanRead source.old }
    requires protocol { IsProtocol judge.now.task.now
        judge.now.protocol.now.rounds judge.now.protocol.now }
    requires branch { IsBranch judge.now.task.now
        judge.now.protocol.now.rounds branch.number branch }
    ensures { ReadsPart branch.number judge.now.task.now
        judge.now.protocol.now.rounds source.old source.new
        (answered result) }
{
    let text = read_all(alloc, source, MAX_TEXT_BYTES)?;
    check_part_text(judge, alloc, branch, &text)
}

/// Checks `text` as a part about `branch`, and returns the line that says what was accepted.
fn check_part_text<T: Threads + Sync>(
    judge: &PartContext<T>,
    alloc: Global,
    branch: BranchCandidates,
    text: &[u8],
) -> Answered<()>
    requires protocol { IsProtocol judge.now.task.now
        judge.now.protocol.now.rounds judge.now.protocol.now }
    requires branch { IsBranch judge.now.task.now
        judge.now.protocol.now.rounds branch.number branch }
    ensures { JudgesPart branch.number judge.now.task.now
        judge.now.protocol.now.rounds text.now (answered result) }
{
    let report = part_of(alloc, &branch, text)?;
    accept(judge, alloc, branch, &report)
}

/// Reads the report from `text`, a part about `branch`.
///
/// # Errors
///
/// Returns `RunFault::OtherPart` if the text doesn't begin with the lines of a part about `branch`,
/// or the fault of the report.
pub(crate) fn part_of(
    alloc: Global,
    branch: &BranchCandidates,
    text: &[u8],
) -> Result<Report, RunFault>
    ensures read { IsPartOf branch.now.number branch.now.count text.now (seen result) }
    ensures few { IfOk result (λ report. AreNumbered (body_length report.body)) }
{
    let index = branch.index();
    let head = index.head(alloc)?;
    match strip_prefix(head.as_bytes(), text) {
        Some(rest) => Ok(read_report(alloc, rest)?),
        None => Err(RunFault::OtherPart),
    }
}

/// Returns what follows `head` in `text`, or `None` if `text` doesn't begin with `head`.
fn strip_prefix<'a>(head: &[u8], text: &'a [u8]) -> Option<&'a [u8]>
    ensures there { IfSome result (λ rest. text.now ≡ head.now ++ rest.now) }
    ensures elsewhere { result ≡ None → (rest : List ℕ) → text.now ≡ head.now ++ rest → ⊥ }
{
    if head.len() > text.len() {
        return None;
    }
    let (front, rest) = text.split_at(head.len());
    if front == head { Some(rest) } else { None }
}

/// Checks `report` as an answer about `branch`, and returns the line that says what was accepted.
fn accept<T: Threads + Sync>(
    judge: &PartContext<T>,
    alloc: Global,
    branch: BranchCandidates,
    report: &Report,
) -> Answered<()>
    requires few { AreNumbered (body_length report.now.body) }
    requires protocol { IsProtocol judge.now.task.now
        judge.now.protocol.now.rounds judge.now.protocol.now }
    requires branch { IsBranch judge.now.task.now
        judge.now.protocol.now.rounds branch.number branch }
    ensures { ChecksPart branch.number judge.now.task.now judge.now.protocol.now.rounds
        (report_seen report.now) (answered result) }
{
    let index = branch.index();
    let checker = ReportChecker::of(alloc, judge.task)?;
    check_part(judge, alloc, &checker, branch, report)?;
    let rounds = judge.protocol.rounds();
    let text = index.accepted(alloc, accepted_words(&report.body), rounds)?;
    Ok(((), text.into_bytes()))
}

/// Checks `report` as an answer about `branch`: a map has to lie in the branch, and a refutation
/// has to refute it.
///
/// # Errors
///
/// Returns the fault that the checker finds, or `RunFault::NotInBranch` for a decision map that
/// lies in another branch.
pub(crate) fn check_part<T: Threads + Sync>(
    judge: &PartContext<T>,
    alloc: Global,
    checker: &ReportChecker,
    branch: BranchCandidates,
    report: &Report,
) -> Result<(), RunFault>
    requires few { AreNumbered (body_length report.now.body) }
    requires protocol { IsProtocol judge.now.task.now
        judge.now.protocol.now.rounds judge.now.protocol.now }
    requires checker { IsCheckerOf judge.now.task.now checker.now }
    requires branch { IsBranch judge.now.task.now
        judge.now.protocol.now.rounds branch.number branch }
    ensures { ChecksIn branch.number judge.now.task.now judge.now.protocol.now.rounds
        (report_seen report.now) result }
{
    let is_elsewhere = is_map_outside(&report.body, &branch.sets);
    let about = TaskReport {
        task: judge.task,
        protocol: judge.protocol,
        report,
    };
    checker.check_within(judge.rt, alloc, &about, branch.sets)?;
    if is_elsewhere {
        return Err(RunFault::NotInBranch);
    }
    Ok(())
}

/// Returns whether `body` is a map without lines that doesn't lie in the box `sets`.
fn is_map_outside(body: &Body, sets: &[Mask]) -> bool
    ensures { result ≡ is_outside (body_of body.now) (box_of sets.now) }
{
    match body {
        Body::Map(values) => !lies_in(values, sets),
        Body::Nothing(_) | Body::Least(_, _) => false,
    }
}

/// Returns whether each of `values` is in the set of its point. If there are more or fewer values
/// than points, the answer is `false`.
fn lies_in(values: &[u8], sets: &[Mask]) -> bool
    ensures { result ≡ lies_in values.now (box_of sets.now) }
{
    if values.len() != sets.len() {
        return false;
    }
    for (point, value) in values.iter().enumerate() {
        if !contains(sets[point], *value) {
            return false;
        }
    }
    true
}
