//! Checking whether a report about a task is true.

ghost use Rattle.std.specs.Prelude.{◌≡◌, IfOk, OnOk, length, replicate};
ghost use Rattle.wf_model.specs.Problem.{problem_of};
ghost use Rattle.wf_model.specs.Report as reports;
ghost use Rattle.wf_model.specs.Check.{body_fault, header_fault, map_fault, report_fault};
ghost use Rattle.wf_complex.specs.Protocol.{IsProtocol};
ghost use Rattle.wf_base.specs.Set.Sets.{box_of};
ghost use Rattle.wf_report_check.specs.Faults.{Judges};
ghost use Rattle.wf_report_check.specs.Truth.{HoldsOf};
ghost use Rattle.wf_report_check.specs.Within.{IsCheckerOf, fault_within, report_fault_within};
ghost use Rattle.wf_report.specs.Reports.{AreNumbered, body_length, body_of, report_seen, with_header};

use crate::judge::{LineContext, ReportClaim, judge_lines};
use crate::maps::first_violated;
use crate::support::support_all;
use crate::tuples::TupleSupport;
use std::alloc::{AllocError, Global};
use std::marker::Model;
use std::thread::Threads;
use wf_base::set::Mask;
use wf_complex::Protocol;
use wf_report::{Body, CertFault, FIRST_LINE, Header, Report};
use wf_task::Task;

/// The body of a report, with the task and the protocol complex that it is about.
#[derive(Clone, Copy)]
struct ReportedAnswer<'a> {
    task: &'a Task,
    protocol: &'a Protocol,
    body: &'a Body,
}

/// Checks `report` about `task` and its `protocol` complex.
///
/// The header is judged first. A map is accepted if it is a decision map. Lines are accepted if
/// they refute the root, the box with all values at all points; then there is no decision map. A
/// map with lines is accepted if it is a decision map, and the lines are those of a search from the
/// root that refutes all smaller candidates and ends at the map; then no decision map is smaller.
///
/// `protocol` must be the complex of `task`. A map is checked in several threads, lines are checked
/// in order.
///
/// # Errors
///
/// Returns the first fault of the report, or `OutOfMemory` if memory runs out.
pub fn check<R: Threads + Sync>(
    rt: &R,
    alloc: Global,
    task: &Task,
    protocol: &Protocol,
    report: &Report,
) -> Result<(), CertFault>
    requires built { IsProtocol task.now protocol.now.rounds protocol.now }
    requires few { AreNumbered (body_length report.now.body) }
    ensures fault { let r = protocol.now.rounds in
        Judges result (report_fault task.now r (report_seen report.now)) }
    ensures truth { OnOk result (HoldsOf task.now protocol.now.rounds (body_of report.now.body)) }
{
    judge_front(task, protocol, report)?;
    judge_body(rt, alloc, task, protocol, &report.body)
}

/// A report, with the task and the protocol complex that it is about.
#[derive(Clone, Copy)]
pub struct TaskReport<'a> {
    /// The task.
    pub task: &'a Task,
    /// The protocol complex of the task, for the report's number of rounds.
    pub protocol: &'a Protocol,
    /// The report.
    pub report: &'a Report,
}

/// A checker for any number of reports about one task, each about one box only.
///
/// It holds the tuples of each rule in a form that finds support fast. Clauses see these tuples.
#[derive(Drop)]
pub struct ReportChecker {
    supports: Vec<TupleSupport>,
}

impl Model for ReportChecker {
    ghost use Rattle.std.specs.Prelude.{List};
    ghost use Rattle.wf_model.specs.Task.{Tuple};

    ghost Value = { List (List Tuple) };

    ghost view = { λ checker. checker.supports.items };
}

impl ReportChecker {
    /// Creates the checker of reports about `task`.
    ///
    /// # Errors
    ///
    /// Returns `AllocError` if memory runs out.
    pub fn of(alloc: Global, task: &Task) -> Result<ReportChecker, AllocError>
        ensures { IfOk result (IsCheckerOf task.now) }
    {
        let supports = support_all(alloc, task)?;
        Ok(ReportChecker { supports })
    }

    /// Returns the tuples of each rule of the task, by the index of the input simplex.
    pub(crate) fn supports(&self) -> &[TupleSupport]
        ensures { result.now ≡ self.now }
    {
        &self.supports
    }

    /// Checks a report about one box only, `sets`, which has a set of candidates for each point.
    ///
    /// The header is judged first, and the rest as [`check`] does, except that lines begin with the
    /// box and not with the root. So accepted lines show that the box has no decision map, and an
    /// accepted map with lines is the least one in the box. A map without lines may lie outside.
    ///
    /// `about` must be about the task of this checker.
    ///
    /// # Errors
    ///
    /// Returns the first fault of the report, or `OutOfMemory` if memory runs out.
    pub fn check_within<R: Threads + Sync>(
        &self,
        rt: &R,
        alloc: Global,
        about: &TaskReport,
        sets: Vec<Mask>,
    ) -> Result<(), CertFault>
        requires checker { IsCheckerOf about.now.task.now self.now }
        requires built { let b = about.now.protocol.now in
            IsProtocol about.now.task.now b.rounds b }
        requires long { length sets.items ≡ length about.now.protocol.now.points }
        requires few { AreNumbered (body_length about.now.report.now.body) }
        ensures { let a = about.now in
            Judges result (report_fault_within a.task.now a.protocol.now.rounds
            (box_of sets.items) (report_seen a.report.now)) }
    {
        let TaskReport {
            task,
            protocol,
            report,
        } = *about;
        judge_front(task, protocol, report)?;
        let answer = ReportedAnswer {
            task,
            protocol,
            body: &report.body,
        };
        self.judge(rt, alloc, &answer, sets)
    }

    /// Judges the answer: the map, the lines over the box `sets`, or first the map and then the
    /// lines.
    fn judge<R: Threads + Sync>(
        &self,
        rt: &R,
        alloc: Global,
        answer: &ReportedAnswer,
        sets: Vec<Mask>,
    ) -> Result<(), CertFault>
        requires checker { IsCheckerOf answer.now.task.now self.now }
        requires built { let b = answer.now.protocol.now in
            IsProtocol answer.now.task.now b.rounds b }
        requires long { length sets.items ≡ length answer.now.protocol.now.points }
        requires few { AreNumbered (body_length answer.now.body.now) }
        ensures { let p = problem_of answer.now.task.now answer.now.protocol.now.rounds in
            Judges result (fault_within p (box_of sets.items) (body_of answer.now.body.now)) }
    {
        let task = answer.task;
        let protocol = answer.protocol;
        let rules = LineContext {
            task,
            protocol,
            checker: self,
            claim: ReportClaim::Nothing,
        };
        match answer.body {
            Body::Map(values) => judge_map(rt, task, protocol, values),
            Body::Nothing(lines) => judge_lines(alloc, &rules, sets, FIRST_LINE, lines),
            Body::Least(values, lines) => {
                judge_map(rt, task, protocol, values)?;
                let claim = ReportClaim::Least(values);
                let first = FIRST_LINE + values.len() as u32;
                judge_lines(alloc, &LineContext { claim, ..rules }, sets, first, lines)
            }
        }
    }
}

/// Checks that `header` has the counts of `task` and its `protocol` complex.
///
/// # Errors
///
/// Returns `Header` with the line number, 2 to 5, of the first count that differs.
pub fn judge_header(task: &Task, protocol: &Protocol, header: Header) -> Result<(), CertFault>
    requires built { IsProtocol task.now protocol.now.rounds protocol.now }
    ensures { let r = protocol.now.rounds in (body : reports.Body) →
        Judges result (header_fault task.now r (problem_of task.now r) (with_header header body)) }
{
    if header.processes != u32::from(task.processes()) {
        return Err(CertFault::Header(2));
    }
    if header.rounds != protocol.rounds() {
        return Err(CertFault::Header(3));
    }
    if header.points != protocol.points() {
        return Err(CertFault::Header(4));
    }
    if header.executions != protocol.executions() {
        return Err(CertFault::Header(5));
    }
    Ok(())
}

/// Checks that the header of `report` has the counts of `task` and its `protocol` complex.
fn judge_front(task: &Task, protocol: &Protocol, report: &Report) -> Result<(), CertFault>
    requires built { IsProtocol task.now protocol.now.rounds protocol.now }
    ensures { let r = protocol.now.rounds in
        Judges result (header_fault task.now r (problem_of task.now r) (report_seen report.now)) }
{
    judge_header(task, protocol, report.header)
}

/// Judges the answer `body`: the map, the lines over the root, or first the map and then the lines.
fn judge_body<R: Threads + Sync>(
    rt: &R,
    alloc: Global,
    task: &Task,
    protocol: &Protocol,
    body: &Body,
) -> Result<(), CertFault>
    requires built { IsProtocol task.now protocol.now.rounds protocol.now }
    requires few { AreNumbered (body_length body.now) }
    ensures { let p = problem_of task.now protocol.now.rounds in
        Judges result (body_fault p (body_of body.now)) }
{
    match body {
        Body::Map(values) => judge_map(rt, task, protocol, values),
        Body::Nothing(_) | Body::Least(_, _) => {
            let sets = uniform_box(alloc, task.values(), protocol.points())?;
            let answer = ReportedAnswer {
                task,
                protocol,
                body,
            };
            judge_within(rt, alloc, &answer, sets)
        }
    }
}

/// Returns a box in which each of `points` points has the candidates `values`.
///
/// # Errors
///
/// Returns `AllocError` if memory runs out.
pub fn uniform_box(alloc: Global, values: Mask, points: u32) -> Result<Vec<Mask>, AllocError>
    ensures { IfOk result (λ sets. sets.items ≡ replicate points values) }
{
    let sets = vec![in alloc; values; points as usize]?;
    Ok(sets)
}

/// Judges the answer: the map, the lines over the box `sets`, or first the map and then the lines.
/// Judging a map without lines takes no memory.
fn judge_within<R: Threads + Sync>(
    rt: &R,
    alloc: Global,
    answer: &ReportedAnswer,
    sets: Vec<Mask>,
) -> Result<(), CertFault>
    requires built { let b = answer.now.protocol.now in
        IsProtocol answer.now.task.now b.rounds b }
    requires long { length sets.items ≡ length answer.now.protocol.now.points }
    requires few { AreNumbered (body_length answer.now.body.now) }
    ensures { let p = problem_of answer.now.task.now answer.now.protocol.now.rounds in
        Judges result (fault_within p (box_of sets.items) (body_of answer.now.body.now)) }
{
    match answer.body {
        Body::Map(values) => judge_map(rt, answer.task, answer.protocol, values),
        Body::Nothing(_) | Body::Least(_, _) => {
            let checker = ReportChecker::of(alloc, answer.task)?;
            checker.judge(rt, alloc, answer, sets)
        }
    }
}

/// Checks that `values`, one for each point, are a decision map of `task`. The executions are
/// checked in several threads.
///
/// # Errors
///
/// Returns `MapLength` if there are not as many values as points, and otherwise `Violates` with the
/// index of the first execution whose values are not allowed.
pub fn judge_map<R: Threads + Sync>(
    rt: &R,
    task: &Task,
    protocol: &Protocol,
    values: &[u8],
) -> Result<(), CertFault>
    requires built { IsProtocol task.now protocol.now.rounds protocol.now }
    ensures { Judges result (map_fault (problem_of task.now protocol.now.rounds) values.now) }
{
    if values.len() != protocol.points() as usize {
        return Err(CertFault::MapLength);
    }
    match first_violated(rt, task, protocol, values) {
        Some(execution) => Err(CertFault::Violates(execution as u32)),
        None => Ok(()),
    }
}
