//! Checking the lines of a refutation, or of a search for a least map, one by one.

ghost use Rattle.std.specs.Prelude.{ℕ, suc, ◌≡◌, ◌+◌, ◌<◌, ◌∷◌, [], List, IfSome, OnOk, true, length, map};
ghost use Rattle.wf_model.specs.Task.{inputs};
ghost use Rattle.wf_model.specs.Problem.{Problem};
ghost use Rattle.wf_model.specs.Box.{Box};
ghost use Rattle.wf_model.specs.Check.{verdict};
ghost use Rattle.wf_model.specs.Refutation.{branch, empty, remove};
ghost use Rattle.wf_base.specs.Lines.Lines.{line_of};
ghost use Rattle.wf_base.specs.Set.Sets.{box_of};
ghost use Rattle.wf_report_check.specs.Blocks.{HasSamePoints, box_now, boxes_later, boxes_left};
ghost use Rattle.wf_report_check.specs.Claims.{Ends, Judged, is_branch_of, verdict_on};
ghost use Rattle.wf_report_check.specs.Left.{Takes, boxes, claimed, fault_of, lines_fault};
ghost use Rattle.wf_report_check.specs.Rules.{AreMatched, IsInside, problem_in, verdict_at};
ghost use Rattle.wf_report_check.specs.Faults.{Judges, Steps};

use crate::boxes::Blocks;
use crate::checking::ReportChecker;
use crate::support::is_supported;
use crate::tuples::TupleSupport;
use std::alloc::Global;
use std::marker::Model;
use wf_base::lines::Line;
use wf_base::set::{Mask, is_empty};
use wf_complex::Protocol;
use wf_report::CertFault;
use wf_task::Task;

/// The claim that lines have to show.
#[derive(Clone, Copy, Debug)]
pub enum ReportClaim<'a> {
    /// The claim that there is no decision map.
    Nothing,
    /// The claim that the map with these values, one for each point, is the least.
    Least(&'a [u8]),
}

/// The context in which lines are judged.
#[derive(Clone, Copy)]
pub struct LineContext<'a, 'b> {
    /// The task.
    pub task: &'a Task,
    /// The protocol complex of the task.
    pub protocol: &'a Protocol,
    /// The checker of reports about the task.
    pub checker: &'b ReportChecker,
    /// The claim that the lines have to show.
    pub claim: ReportClaim<'a>,
}

/// The place of a process in an execution.
#[derive(Clone, Copy)]
struct LinePlace<'a, 'b> {
    // the tuples that the execution allows
    support: &'b TupleSupport,
    // the points of the execution
    points: &'a [u32],
    // the place of the process among the participants
    place: u8,
}

/// The state of a check between two lines.
#[derive(Clone, Copy, Debug)]
enum CheckProgress {
    /// Some block is open.
    Going,
    /// All blocks are closed: the box is refuted.
    Refuted,
    /// The search ended at the claimed map.
    Found,
}

/// A checker of lines, which judges them one by one and keeps none.
///
/// Clauses see the number of the next line, the number of points, and which boxes are still to be
/// refuted.
#[derive(Drop)]
pub struct LineChecker {
    blocks: Blocks,
    progress: CheckProgress,
    // the number of the next line
    at: u32,
}

impl Model for LineChecker {
    ghost use Rattle.std.specs.Prelude.{length};
    ghost use Rattle.wf_report_check.specs.Left.{LinesLeft, left_of};

    ghost Value = { LinesLeft };

    ghost view = { λ c. record {
      line = c.at;
      points = length c.blocks.sets.items;
      left = left_of c.progress c.blocks;
    } };
}

impl LineChecker {
    /// Creates a checker for lines that refute, or search, the box `sets`. `first` is the number of
    /// the first line in its report.
    pub fn of(alloc: Global, sets: Vec<Mask>, first: u32) -> LineChecker
        ensures { result ≡ record {
          line = first;
          points = length sets.items;
          left = boxes (box_of sets.items ∷ []);
        } }
    {
        LineChecker {
            blocks: Blocks::of(alloc, sets),
            progress: CheckProgress::Going,
            at: first,
        }
    }

    /// Judges the next line of the report.
    ///
    /// `rules` must be the same for each line and belong to the task of the box.
    ///
    /// # Errors
    ///
    /// Returns the fault of `line`, with its number; then the whole report has this fault, whatever
    /// lines follow, and the checker is of no more use. Returns `OutOfMemory` if memory runs out.
    pub fn take(&mut self, rules: &LineContext, line: Line) -> Result<(), CertFault>
        requires rules { AreMatched rules.now }
        requires long { self.old.points ≡ length rules.now.protocol.now.points }
        requires few { self.old.line < u32.MAX }
        ensures judged { Takes (problem_in rules.now) (claimed rules.now.claim) (line_of line)
            self.old self.new result }
        ensures next { OnOk result (self.new.line ≡ suc self.old.line) }
        ensures points { self.new.points ≡ self.old.points }
    {
        let CheckProgress::Going = self.progress else {
            return Err(CertFault::Trailing(self.at));
        };
        self.progress = judge_line(rules, line, self.at, &mut self.blocks)?;
        self.at += 1;
        Ok(())
    }

    /// Judges the lines as complete.
    ///
    /// # Errors
    ///
    /// Returns `Unfinished` if the lines that were taken don't show `claim` yet.
    pub fn finish(&self, claim: ReportClaim) -> Result<(), CertFault>
        ensures { (p : Problem) → Judges result (fault_of p (claimed claim.entry) [] self.now) }
    {
        match (claim, self.progress) {
            (_, CheckProgress::Found) | (ReportClaim::Nothing, CheckProgress::Refuted) => Ok(()),
            _ => Err(CertFault::Unfinished),
        }
    }
}

/// Judges `lines` over the box `sets`, in order. `first` is the number of the first line in its
/// report.
///
/// # Errors
///
/// Fails with the first fault.
pub(crate) fn judge_lines(
    alloc: Global,
    rules: &LineContext,
    sets: Vec<Mask>,
    first: u32,
    lines: &[Line],
) -> Result<(), CertFault>
    requires rules { AreMatched rules.now }
    requires long { length sets.items ≡ length rules.now.protocol.now.points }
    requires few { first + length lines.now < u32.MAX }
    ensures { let box = box_of sets.items in Judges result
        (lines_fault (problem_in rules.now) rules.now.claim first
        (map line_of lines.now) (box ∷ [])) }
{
    let mut checker = LineChecker::of(alloc, sets, first);
    for line in lines {
        checker.take(rules, *line)?;
    }
    checker.finish(rules.claim)
}

/// Judges `line` in the current box, and makes its change to `blocks`. `at` is its number, which a
/// fault carries.
fn judge_line(
    rules: &LineContext,
    line: Line,
    at: u32,
    blocks: &mut Blocks,
) -> Result<CheckProgress, CertFault>
    requires rules { AreMatched rules.now }
    requires long { length blocks.old.sets.items ≡ length rules.now.protocol.now.points }
    ensures step { Judged result (problem_in rules.now) rules.now.claim
        at (line_of line) blocks.old blocks.new }
    ensures points { HasSamePoints blocks.old blocks.new }
{
    match line {
        Line::Remove {
            execution,
            process,
            value,
        } => {
            let there = participant_of(rules, execution, process);
            judge_removal(there, value, at, blocks)?;
            Ok(CheckProgress::Going)
        }
        Line::Empty { point } => {
            let going = judge_empty(rules.protocol, point, at, blocks)?;
            if going {
                return Ok(CheckProgress::Going);
            }
            Ok(CheckProgress::Refuted)
        }
        Line::Branch { point } => {
            judge_branch(rules.protocol, rules.claim, point, at, blocks)?;
            Ok(CheckProgress::Going)
        }
        Line::Found => {
            judge_end(rules.claim, at, blocks)?;
            Ok(CheckProgress::Found)
        }
    }
}

/// Closes the current block if `point` has no candidate there. Returns whether a block remains.
fn judge_empty(
    protocol: &Protocol,
    point: u32,
    at: u32,
    blocks: &mut Blocks,
) -> Result<bool, CertFault>
    requires long { length blocks.old.sets.items ≡ length protocol.now.points }
    ensures step { (p : Problem) → p.points ≡ length protocol.now.points →
        Steps result (verdict p at (empty point) (box_now blocks.old) (boxes_later blocks.old))
        (λ going. boxes_left going blocks.new) }
    ensures points { HasSamePoints blocks.old blocks.new }
{
    if point >= protocol.points() {
        return Err(CertFault::NoSuch(at));
    }
    if !is_empty(blocks.sets()[point as usize]) {
        return Err(CertFault::NotEmpty(at));
    }
    Ok(blocks.next()?)
}

/// Branches at `point`, if it has two candidates or more, and is the first such point if `claim`
/// asks for it.
fn judge_branch(
    protocol: &Protocol,
    claim: ReportClaim,
    point: u32,
    at: u32,
    blocks: &mut Blocks,
) -> Result<(), CertFault>
    requires long { length blocks.old.sets.items ≡ length protocol.now.points }
    ensures step { (p : Problem) → p.points ≡ length protocol.now.points →
        let box = box_now blocks.old in let boxes = boxes_later blocks.old in
        Steps result (verdict_on p claim.entry at (branch point) box boxes)
        (λ _. boxes_left true blocks.new) }
    ensures points { HasSamePoints blocks.old blocks.new }
{
    if point >= protocol.points() {
        return Err(CertFault::NoSuch(at));
    }
    let is_wanted = is_branch_of(claim, point, blocks);
    if !blocks.open(point)? {
        return Err(CertFault::NotOpen(at));
    }
    if !is_wanted {
        return Err(CertFault::NotFirst(at));
    }
    Ok(())
}

/// Returns whether `claim` lets the lines branch at `point`: for a least map, only at the first
/// point with two candidates or more.
fn is_branch_of(claim: ReportClaim, point: u32, blocks: &mut Blocks) -> bool
    ensures asked { result ≡ is_branch_of claim.entry point (box_now blocks.old) }
    ensures sets { blocks.new.sets ≡ blocks.old.sets }
    ensures later { boxes_later blocks.new ≡ boxes_later blocks.old }
{
    match claim {
        ReportClaim::Nothing => true,
        ReportClaim::Least(_) => match blocks.first_open() {
            Some(first) => point as usize == first,
            None => false,
        },
    }
}

/// Checks that the line `f` is right: a map is claimed, and its values are the only candidates of
/// the current box.
fn judge_end(claim: ReportClaim, at: u32, blocks: &Blocks) -> Result<(), CertFault>
    ensures { (p : Problem) →
        Ends result p claim.entry at (box_now blocks.now) (boxes_later blocks.now) }
{
    match claim {
        ReportClaim::Nothing => Err(CertFault::NotTheMap(at)),
        ReportClaim::Least(values) => {
            if !blocks.is_exactly(values) {
                return Err(CertFault::NotTheMap(at));
            }
            Ok(())
        }
    }
}

/// Returns the place of `process` in `execution`. Returns `None` if there is no such execution, or
/// the process takes no part.
fn participant_of<'a, 'b>(
    rules: &LineContext<'a, 'b>,
    execution: u32,
    process: u8,
) -> Option<LinePlace<'a, 'b>>
    requires { AreMatched rules.now }
    ensures verdict { (k value : ℕ) (box : Box) (boxes : List Box) →
        verdict (problem_in rules.now) k (remove execution process value) box boxes
        ≡ verdict_at result k value box boxes }
    ensures inside { IfSome result (IsInside (length rules.now.protocol.now.points)) }
{
    if execution >= rules.protocol.executions() {
        return None;
    }
    let number = rules.protocol.simplex_of(execution);
    let points = rules.protocol.points_of(execution);
    let simplex = &rules.task.inputs().simplices()[number as usize];
    let Some(place) = simplex.place(process) else {
        return None;
    };
    let support = &rules.checker.supports()[number as usize];
    Some(LinePlace {
        support,
        points,
        place,
    })
}

/// Removes `value` at the point of the place `there`, if no tuple supports it.
///
/// # Errors
///
/// Fails with `NoSuch(at)` without a place, and with `Unsound(at)` if the value is supported.
fn judge_removal(
    there: Option<LinePlace>,
    value: u8,
    at: u32,
    blocks: &mut Blocks,
) -> Result<(), CertFault>
    requires { IfSome there (IsInside (length blocks.old.sets.items)) }
    ensures step { let box = box_now blocks.old in let boxes = boxes_later blocks.old in
        Steps result (verdict_at there.entry at value box boxes)
        (λ _. boxes_left true blocks.new) }
    ensures points { HasSamePoints blocks.old blocks.new }
{
    let Some(seat) = there else {
        return Err(CertFault::NoSuch(at));
    };
    let points = seat.points;
    let place = seat.place as usize;
    if is_supported(seat.support, points, blocks.sets(), place, value) {
        return Err(CertFault::Unsound(at));
    }
    blocks.take_out(points[place], value)?;
    Ok(())
}
