//! Closing a box: enforcing generalised arc consistency.

ghost use Rattle.std.specs.Prelude.{◌≡◌, ◌<◌, ◌≤◌, ◌*◌, None, length, IfOk, IfSome, OnOk, OnErr, IfNone};
ghost use Rattle.wf_model.specs.Box.{count, first_empty};
ghost use Rattle.wf_model.specs.Closing.{closing, sweep, sweep_from};
ghost use Rattle.std.specs.Bool.{OnTrue};
ghost use Rattle.wf_model.specs.Limits.{most_points};
ghost use Rattle.wf_box.specs.Boxes.{Grows, IsClosedNow, IsFor};
ghost use Rattle.wf_box.specs.Changes.{KeepsTrack, sets_in};
ghost use Rattle.wf_box.specs.Quiet.{EmptiesNoneSince, IsUntouchedSince, MarksTell, StoodClosed};
ghost use Rattle.wf_base.specs.Set.Sets.{box_of};
ghost use Rattle.wf_network.specs.Problems.{IsNetwork, constraints_in, executions_in};
ghost use Rattle.wf_box.specs.Steps.{ClosesTo, NamesAll, NamesLost, Reaches, SweepsTo, box_in};
ghost use Rattle.wf_box.specs.Closes.{AddsClosing, AreFew, IsEmptied, Leaves, LosesNamed, Takes, emptied_by, sweeps_to_close};
ghost use Rattle.wf_box.specs.Working.{AreMarked, IsWorkingFor, IsWorkingOn, ProceedsFor, ProceedsOn};

use crate::boxed::Box0;
use crate::revision::revise;
use crate::taking::put;
use crate::tracked::Tracked;
use crate::workspace::Workspace;
use std::alloc::{AllocError, Global};
use wf_base::lines::{Line, Lines};
use wf_base::set::{Mask, is_empty};
use wf_lane::first_empty;
use wf_network::{Marks, Network, Problem};

/// The outcome of closing a box.
#[derive(Clone, Copy, Debug, PartialEq, Eq)]
pub enum Closed {
    /// This point lost its last candidate, or had none: the box has no solution.
    Empty(u32),
    /// Each candidate is supported in each execution at each place where its point stands.
    Open {
        /// Number of sweeps, with the last one, which removed nothing.
        sweeps: u32,
    },
}

/// Closes `boxed`, that is, enforces generalised arc consistency: sweeps over the executions of
/// `problem` remove the candidates that are not supported, until a sweep removes nothing or a point
/// has no candidate left.
///
/// For each candidate that it removes it appends a line to `lines`, and for a point without
/// candidates a last one. A sweep visits the executions in ascending order, and judges each by the
/// candidates as the execution before it left them. If some point has no candidate at the start,
/// the line of the first such point is the only one. Also if a point becomes empty, the box loses
/// exactly the values that the new lines name.
///
/// # Errors
///
/// Returns `AllocError` if memory runs out; `boxed` and `lines` are then unchanged.
pub fn close(
    alloc: Global,
    problem: &Problem,
    boxed: &mut Box0,
    lines: &mut Lines,
) -> Result<Closed, AllocError>
    requires { IsFor problem.now boxed.old }
    ensures lines { OnOk result (AddsClosing problem.now boxed.old.sets lines.old lines.new) }
    ensures leaves { IfOk result (Leaves (closing problem.now boxed.old.sets).left boxed.new.sets) }
    ensures emptied { IfOk result (IsEmptied lines.new.items boxed.new.sets) }
    ensures named { OnOk result (LosesNamed problem.now boxed.old.sets boxed.new.sets) }
    ensures is { OnOk result (IsFor problem.now boxed.new) }
    ensures grown { OnOk result (Grows boxed.old boxed.new) }
    ensures closed { IfOk result (IsClosedNow boxed.new) }
    ensures sweeps { IfOk result (AreFew (count boxed.old.sets) (count boxed.new.sets)) }
    ensures sweep_count { IfOk result (Takes (sweeps_to_close problem.now boxed.old.sets)) }
    ensures refused_lines { OnErr result (lines.new.items ≡ lines.old.items) }
    ensures refused_box { OnErr result (boxed.new ≡ boxed.old) }
{
    lines.reserve(boxed.workspace.tracked.room() + 1)?;
    let network = problem.network();
    let executions = network.execution_count() as u32;
    boxed.workspace.marks.reserve(alloc, executions)?;
    // nothing below can fail: the cache stays as it is if memory runs out
    boxed.workspace.memo.grow(alloc);
    let closed = close_tracked(problem, boxed.closed, &mut boxed.workspace, lines);
    boxed.closed = match closed {
        Closed::Open { .. } => Some(boxed.workspace.tracked.trail.len() as u32),
        Closed::Empty(_) => None,
    };
    Ok(closed)
}

/// Closes the box in `workspace`. `lines` has room for all lines to come, and `closed` is the
/// number of changes after which the box was last closed, if that is known.
fn close_tracked(
    problem: &Problem,
    closed: Option<u32>,
    workspace: &mut Workspace,
    lines: &mut Lines,
) -> Closed
    requires working { IsWorkingFor problem.now lines.old workspace.old }
    requires closed { IfSome closed (StoodClosed problem.now workspace.old.tracked) }
    ensures step { ClosesTo problem.now lines.old workspace.old lines.new workspace.new result }
    ensures proceeds { ProceedsFor problem.now
        lines.old workspace.old lines.new workspace.new (emptied_by result) }
    ensures named { LosesNamed problem.now (box_in workspace.old) (box_in workspace.new) }
    ensures sweeps { AreFew (count (box_in workspace.old)) (count (box_in workspace.new)) result }
    ensures sweep_count { Takes (sweeps_to_close problem.now (box_in workspace.old)) result }
{
    let prepared = mark_and_find_empty(problem, closed, &workspace.tracked, &mut workspace.marks);
    if let Some(point) = prepared {
        put(lines, Line::Empty { point });
        return Closed::Empty(point);
    }
    sweeps(problem, workspace, lines)
}

/// Marks the executions in which a candidate may have lost its support, and returns the first point
/// without a candidate. `closed` is the number of changes after which the box was last closed, if
/// that is known.
fn mark_and_find_empty(
    problem: &Problem,
    closed: Option<u32>,
    tracked: &Tracked,
    marks: &mut Marks,
) -> Option<u32>
    requires kept { KeepsTrack tracked.now }
    requires long { length tracked.now.words.items ≡ problem.now.points }
    requires marks_long { length problem.now.constraints ≤ 64 * length marks.old.words.items }
    requires closed { IfSome closed (StoodClosed problem.now tracked.now) }
    ensures empty { result ≡ first_empty (sets_in tracked.now) }
    ensures quiet { MarksTell problem.now.constraints marks.new tracked.now }
    ensures long { length marks.new.words.items ≡ length marks.old.words.items }
{
    if mark_problem(problem, closed, tracked, marks) {
        return None;
    }
    empty_point(&tracked.words)
}

/// Marks the executions in which a candidate may have lost its support. Returns `true` only if each
/// point has a candidate; `false` means that this is not known.
fn mark_problem(
    problem: &Problem,
    closed: Option<u32>,
    tracked: &Tracked,
    marks: &mut Marks,
) -> bool
    requires kept { KeepsTrack tracked.now }
    requires long { length tracked.now.words.items ≡ problem.now.points }
    requires marks_long { length problem.now.constraints ≤ 64 * length marks.old.words.items }
    requires closed { IfSome closed (StoodClosed problem.now tracked.now) }
    ensures quiet { MarksTell problem.now.constraints marks.new tracked.now }
    ensures full { OnTrue result (first_empty (sets_in tracked.now) ≡ None) }
    ensures long { length marks.new.words.items ≡ length marks.old.words.items }
{
    match closed {
        None => {
            marks.mark_all();
            false
        }
        Some(changes) => mark_changed(problem.network(), changes as usize, tracked, marks),
    }
}

/// Marks the executions of each point that is on the trail from the entry `changes` on. Returns
/// whether each of these points has a candidate.
fn mark_changed(network: &Network, changes: usize, tracked: &Tracked, marks: &mut Marks) -> bool
    requires network { IsNetwork network.now }
    requires kept { KeepsTrack tracked.now }
    requires long { length tracked.now.words.items ≡ network.now.points }
    requires marks_long { length (executions_in network.now) ≤ 64 * length marks.old.words.items }
    requires changes { changes ≤ length tracked.now.trail.items }
    ensures untouched { IsUntouchedSince changes network.now.users tracked.now marks.new }
    ensures full { OnTrue result (EmptiesNoneSince changes tracked.now) }
    ensures long { length marks.new.words.items ≡ length marks.old.words.items }
{
    let mut full = true;
    for number in changes..tracked.trail.len() {
        let point = tracked.trail[number].point;
        marks.mark_each(network.executions_of(point));
        if is_empty(tracked.words[point as usize]) {
            full = false;
        }
    }
    full
}

/// Returns the first point without a candidate.
fn empty_point(sets: &[Mask]) -> Option<u32>
    requires { length sets.now ≤ most_points }
    ensures { result ≡ first_empty (box_of sets.now) }
{
    match first_empty(sets) {
        Some(point) => Some(point as u32),
        None => None,
    }
}

/// Sweeps over the executions until a sweep removes nothing or a point becomes empty.
fn sweeps(problem: &Problem, workspace: &mut Workspace, lines: &mut Lines) -> Closed
    requires working { IsWorkingFor problem.now lines.old workspace.old }
    requires marked { AreMarked problem.now.constraints workspace.old }
    ensures step { SweepsTo problem.now lines.old workspace.old lines.new workspace.new result }
    ensures proceeds { ProceedsFor problem.now
        lines.old workspace.old lines.new workspace.new (emptied_by result) }
    ensures named { NamesLost problem.now lines.old workspace.old lines.new workspace.new }
    ensures sweeps { AreFew (count (box_in workspace.old)) (count (box_in workspace.new)) result }
    ensures sweep_count { Takes (sweeps_to_close problem.now (box_in workspace.old)) result }
{
    let mut sweeps = 1;
    'sweeping: loop {
        let before = lines.len();
        if let Some(point) = sweep(problem, workspace, lines) {
            return Closed::Empty(point);
        }
        if lines.len() == before {
            return Closed::Open { sweeps };
        }
        sweeps += 1;
    }
}

/// Makes one sweep: removes from each execution in turn the candidates that it doesn't support. It
/// skips unmarked executions, in which nothing can be lost. Returns the point that becomes empty,
/// which ends the sweep.
fn sweep(problem: &Problem, workspace: &mut Workspace, lines: &mut Lines) -> Option<u32>
    requires working { IsWorkingFor problem.now lines.old workspace.old }
    requires marked { AreMarked problem.now.constraints workspace.old }
    ensures step { Reaches (sweep problem.now)
        lines.old workspace.old lines.new workspace.new result }
    ensures proceeds { ProceedsFor problem.now
        lines.old workspace.old lines.new workspace.new result }
    ensures marked { IfNone result (AreMarked problem.now.constraints workspace.new) }
    ensures named { NamesLost problem.now lines.old workspace.old lines.new workspace.new }
{
    sweep_marked(problem.network(), workspace, lines)
}

/// Removes from each marked execution in turn, in ascending order, the candidates that it doesn't
/// support. Returns the point that becomes empty, which ends the sweep.
fn sweep_marked(network: &Network, workspace: &mut Workspace, lines: &mut Lines) -> Option<u32>
    requires network { IsNetwork network.now }
    requires working { IsWorkingOn network.now lines.old workspace.old }
    requires marked { AreMarked (constraints_in network.now) workspace.old }
    ensures step { Reaches (sweep_from 0 (constraints_in network.now))
        lines.old workspace.old lines.new workspace.new result }
    ensures proceeds { ProceedsOn network.now
        lines.old workspace.old lines.new workspace.new result }
    ensures marked { IfNone result (AreMarked (constraints_in network.now) workspace.new) }
    ensures named { NamesAll network.now lines.old workspace.old lines.new workspace.new }
{
    let mut next = 0;
    'marked: while let Some(number) = workspace.marks.take_next(next) {
        if number as usize >= network.execution_count() {
            return None;
        }
        if let Some(point) = revise(number, network, workspace, lines) {
            return Some(point);
        }
        next = number + 1;
    }
    None
}
