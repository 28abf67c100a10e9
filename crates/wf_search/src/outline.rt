//! The lines that are written while the root is cut into branches.

ghost use Rattle.std.specs.Prelude.{◌≡◌, ◌<◌, ◌≤◌, ◌∷◌, ◌++◌, [], length, flat_map, IfOk, OnOk};
ghost use Rattle.std.specs.List.{AllByRecursion, list_any};
ghost use Rattle.wf_model.specs.Problem.{Problem};
ghost use Rattle.wf_model.specs.Box.{root};
ghost use Rattle.wf_model.specs.Closing.{closing};
ghost use Rattle.wf_model.specs.Outline.{boxes_left_out, closed_to, left_out, opened, written};
ghost use Rattle.wf_model.specs.Split.{is_open};
ghost use Rattle.wf_base.specs.Lines.Lines.{line_of};
ghost use Rattle.wf_box.specs.Boxes.{Grows, IsFor, ServeFor};
ghost use Rattle.wf_search.specs.Cover.{IsFilled, IsFilledUpTo, branch_at};
ghost use Rattle.wf_search.specs.Outline.{AreGapsFilled, IsClosedBox, IsForIfClosed, IsJustClosed, as_written, branches_closed, is_to_open};

use std::alloc::{AllocError, Global};
use std::marker::Model;
use std::mem;
use wf_base::lines::{Line, Lines};
use wf_base::set::split_first;
use wf_box::{Box0, BoxCache, Closed, Problem, Snapshot, close};

/// Number of boxes from which on the root is not cut any further.
const ENOUGH_BOXES: usize = 64;

/// A box in the place of the lines that refute it, and the lines before it.
#[derive(Drop)]
struct Gap {
    before: Lines,
    boxed: Snapshot,
}

/// Lines, with boxes in the places of the lines that refute them.
#[derive(Drop)]
pub(crate) struct Outline {
    gaps: Vec<Gap>,
    // the lines after the last box
    after: Lines,
}

impl Model for Outline {
    ghost use Rattle.std.specs.Prelude.{List};
    ghost use Rattle.wf_model.specs.Outline.{Item};

    ghost Value = { List Item };

    ghost use Rattle.wf_search.specs.Outline.{AreJustClosed, outline_seen};

    ghost view = { outline_seen };

    ghost invariant = { AreJustClosed };
}

impl Outline {
    /// Creates the outline of a problem's root that is closed but not yet cut: the lines of closing
    /// the root, and then the closed box, unless a point became empty.
    pub(crate) fn of_root(
        alloc: Global,
        problem: &Problem,
        answers: &mut BoxCache,
    ) -> Result<Outline, AllocError>
        requires { ServeFor problem.now answers.old }
        ensures root { IfOk result (λ outline.
            outline ≡ closed_to (closing problem.now (root problem.now))) }
        ensures boxes { IfOk result (λ outline.
            AllByRecursion (IsClosedBox problem.now) (boxes_left_out outline)) }
        ensures answers { OnOk result (ServeFor problem.now answers.new) }
    {
        let mut outline = Outline::new(alloc);
        let mut root = Box0::root(alloc, problem)?;
        root.swap_cache(answers);
        outline.close(alloc, problem, &mut root)?;
        root.swap_cache(answers);
        Ok(outline)
    }

    /// Creates an outline with no line and no box.
    fn new(alloc: Global) -> Outline
        ensures { result ≡ [] }
    {
        Outline {
            gaps: Vec::new(alloc),
            after: Vec::new(alloc),
        }
    }

    /// Returns the number of boxes.
    pub(crate) fn len(&self) -> usize
        ensures { result ≡ length (boxes_left_out self.now) }
    {
        self.gaps.len()
    }

    /// Copies the box with index `number`.
    pub(crate) fn copy_box(&self, alloc: Global, number: usize) -> Result<Box0, AllocError>
        requires { number < length (boxes_left_out self.now) }
        ensures branch { IfOk result (λ boxed. boxed.sets ≡ branch_at self.now number) }
        ensures is { IfOk result IsForIfClosed }
    {
        self.gaps[number].boxed.to_box(alloc)
    }

    /// Returns whether the boxes should be cut further: there are fewer than [`ENOUGH_BOXES`], and
    /// one of them has an open point.
    pub(crate) fn needs_cutting(&self) -> bool
        ensures { result ≡ is_to_open self.now }
    {
        self.gaps.len() < ENOUGH_BOXES && has_open(&self.gaps)
    }

    /// Returns the lines with those of `lists` in the places of the boxes. `lists` has one list for
    /// each box.
    pub(crate) fn fill(&self, alloc: Global, lists: Vec<Lines>) -> Result<Lines, AllocError>
        requires { length lists.items ≡ length (boxes_left_out self.now) }
        ensures { IfOk result (IsFilled self.now lists.items) }
    {
        let mut lines = fill_gaps(alloc, &self.gaps, lists)?;
        lines.extend_from_slice(&self.after)?;
        Ok(lines)
    }

    /// Returns the lines up to the last of `lists`, with those of `lists` in the places of the
    /// first boxes.
    pub(crate) fn fill_up_to(&self, alloc: Global, lists: Vec<Lines>) -> Result<Lines, AllocError>
        requires some { 0 < length lists.items }
        requires few { length lists.items ≤ length (boxes_left_out self.now) }
        ensures { IfOk result (IsFilledUpTo self.now lists.items) }
    {
        fill_gaps(alloc, &self.gaps, lists)
    }

    /// Appends a line.
    fn write(&mut self, line: Line) -> Result<(), AllocError>
        ensures { OnOk result (self.new ≡ self.old ++ written (line_of line) ∷ []) }
    {
        self.after.push(line)?;
        Ok(())
    }

    /// Appends `lines`.
    fn write_all(&mut self, lines: &[Line]) -> Result<(), AllocError>
        ensures { OnOk result (self.new ≡ self.old ++ as_written lines.now) }
    {
        self.after.extend_from_slice(lines)?;
        Ok(())
    }

    /// Appends the box `boxed` in the place of the lines that refute it. The box must just have
    /// been closed.
    fn leave_out(&mut self, alloc: Global, boxed: Snapshot) -> Result<(), AllocError>
        requires { IsJustClosed boxed }
        ensures { OnOk result (self.new ≡ self.old ++ left_out boxed.sets ∷ []) }
    {
        let mut before = mem::replace(&mut self.after, Vec::new(alloc));
        // closing reserved room for one line for each candidate
        before.shrink_to_fit();
        self.gaps.push(Gap { before, boxed })?;
        Ok(())
    }

    /// Closes `boxed` and appends the lines of that. Unless a point became empty, it then appends
    /// the closed box in the place of the lines that refute it.
    fn close(
        &mut self,
        alloc: Global,
        problem: &Problem,
        boxed: &mut Box0,
    ) -> Result<(), AllocError>
        requires { IsFor problem.now boxed.old }
        ensures items { OnOk result (self.new
            ≡ self.old ++ closed_to (closing problem.now boxed.old.sets)) }
        ensures is { OnOk result (IsFor problem.now boxed.new) }
        ensures grown { OnOk result (Grows boxed.old boxed.new) }
    {
        match close(alloc, problem, boxed, &mut self.after)? {
            Closed::Empty(_) => Ok(()),
            Closed::Open { .. } => self.leave_out(alloc, boxed.keep(alloc)?),
        }
    }

    /// Closes each branch of `boxed` at `point`, in ascending order of the candidates, and appends
    /// its lines, and its closed box unless a point became empty. Returns `boxed` with its
    /// candidates restored.
    fn close_branches(
        &mut self,
        alloc: Global,
        problem: &Problem,
        boxed: Box0,
        point: u32,
    ) -> Result<Box0, AllocError>
        requires boxed { IsFor problem.now boxed }
        requires point { point < length boxed.sets }
        ensures items { OnOk result (self.new
            ≡ self.old ++ branches_closed problem.now boxed.sets point) }
        ensures boxed { IfOk result (IsFor problem.now) }
    {
        let mut boxed = boxed;
        let mark = boxed.mark();
        let mut left = boxed.candidates(point);
        'values: while let Some(next) = split_first(left) {
            let (value, others) = next;
            left = others;
            boxed.set(point, value);
            self.close(alloc, problem, &mut boxed)?;
            boxed.undo(mark);
        }
        Ok(boxed)
    }

    /// Appends the branching of `boxed` at its first open point, and the closed branches with their
    /// lines. If no point is open, appends `boxed` itself. `boxed` must be closed.
    fn open(
        &mut self,
        alloc: Global,
        problem: &Problem,
        boxed: Snapshot,
        answers: &mut BoxCache,
    ) -> Result<(), AllocError>
        requires boxed { IsFor problem.now boxed }
        requires closed { IsJustClosed boxed }
        requires answers { ServeFor problem.now answers.old }
        ensures items { OnOk result (self.new
            ≡ self.old ++ opened problem.now (left_out boxed.sets)) }
        ensures answers { OnOk result (ServeFor problem.now answers.new) }
    {
        match boxed.first_open() {
            None => self.leave_out(alloc, boxed),
            Some(point) => {
                self.write(Line::Branch { point })?;
                let mut opened = boxed.to_box(alloc)?;
                opened.swap_cache(answers);
                let mut left = self.close_branches(alloc, problem, opened, point)?;
                left.swap_cache(answers);
                Ok(())
            }
        }
    }

    /// Replaces each box with an open point by its closed branches, and keeps the other boxes.
    pub(crate) fn branch_each(
        self,
        alloc: Global,
        problem: &Problem,
        answers: &mut BoxCache,
    ) -> Result<Outline, AllocError>
        requires boxes { AllByRecursion (IsClosedBox problem.now) (boxes_left_out self) }
        requires answers { ServeFor problem.now answers.old }
        ensures opened { IfOk result (λ outline. outline ≡ flat_map (opened problem.now) self) }
        ensures answers { OnOk result (ServeFor problem.now answers.new) }
    {
        let Outline { gaps, after } = self;
        let mut outline = Outline::new(alloc);
        for gap in gaps {
            outline.write_all(&gap.before)?;
            outline.open(alloc, problem, gap.boxed, answers)?;
        }
        outline.write_all(&after)?;
        Ok(outline)
    }
}

/// Returns whether one of the boxes has an open point.
fn has_open(gaps: &[Gap]) -> bool
    ensures { result ≡ list_any (λ gap. is_open gap.boxed.sets) gaps.now }
{
    gaps.iter().any(|gap| gap.boxed.first_open().is_some())
}

/// Returns the lines before each box followed by those of its list, for as many boxes as there are
/// lists. Each list is freed as soon as its lines are copied.
fn fill_gaps(alloc: Global, gaps: &[Gap], lists: Vec<Lines>) -> Result<Lines, AllocError>
    ensures { IfOk result (AreGapsFilled gaps.now lists.items) }
{
    let mut lines = Vec::new(alloc);
    for (gap, list) in gaps.iter().zip(lists) {
        lines.extend_from_slice(&gap.before)?;
        lines.extend_from_slice(&list)?;
    }
    Ok(lines)
}
