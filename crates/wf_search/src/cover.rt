//! The split of a problem's root into branches.

ghost use Rattle.std.specs.Prelude.{◌≡◌, ◌<◌, ◌≤◌, length, IfOk, OnOk};
ghost use Rattle.wf_box.specs.Boxes.{ServeFor};
ghost use Rattle.wf_model.specs.Outline.{boxes_left_out, outline};
ghost use Rattle.wf_model.specs.Split.{most_branches, split};
ghost use Rattle.wf_search.specs.Cover.{AreClosedBranches, CoversRoot, IsCanonicalInRoot, IsClosedIn, IsFilled, IsFilledUpTo, IsForIn, LeadsToMapInRoot, RefutesRoot, branch_at};

use crate::outline::Outline;
use std::alloc::{AllocError, Global};
use std::marker::Model;
use wf_base::lines::Lines;
use wf_box::{Box0, BoxCache, Problem};

/// Largest number of levels of the split: the boxes are branched at most this often.
const MAX_LEVELS: u32 = 8;

/// The branches of a problem's root, numbered from 0, and the lines that were written while the
/// root was cut into them.
///
/// Each branch is a closed box with at least one candidate at every point. Each decision map in the
/// root lies in exactly one branch, and the maps in earlier branches are below those in later ones,
/// so the first branch that has a map has the least map of all. If no branch has a map,
/// [`Cover::fill`] makes one refutation of the root from the refutations of the branches. If one
/// has, [`Cover::fill_least`] makes the lines that lead to the least map.
///
/// A clause sees it as the lines written so far, with each branch in the place of the lines that
/// would refute it.
#[derive(Drop)]
pub struct Cover {
    outline: Outline,
}

impl Model for Cover {
    ghost use Rattle.std.specs.Prelude.{◌≤◌, List, length};
    ghost use Rattle.wf_model.specs.Outline.{Item, boxes_left_out};
    ghost use Rattle.wf_model.specs.Split.{most_branches};

    ghost Value = { List Item };

    ghost view = { λ cover. cover.outline };

    ghost invariant = { λ cover. length (boxes_left_out cover.outline) ≤ most_branches };
}

impl Cover {
    /// Returns the number of branches, at most 16,128: 63 boxes with 256 branches each.
    pub fn branches(&self) -> u32
        ensures branches { result ≡ length (boxes_left_out self.now) }
        ensures few { result ≤ most_branches }
    {
        self.outline.len() as u32
    }

    /// Copies the branch `number` to a box.
    ///
    /// # Errors
    ///
    /// Returns `AllocError` if memory runs out.
    pub fn branch(&self, alloc: Global, number: u32) -> Result<Box0, AllocError>
        requires { number < length (boxes_left_out self.now) }
        ensures branch { IfOk result (λ boxed. boxed.sets ≡ branch_at self.now number) }
        ensures closed { IfOk result (λ boxed. IsClosedIn self.now boxed.sets) }
        ensures is { IfOk result (IsForIn self.now) }
    {
        self.outline.copy_box(alloc, number as usize)
    }

    /// Returns the lines of the root with those of `lists` in the places of the branches. `lists`
    /// has one list for each branch, in order.
    ///
    /// If each list refutes its branch, the result refutes the root. If each list has the lines
    /// that [`search`] finds for its branch, none of which has a map, the result is what a search
    /// of the root finds. Each list is freed as soon as its lines are copied.
    ///
    /// # Errors
    ///
    /// Returns `AllocError` if memory runs out; `lists` are then lost.
    ///
    /// [`search`]: crate::search
    pub fn fill(&self, alloc: Global, lists: Vec<Lines>) -> Result<Lines, AllocError>
        requires { length lists.items ≡ length (boxes_left_out self.now) }
        ensures filled { IfOk result (IsFilled self.now lists.items) }
        ensures refutes { IfOk result (RefutesRoot self.now lists.items) }
        ensures canonical { IfOk result (IsCanonicalInRoot self.now lists.items) }
    {
        self.outline.fill(alloc, lists)
    }

    /// Returns the lines of the root up to the last of `lists`, with those of `lists` in the places
    /// of the first branches. `lists` has at least one list, and one for each of the first
    /// branches, in order.
    ///
    /// If each list has the lines that [`search`] finds for its branch, and only the last branch
    /// has a map, the result is what a search of the root finds, and leads to that map. Each list
    /// is freed as soon as its lines are copied.
    ///
    /// # Errors
    ///
    /// Returns `AllocError` if memory runs out; `lists` are then lost.
    ///
    /// [`search`]: crate::search
    pub fn fill_least(&self, alloc: Global, lists: Vec<Lines>) -> Result<Lines, AllocError>
        requires some { 0 < length lists.items }
        requires few { length lists.items ≤ length (boxes_left_out self.now) }
        ensures filled { IfOk result (IsFilledUpTo self.now lists.items) }
        ensures leads { IfOk result (LeadsToMapInRoot self.now lists.items) }
    {
        self.outline.fill_up_to(alloc, lists)
    }
}

/// Splits the root of `problem` into branches. It closes the root, and then replaces each box that
/// has an open point by its closed branches at the first such point. It does so level by level
/// until there are at least 64 boxes, no box has an open point, or 8 levels were done. Boxes that
/// closing empties are left out.
///
/// # Errors
///
/// Returns `AllocError` if memory runs out.
pub fn split(alloc: Global, problem: &Problem) -> Result<Cover, AllocError>
    ensures outline { IfOk result (λ cover. cover ≡ outline problem.now) }
    ensures branches { IfOk result (λ cover. boxes_left_out cover ≡ split problem.now) }
    ensures covers { IfOk result (CoversRoot problem.now) }
    ensures closed { IfOk result (AreClosedBranches problem.now) }
{
    let mut answers = BoxCache::new(alloc);
    split_with(alloc, problem, &mut answers)
}

/// Splits the root of `problem` into branches, as [`split`] does, with the results that the kernel
/// cache `answers` holds, and adds new results to it.
///
/// # Errors
///
/// Returns `AllocError` if memory runs out; the cached results may then be lost.
pub fn split_with(
    alloc: Global,
    problem: &Problem,
    answers: &mut BoxCache,
) -> Result<Cover, AllocError>
    requires { ServeFor problem.now answers.old }
    ensures outline { IfOk result (λ cover. cover ≡ outline problem.now) }
    ensures branches { IfOk result (λ cover. boxes_left_out cover ≡ split problem.now) }
    ensures covers { IfOk result (CoversRoot problem.now) }
    ensures closed { IfOk result (AreClosedBranches problem.now) }
    ensures answers { OnOk result (ServeFor problem.now answers.new) }
{
    // only for the proof: this call makes the invariant of every problem known
    let _points = problem.points();
    let mut outline = Outline::of_root(alloc, problem, answers)?;
    let mut levels: u32 = MAX_LEVELS;
    'levels: while levels > 0 && outline.needs_cutting() {
        outline = outline.branch_each(alloc, problem, answers)?;
        levels -= 1;
    }
    Ok(Cover { outline })
}
