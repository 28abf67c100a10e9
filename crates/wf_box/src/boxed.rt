//! The box type: candidates for each point, with a trail for undoing.

ghost use Rattle.std.specs.Prelude.{◌≡◌, ◌≢◌, ◌<◌, ◌≤◌, [], true, None, Some, length, take, IfOk};
ghost use Rattle.std.specs.Bool.{OnFalse, OnTrue};
ghost use Rattle.wf_model.specs.Lists.{has};
ghost use Rattle.wf_model.specs.Box.{candidates, decided, first_empty, first_open, root};
ghost use Rattle.wf_model.specs.Problem.{IsWellFormed, Problem};
ghost use Rattle.wf_base.specs.Set.Sets.{box_of, values_in};
ghost use Rattle.wf_box.specs.Boxes.{Grows, IsFor, WasClosed, box_after, closed_if};
ghost use Rattle.wf_box.specs.Least.{least_values};
ghost use Rattle.wf_model.specs.Limits.{most_points};

use crate::kept::KeptSets;
use crate::snapshot::Snapshot;
use crate::tracked::Tracked;
use crate::workspace::Workspace;
use std::alloc::{AllocError, Global};
use std::marker::Model;
use wf_base::set::{Mask, first};
use wf_network::{Marks, Problem, SupportCache};

/// A box: a set of candidates for each point. It keeps a trail of its changes, so that an earlier
/// state can be restored; see [`Box0::mark`] and [`Box0::undo`].
///
/// A clause sees it as the list of the points' candidates, each set ascending; its changes since it
/// was made, the last one last; the number of changes after which it was last closed; and the
/// cached results of the kernel.
#[derive(Drop)]
pub struct Box0 {
    pub(crate) workspace: Workspace,
    // number of changes after which the box was last closed; `None` if that is not known
    pub(crate) closed: Option<u32>,
}

impl Model for Box0 {
    ghost use Rattle.wf_box.specs.Boxes.{IsKeptBox, Tracked, box_seen};

    ghost Value = { Tracked };

    ghost view = { box_seen };

    ghost invariant = { IsKeptBox };
}

/// A state of a box on its trail. [`Box0::undo`] restores it, unless the box was undone to an older
/// mark since.
#[derive(Clone, Copy, Debug)]
pub struct Mark {
    /// Number of changes on the trail.
    pub changes: u32,
    /// Whether nothing had changed since the box was last closed.
    pub is_closed: bool,
}

impl Box0 {
    /// Creates the root box of `problem`: each point has all values as candidates.
    ///
    /// # Errors
    ///
    /// Returns `AllocError` if memory runs out.
    pub fn root(alloc: Global, problem: &Problem) -> Result<Box0, AllocError>
        ensures root { IfOk result (λ boxed. boxed.sets ≡ root problem.now) }
        ensures fresh { IfOk result (λ boxed. boxed.trail ≡ []) }
        ensures is { IfOk result (IsFor problem.now) }
        ensures open { IfOk result (λ boxed. boxed.closed ≡ None) }
        ensures well_formed { IsWellFormed problem.now }
    {
        let words = vec![in alloc; problem.values(); problem.points() as usize]?;
        Ok(Box0 {
            workspace: Workspace {
                tracked: Tracked::new(alloc, words)?,
                marks: Marks::new(alloc),
                memo: SupportCache::new(alloc),
            },
            closed: None,
        })
    }

    /// Copies the candidates to a new box with an empty trail and an empty kernel cache. The copy
    /// counts as closed if this box does.
    ///
    /// # Errors
    ///
    /// Returns `AllocError` if memory runs out.
    pub fn copy(&self, alloc: Global) -> Result<Box0, AllocError>
        ensures sets { IfOk result (λ boxed. boxed.sets ≡ self.now.sets) }
        ensures fresh { IfOk result (λ boxed. boxed.trail ≡ []) }
        ensures is { IfOk result (λ boxed. (p : Problem) → IsFor p self.now → IsFor p boxed) }
        ensures closed { self.now.closed ≡ Some (length self.now.trail)
            → IfOk result (λ boxed. boxed.closed ≡ Some 0) }
        ensures open { self.now.closed ≢ Some (length self.now.trail)
            → IfOk result (λ boxed. boxed.closed ≡ None) }
    {
        let words = self.workspace.tracked.words.as_slice().to_vec(alloc)?;
        Ok(Box0 {
            workspace: Workspace {
                tracked: Tracked::new(alloc, words)?,
                marks: Marks::new(alloc),
                memo: SupportCache::new(alloc),
            },
            closed: if self.is_closed() { Some(0) } else { None },
        })
    }

    /// Copies the candidates to a [`Snapshot`], which needs less memory than a box.
    ///
    /// # Errors
    ///
    /// Returns `AllocError` if memory runs out.
    pub fn keep(&self, alloc: Global) -> Result<Snapshot, AllocError>
        ensures sets { IfOk result (λ kept. kept.sets ≡ self.now.sets) }
        ensures fresh { IfOk result (λ kept. kept.trail ≡ []) }
        ensures unknown { IfOk result (λ kept. kept.known ≡ []) }
        ensures is { IfOk result (λ kept. (p : Problem) → IsFor p self.now → IsFor p kept) }
        ensures closed { self.now.closed ≡ Some (length self.now.trail)
            → IfOk result (λ kept. kept.closed ≡ Some 0) }
        ensures open { self.now.closed ≢ Some (length self.now.trail)
            → IfOk result (λ kept. kept.closed ≡ None) }
    {
        let is_closed = self.is_closed();
        Ok(Snapshot {
            sets: KeptSets::of(alloc, &self.workspace.tracked.words)?,
            is_closed,
        })
    }

    /// Returns whether nothing changed since the box was last closed.
    fn is_closed(&self) -> bool
        ensures closed { OnTrue result (self.now.closed ≡ Some (length self.now.trail)) }
        ensures open { OnFalse result (self.now.closed ≢ Some (length self.now.trail)) }
    {
        match self.closed {
            Some(changes) => changes as usize == self.workspace.tracked.trail.len(),
            None => false,
        }
    }

    /// Returns a mark of the present state, for [`Box0::undo`].
    pub fn mark(&self) -> Mark
        ensures changes { result.changes ≡ length self.now.trail }
        ensures closed { OnTrue result.is_closed (self.now.closed ≡ Some (length self.now.trail)) }
        ensures open { OnFalse result.is_closed (self.now.closed ≢ Some (length self.now.trail)) }
    {
        Mark {
            changes: self.workspace.tracked.trail.len() as u32,
            is_closed: self.is_closed(),
        }
    }

    /// Undoes all changes since `mark` was made. The kernel cache stays. `mark` must be one of this
    /// box, and the box must not have been undone to an older mark since.
    pub fn undo(&mut self, mark: Mark)
        requires { mark.changes ≤ length self.old.trail }
        ensures sets { self.new.sets ≡ box_after mark.changes self.old }
        ensures trail { self.new.trail ≡ take mark.changes self.old.trail }
        ensures closed { self.new.closed ≡ closed_if mark.is_closed mark.changes }
        ensures is { (p : Problem) → IsFor p self.old
            → OnTrue mark.is_closed (WasClosed p self.old mark.changes) → IsFor p self.new }
    {
        self.workspace.tracked.undo(mark.changes as usize);
        self.closed = if mark.is_closed {
            Some(mark.changes)
        } else {
            None
        };
        self.workspace.marks.clear();
    }

    /// Reduces the candidates of `point` to `value`, which must be one of them.
    pub fn set(&mut self, point: u32, value: u8)
        requires { has (candidates self.old.sets point) value ≡ true }
        ensures decided { self.new.sets ≡ decided self.old.sets point value }
        ensures grown { Grows self.old self.new }
        ensures closed { self.new.closed ≡ self.old.closed }
        ensures is { (p : Problem) → IsFor p self.old → IsFor p self.new }
    {
        self.workspace.tracked.set(point, value);
    }

    /// Returns the candidates of `point`.
    pub fn candidates(&self, point: u32) -> Mask
        requires { point < length self.now.sets }
        ensures { values_in result ≡ candidates self.now.sets point }
    {
        self.workspace.tracked.words[point as usize]
    }

    /// Returns the number of points.
    pub fn points(&self) -> u32
        ensures points { result ≡ length self.now.sets }
        ensures few { result ≤ most_points }
    {
        self.workspace.tracked.words.len() as u32
    }

    /// Returns the first point that has two candidates or more, or `None` if each point has at most
    /// one.
    pub fn first_open(&self) -> Option<u32>
        ensures { result ≡ first_open self.now.sets }
    {
        self.workspace.tracked.first_open()
    }

    /// Returns the first point that has two candidates or more, or `None` if each point has at most
    /// one. It also remembers that point, and the next search for one starts there.
    pub fn advance_to_open(&mut self) -> Option<u32>
        ensures found { result ≡ first_open self.old.sets }
        ensures same { self.new ≡ self.old }
    {
        self.workspace.tracked.advance_to_open()
    }

    /// Returns the least candidate of each point. Each point must have one. In a closed box with
    /// one candidate at each point these values are a decision map.
    ///
    /// # Errors
    ///
    /// Returns `AllocError` if memory runs out.
    pub fn least_values(&self, alloc: Global) -> Result<Vec<u8>, AllocError>
        requires filled { first_empty self.now.sets ≡ None }
        ensures values { IfOk result (λ values. values.items ≡ least_values self.now.sets) }
    {
        least_each(alloc, &self.workspace.tracked.words)
    }
}

/// Returns the least value of each of `sets`, none of which may be empty.
fn least_each(alloc: Global, sets: &[Mask]) -> Result<Vec<u8>, AllocError>
    requires { first_empty (box_of sets.now) ≡ None }
    ensures { IfOk result (λ values. values.items ≡ least_values (box_of sets.now)) }
{
    let mut values = Vec::with_capacity(alloc, sets.len())?;
    for set in sets {
        values.push(first(*set))?;
    }
    Ok(values)
}
