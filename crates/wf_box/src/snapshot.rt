//! Snapshots: compact copies of boxes that are searched later.

ghost use Rattle.std.specs.Prelude.{◌≡◌, IfOk};
ghost use Rattle.wf_model.specs.Box.{first_open};

use crate::boxed::Box0;
use crate::kept::KeptSets;
use crate::tracked::Tracked;
use crate::workspace::Workspace;
use std::alloc::{AllocError, Global};
use std::marker::Model;
use wf_network::{Marks, SupportCache};

/// The candidates that a box had when [`Box0::keep`] was called. They don't change, and need less
/// memory than the box. [`Snapshot::to_box`] makes a box of them again.
///
/// A clause sees it as a box with an empty trail.
#[derive(Drop)]
pub struct Snapshot {
    // the candidates of each point
    pub(crate) sets: KeptSets,
    // whether nothing had changed since the box was last closed
    pub(crate) is_closed: bool,
}

impl Model for Snapshot {
    ghost use Rattle.wf_box.specs.Boxes.{IsKeptSnapshot, Tracked, snapshot_seen};

    ghost Value = { Tracked };

    ghost view = { snapshot_seen };

    ghost invariant = { IsKeptSnapshot };
}

impl Snapshot {
    /// Creates a box with the candidates of the snapshot, an empty trail and an empty kernel cache.
    ///
    /// # Errors
    ///
    /// Returns `AllocError` if memory runs out.
    pub fn to_box(&self, alloc: Global) -> Result<Box0, AllocError>
        ensures { IfOk result (λ boxed. boxed ≡ self.now) }
    {
        let sets = self.sets.to_sets(alloc)?;
        Ok(Box0 {
            workspace: Workspace {
                tracked: Tracked::new(alloc, sets)?,
                marks: Marks::new(alloc),
                memo: SupportCache::new(alloc),
            },
            closed: if self.is_closed { Some(0) } else { None },
        })
    }

    /// Returns the first point that has two candidates or more, or `None` if each point has at most
    /// one.
    pub fn first_open(&self) -> Option<u32>
        ensures { result ≡ first_open self.now.sets }
    {
        match self.sets.first_open() {
            Some(point) => Some(point as u32),
            None => None,
        }
    }
}
