//! The watch lists: for each literal the clauses that watch it.
//!
//! No proof relies on what the lists hold: each entry is compared with the clause before it is
//! used, and each clause is looked at before a lemma is refused.

use std::alloc::{AllocError, Global};
use std::mem;
use wf_sat_text::drat::Code;

/// An entry of a watch list: `place` is the index of the clause's first word in the clause
/// database, and `blocker` is another literal of the clause. While the blocker is true the clause
/// need not be looked at.
#[derive(Clone, Copy, Drop)]
pub(crate) struct Watcher {
    pub(crate) place: u32,
    pub(crate) blocker: Code,
}

/// The watch lists of all literals, by the literals' codes.
#[derive(Drop)]
pub(crate) struct Watches {
    lists: Vec<Vec<Watcher>>,
}

impl Watches {
    /// Creates an empty list for each of the codes below `codes`.
    pub(crate) fn new(alloc: Global, codes: usize) -> Result<Watches, AllocError> {
        let mut lists = Vec::with_capacity(alloc, codes)?;
        for _ in 0..codes {
            lists.push(Vec::new(alloc))?;
        }
        Ok(Watches { lists })
    }

    /// Empties all lists.
    pub(crate) fn clear(&mut self) {
        for at in 0..self.lists.len() {
            self.lists[at].clear();
        }
    }

    /// Adds empty lists until each literal of `clause` has one.
    pub(crate) fn make_room(&mut self, alloc: Global, clause: &[Code]) -> Result<(), AllocError> {
        let mut codes = self.lists.len();
        for literal in clause {
            codes = codes.max(*literal as usize + 1);
        }
        for _ in self.lists.len()..codes {
            self.lists.push(Vec::new(alloc))?;
        }
        Ok(())
    }

    /// Appends `watch` to the list of `literal`. Does nothing if `literal` has no list.
    #[inline]
    pub(crate) fn push(&mut self, literal: Code, watch: Watcher) -> Result<(), AllocError> {
        let at = literal as usize;
        if at < self.lists.len() {
            self.lists[at].push(watch)?;
        }
        Ok(())
    }

    /// Returns the list of `literal`, and leaves an empty one in its place.
    #[inline]
    pub(crate) fn take(&mut self, alloc: Global, literal: Code) -> Vec<Watcher> {
        let at = literal as usize;
        if at < self.lists.len() {
            mem::replace(&mut self.lists[at], Vec::new(alloc))
        } else {
            Vec::new(alloc)
        }
    }

    /// Replaces the list of `literal` by `list`. Does nothing if `literal` has no list.
    #[inline]
    pub(crate) fn give(&mut self, literal: Code, list: Vec<Watcher>) {
        let at = literal as usize;
        if at < self.lists.len() {
            self.lists[at] = list;
        }
    }
}
