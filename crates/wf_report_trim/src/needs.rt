//! The lines that are known to be needed, with a log that allows taking back what was learned.

ghost use Rattle.std.specs.Prelude.{◌≡◌, ◌<◌, ◌≤◌, length};

use std::alloc::{AllocError, Global};

/// An entry of the log of needs.
#[derive(Clone, Copy, Debug, Drop)]
enum Need {
    /// A line that became needed.
    Of {
        /// The line's index.
        line: usize,
        // one more than the log index of the line's need before this one, or 0 if there was none
        before: usize,
    },
    /// Dropped entries, from index `from` up to this one.
    Dropped {
        /// The log index of the first dropped entry.
        from: usize,
    },
}

/// The lines that are known to be needed, as a log of needs.
///
/// Line indices out of range are ignored.
#[derive(Drop)]
pub(crate) struct Needs {
    // the number of needs of each line that were not dropped
    counts: Vec<u32>,
    // one more than the log index of each line's last need, or 0 if there is none
    latest: Vec<usize>,
    needs: Vec<Need>,
}

impl Needs {
    /// Creates an empty log for lines with indices below `lines`.
    pub(crate) fn none(alloc: Global, lines: usize) -> Result<Needs, AllocError> {
        Ok(Needs {
            counts: vec![in alloc; 0; lines]?,
            latest: vec![in alloc; 0; lines]?,
            needs: Vec::new(alloc),
        })
    }

    /// Returns the length of the log, with the dropped entries.
    pub(crate) fn len(&self) -> usize {
        self.needs.len()
    }

    /// Returns the number of needs of `line` that were not dropped.
    pub(crate) fn count(&self, line: usize) -> u32 {
        match self.counts.get(line) {
            Some(count) => *count,
            None => 0,
        }
    }

    /// Returns whether the log has a need of `line` at index `from` or later.
    pub(crate) fn has_since(&self, line: usize, from: usize) -> bool {
        self.count(line) > 0 && self.latest_of(line) > from
    }

    /// Adds a need of `line` to the log, unless there is one at index `from` or later.
    pub(crate) fn add(&mut self, line: usize, from: usize) -> Result<(), AllocError> {
        if self.has_since(line, from) {
            return Ok(());
        }
        let before = self.latest_of(line);
        self.needs.push(Need::Of { line, before })?;
        let count = self.count(line).saturating_add(1);
        let latest = self.needs.len();
        self.set(line, count, latest);
        Ok(())
    }

    /// Drops the log entries `from..to`. Their places in the log stay, so indices remain valid.
    pub(crate) fn forget(&mut self, from: usize, to: usize) {
        let mut at = to.min(self.needs.len());
        if at <= from {
            return;
        }
        let last = at - 1;
        'needs: while at > from {
            at = self.forget_before(at);
        }
        self.needs[last] = Need::Dropped { from };
    }

    /// Drops the log entry before index `at` and returns its index. If that entry stands for a
    /// dropped range, returns the start of the range.
    fn forget_before(&mut self, at: usize) -> usize
        requires some { 0 < at }
        requires within { at ≤ length self.old.needs.items }
        ensures fewer { result < at }
        ensures same { length self.new.needs.items ≡ length self.old.needs.items }
    {
        match self.needs[at - 1] {
            Need::Of { line, before } => {
                self.needs[at - 1] = Need::Dropped { from: at - 1 };
                self.forget_one(line, before, at);
                at - 1
            }
            Need::Dropped { from } => from.min(at - 1),
        }
    }

    /// Updates the count and the last need of `line` for the need at log index `at - 1`, which was
    /// dropped. `before` refers to the need of the line before that one.
    fn forget_one(&mut self, line: usize, before: usize, at: usize)
        ensures { self.new.needs ≡ self.old.needs }
    {
        let latest = self.latest_of(line);
        let known = if latest != at {
            latest
        } else if self.is_of(before, line) {
            before
        } else {
            0
        };
        let count = self.count(line).saturating_sub(1);
        self.set(line, count, known);
    }

    /// Returns whether the log entry before index `at` is a need of `line`.
    fn is_of(&self, at: usize, line: usize) -> bool {
        if at == 0 || at > self.needs.len() {
            return false;
        }
        match self.needs[at - 1] {
            Need::Of { line: found, .. } => found == line,
            Need::Dropped { .. } => false,
        }
    }

    /// Returns one more than the log index of the last need of `line`, or 0 if there is none.
    fn latest_of(&self, line: usize) -> usize {
        match self.latest.get(line) {
            Some(number) => *number,
            None => 0,
        }
    }

    /// Sets the count and the last need of `line`.
    fn set(&mut self, line: usize, count: u32, latest: usize)
        ensures { self.new.needs ≡ self.old.needs }
    {
        if line < self.counts.len() && line < self.latest.len() {
            self.counts[line] = count;
            self.latest[line] = latest;
        }
    }
}
