//! The lines of a refutation that trimming keeps.

ghost use Rattle.std.specs.Prelude.{IfOk};
ghost use Rattle.wf_report_trim.specs.Among.{AreAmong};

use std::alloc::{AllocError, Global};
use wf_base::lines::{Line, Lines};

/// The set of kept lines, and ranges of lines that are left out whatever was kept in them.
#[derive(Drop)]
pub(crate) struct Kept {
    is_kept: Vec<bool>,
    // for each line, the end of the range to leave out that begins there; 0 if none does
    next: Vec<usize>,
}

impl Kept {
    /// Creates the empty set of lines, for indices below `lines`.
    pub(crate) fn none(alloc: Global, lines: usize) -> Result<Kept, AllocError> {
        Ok(Kept {
            is_kept: vec![in alloc; false; lines]?,
            next: vec![in alloc; 0; lines]?,
        })
    }

    /// Adds the line with index `line`. An index out of range is ignored.
    pub(crate) fn keep(&mut self, line: usize) {
        if line < self.is_kept.len() {
            self.is_kept[line] = true;
        }
    }

    /// Leaves out the lines `from..to`, even those that are kept. An index `from` out of range is
    /// ignored.
    pub(crate) fn leave_out(&mut self, from: usize, to: usize) {
        if from < self.next.len() {
            self.next[from] = to;
        }
    }

    /// Returns those of `lines` that are kept and in no range to leave out, in their order.
    pub(crate) fn of(&self, alloc: Global, lines: &[Line]) -> Result<Lines, AllocError>
        ensures { IfOk result (λ kept. AreAmong kept.items lines.now) }
    {
        let mut kept = Vec::new(alloc);
        let mut next = 0;
        for (number, line) in lines.iter().enumerate() {
            next = next.max(self.next_of(number));
            if number >= next && self.has(number) {
                kept.push(*line)?;
            }
        }
        Ok(kept)
    }

    /// Returns whether the line with index `line` was kept.
    fn has(&self, line: usize) -> bool {
        match self.is_kept.get(line) {
            Some(is_kept) => *is_kept,
            None => false,
        }
    }

    /// Returns the end of the range to leave out that begins at `line`, or 0 if none does.
    fn next_of(&self, line: usize) -> usize {
        match self.next.get(line) {
            Some(next) => *next,
            None => 0,
        }
    }
}
