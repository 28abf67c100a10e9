//! The removals on the way to a line: which values were removed at each point, and by which lines.

use std::alloc::{AllocError, Global};
use wf_base::set::{Mask, without};

/// The number of possible values of a point.
pub(crate) const VALUES: usize = 256;

/// The removal of a value at a point.
#[derive(Clone, Copy, Debug, Drop)]
pub(crate) struct Removal {
    /// The point's index.
    pub(crate) point: u32,
    /// The removed value.
    pub(crate) value: u8,
    /// The index of the line that removed the value, or of the branching that decided for another
    /// value.
    pub(crate) line: usize,
    // the 1-based number of the removal at this point before this one; 0 if there is none
    pub(crate) before: usize,
}

/// The values that are removed where a line stands, in the order of their removal. A stack.
#[derive(Drop)]
pub(crate) struct Path {
    steps: Vec<Removal>,
    // for each point, the 1-based number of its last removal; 0 if there is none
    latest: Vec<usize>,
}

impl Path {
    /// Creates the path of the root, which removes nothing at each of `points` points.
    pub(crate) fn start(alloc: Global, points: u32) -> Result<Path, AllocError> {
        Ok(Path {
            steps: Vec::new(alloc),
            latest: vec![in alloc; 0; points as usize]?,
        })
    }

    /// Returns the removals, oldest first.
    pub(crate) fn steps(&self) -> &[Removal] {
        &self.steps
    }

    /// Returns the number of removals.
    pub(crate) fn len(&self) -> usize {
        self.steps.len()
    }

    /// Returns the 1-based number of the last removal at `point`, or 0 if there is none.
    pub(crate) fn latest_at(&self, point: u32) -> usize {
        match self.latest.get(point as usize) {
            Some(number) => *number,
            None => 0,
        }
    }

    /// Returns the removal with the 1-based `number`, or `None` if there is none.
    pub(crate) fn step(&self, number: usize) -> Option<Removal> {
        if number == 0 || number > self.steps.len() {
            return None;
        }
        Some(self.steps[number - 1])
    }

    /// Returns the 1-based number and the line of the removal of `value` at `point`, or `None` if
    /// the value is not removed.
    pub(crate) fn find(&self, point: u32, value: u8) -> Option<(usize, usize)> {
        let mut number = self.latest_at(point);
        for _ in 0..VALUES {
            let Some(step) = self.step(number) else {
                return None;
            };
            if step.value == value {
                return Some((number, step.line));
            }
            number = step.before;
        }
        None
    }

    /// Returns those of `values` that are not removed at `point`.
    pub(crate) fn left(&self, values: Mask, point: u32) -> Mask {
        let mut left = values;
        let mut number = self.latest_at(point);
        for _ in 0..VALUES {
            let Some(step) = self.step(number) else {
                return left;
            };
            let fewer = without(left, step.value);
            left = fewer;
            number = step.before;
        }
        left
    }

    /// Records that `line` removes `value` at `point`, as the last removal.
    pub(crate) fn push(&mut self, point: u32, value: u8, line: usize) -> Result<(), AllocError> {
        let before = self.latest_at(point);
        self.steps.push(Removal {
            point,
            value,
            line,
            before,
        })?;
        let number = self.steps.len();
        self.note(point, number);
        Ok(())
    }

    /// Undoes the last removal and returns it.
    pub(crate) fn pop(&mut self) -> Option<Removal> {
        let step = self.steps.pop()?;
        self.note(step.point, step.before);
        Some(step)
    }

    /// Undoes all removals but the first `len`.
    pub(crate) fn back_to(&mut self, len: usize) {
        for _ in len..self.steps.len() {
            self.pop();
        }
    }

    /// Sets the last removal at `point` to the one with the 1-based `number`.
    fn note(&mut self, point: u32, number: usize) {
        if (point as usize) < self.latest.len() {
            self.latest[point as usize] = number;
        }
    }
}
