//! Linear equations modulo 2, for the covers of a simplex.

use crate::edges::Triangle;
use crate::fault::{FinderFault, number};
use std::alloc::{AllocError, Global};
use std::mem::swap;
use wf_tree_elimination::{MAX_ENTRIES, MAX_STEPS};

/// The range of an equation's unknowns in the list of all entries.
#[derive(Clone, Copy)]
struct Sum {
    first: usize,
    end: usize,
}

/// Homogeneous linear equations modulo 2 in echelon form: at most one for each unknown, which is
/// the largest unknown of its equation.
#[derive(Drop)]
pub(crate) struct Sums {
    // the unknowns of all equations, each equation in ascending order
    entries: Vec<u32>,
    // for each unknown, the equation in which it is the largest, if there is one
    of: Vec<Option<Sum>>,
    // the equation being reduced, in ascending order, and a buffer for its next form
    current: Vec<u32>,
    next: Vec<u32>,
    steps: u64,
}

impl Sums {
    /// Creates a system without unknowns.
    pub(crate) fn new(alloc: Global) -> Sums {
        Sums {
            entries: Vec::new(alloc),
            of: Vec::new(alloc),
            current: Vec::new(alloc),
            next: Vec::new(alloc),
            steps: 0,
        }
    }

    /// Creates the system of the equations of `triangles`. Its unknowns are the indices in `edges`,
    /// which are in ascending order; edges that are not in the list count as 0.
    pub(crate) fn of(
        alloc: Global,
        edges: &[u32],
        triangles: &[Triangle],
    ) -> Result<Sums, FinderFault> {
        let mut sums = Sums::new(alloc);
        for _ in edges {
            sums.of.push(None)?;
        }
        for triangle in triangles {
            sums.add(edges, *triangle)?;
        }
        Ok(sums)
    }

    /// Adds the equation of `triangle`: the sum of its three edges is 0.
    fn add(&mut self, edges: &[u32], triangle: Triangle) -> Result<(), FinderFault> {
        self.current.clear();
        for edge in [triangle.first, triangle.second, triangle.third] {
            if let Ok(place) = edges.binary_search(&edge) {
                self.current.push(number(place)?)?;
            }
        }
        self.take_in()
    }

    /// Reduces the current equation by those with the same largest unknown, and stores what
    /// remains.
    fn take_in(&mut self) -> Result<(), FinderFault> {
        for _ in 0..self.of.len() {
            let Some(largest) = self.current.last().copied() else {
                return Ok(());
            };
            match self.sum_of(largest as usize) {
                Some(sum) => self.add_sum(sum)?,
                None => return self.keep(largest as usize),
            }
        }
        Ok(())
    }

    /// Returns the equation in which `unknown` is the largest, if there is one.
    fn sum_of(&self, unknown: usize) -> Option<Sum> {
        match self.of.get(unknown) {
            Some(sum) => *sum,
            None => None,
        }
    }

    /// Stores the current equation as that of `unknown`, its largest one.
    fn keep(&mut self, unknown: usize) -> Result<(), FinderFault> {
        let first = self.entries.len();
        self.entries.extend_from_slice(&self.current)?;
        let end = self.entries.len();
        let count = end as u64;
        if count > MAX_ENTRIES {
            return Err(FinderFault::TooManyEntries { count });
        }
        match self.of.get_mut(unknown) {
            Some(slot) => *slot = Some(Sum { first, end }),
            None => return Err(FinderFault::Internal),
        }
        Ok(())
    }

    /// Adds the equation `sum` to the current one. Unknowns that both have cancel.
    fn add_sum(&mut self, sum: Sum) -> Result<(), FinderFault> {
        let Some(entries) = self.entries.get(sum.first..sum.end) else {
            return Err(FinderFault::Internal);
        };
        let steps = self.current.len().saturating_add(entries.len()) as u64;
        self.steps = self.steps.saturating_add(steps);
        if self.steps > MAX_STEPS {
            return Err(FinderFault::TooManySteps { count: self.steps });
        }
        self.next.clear();
        let mut rest = entries;
        for unknown in &self.current {
            rest = push_below(&mut self.next, rest, *unknown)?;
            match rest.split_first() {
                Some((same, behind)) if same == unknown => rest = behind,
                _ => self.next.push(*unknown)?,
            }
        }
        self.next.extend_from_slice(rest)?;
        swap(&mut self.current, &mut self.next);
        Ok(())
    }

    /// Returns the number of free unknowns: those that are not the largest of an equation.
    pub(crate) fn count_free(&self) -> u32 {
        let mut count = 0u32;
        for sum in &self.of {
            if sum.is_none() {
                count = count.saturating_add(1);
            }
        }
        count
    }

    /// Returns a solution of all equations, in which the free unknowns have the bits of `number`,
    /// the first of them the lowest bit.
    pub(crate) fn solution(&self, alloc: Global, number: u32) -> Result<Vec<bool>, FinderFault> {
        let mut bits = number;
        let mut found = Vec::with_capacity(alloc, self.of.len())?;
        for sum in &self.of {
            let is_one = match sum {
                Some(sum) => self.is_odd(*sum, &found),
                None => {
                    let bit = bits % 2 == 1;
                    bits /= 2;
                    bit
                }
            };
            found.push(is_one)?;
        }
        Ok(found)
    }

    /// Returns whether an odd number of the unknowns of `sum` are true in `found`. Unknowns past
    /// its end count as false.
    fn is_odd(&self, sum: Sum, found: &[bool]) -> bool {
        let mut is_odd = false;
        for unknown in self.entries.get(sum.first..sum.end).unwrap_or(&[]) {
            if let Some(true) = found.get(*unknown as usize) {
                is_odd = !is_odd;
            }
        }
        is_odd
    }
}

/// Appends to `found` those of `numbers` that are below `limit`, and returns the others. `numbers`
/// are in ascending order.
fn push_below<'a>(
    found: &mut Vec<u32>,
    numbers: &'a [u32],
    limit: u32,
) -> Result<&'a [u32], AllocError> {
    let count = numbers.partition_point(|number| *number < limit);
    let (below, rest) = numbers.split_at(count);
    found.extend_from_slice(below)?;
    Ok(rest)
}
