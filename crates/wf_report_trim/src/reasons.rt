//! Finding the reasons why a line may remove its value.

use crate::needs::Needs;
use crate::path::Path;
use wf_base::lines::Line;
use wf_complex::Protocol;
use wf_simplex::Simplex;
use wf_task::{Row, Task};

/// A value at a place of an execution, and the tuples that the execution allows.
#[derive(Clone, Copy)]
pub(crate) struct PlacedValue<'a> {
    /// The allowed tuples.
    pub(crate) rows: &'a [Row],
    /// The points of the execution.
    pub(crate) points: &'a [u32],
    /// The place of the value.
    pub(crate) place: usize,
    /// The value.
    pub(crate) value: u8,
}

/// The rule for which removals count as needed already, while a block is processed.
#[derive(Clone, Copy, Debug)]
pub(crate) struct Known {
    /// The length of the log of needs when the block began. A line with a need since then is
    /// needed.
    pub(crate) needs: usize,
    /// A point: the removals at all points below it are needed.
    pub(crate) bound: u32,
}

/// The places of a tuple at which its value was removed.
#[derive(Clone, Copy, Debug)]
pub(crate) struct RemovedPlaces {
    /// The number of such places.
    pub(crate) count: usize,
    /// The line of the earliest of the removals. `None` if there is no such place, or if one of the
    /// removals is needed already.
    pub(crate) line: Option<usize>,
}

/// Returns the value that `line` removes, with its place. Returns `None` if `line` removes nothing,
/// or names an execution or process that isn't there.
pub(crate) fn removed_value<'a>(
    task: &'a Task,
    protocol: &'a Protocol,
    line: Line,
) -> Option<PlacedValue<'a>> {
    let Line::Remove {
        execution,
        process,
        value,
    } = line
    else {
        return None;
    };
    if execution >= protocol.executions() {
        return None;
    }
    let number = protocol.simplex_of(execution);
    let simplices = task.inputs().simplices();
    if number as usize >= simplices.len() {
        return None;
    }
    let place = place_of(&simplices[number as usize], process)?;
    Some(PlacedValue {
        rows: task.tuples(number),
        points: protocol.points_of(execution),
        place,
        value,
    })
}

/// Returns the place of `process` in `simplex`, or `None` if it takes no part.
fn place_of(simplex: &Simplex, process: u8) -> Option<usize> {
    for place in 0..simplex.colours() {
        if simplex.colour(place) == process {
            return Some(place as usize);
        }
    }
    None
}

impl PlacedValue<'_> {
    /// Returns whether `row` has the value at the place.
    pub(crate) fn is_of(&self, row: &Row) -> bool {
        row.as_slice().get(self.place) == Some(&self.value)
    }

    /// Returns the other places of `row` at which its value was removed, by `path`. `needs` and
    /// `known` say which removals are needed already.
    pub(crate) fn options(
        &self,
        row: &Row,
        path: &Path,
        needs: &Needs,
        known: Known,
    ) -> RemovedPlaces {
        let values = row.as_slice();
        let mut count: usize = 0;
        let mut first = usize::MAX;
        let mut line = None;
        let mut is_needed = false;
        for (place, point) in self.points.iter().enumerate() {
            if place != self.place && place < values.len() {
                if let Some((step, by)) = path.find(*point, values[place]) {
                    count = count.saturating_add(1);
                    is_needed = is_needed
                        || *point < known.bound
                        || needs.has_since(by, known.needs);
                    if step < first {
                        first = step;
                        line = Some(by);
                    }
                }
            }
        }
        RemovedPlaces {
            count,
            line: if is_needed { None } else { line },
        }
    }
}
