//! The input of the search for a balance.

use crate::classes::Classes;
use crate::fault::FinderFault;
use std::alloc::Global;
use wf_task::{Row, Task};

/// A task in the form that the search for balances needs: the classes of its input simplices, and
/// the tuples that each class allows.
#[derive(Drop)]
pub struct TuplesByClass {
    pub(crate) classes: Classes,
    // the least value of the tuples, or 0 if there are none
    pub(crate) least: u64,
}

impl TuplesByClass {
    /// Creates the problem of the task with the tuples `rows`, which has a list for each input
    /// simplex, in their order.
    ///
    /// # Errors
    ///
    /// Returns [`FinderFault::Internal`] if `rows` has too few lists, and
    /// [`FinderFault::OutOfMemory`] if memory runs out.
    pub fn of(alloc: Global, task: &Task, rows: &[Vec<Row>]) -> Result<TuplesByClass, FinderFault> {
        Ok(TuplesByClass {
            classes: Classes::of(alloc, task, rows)?,
            least: least(rows),
        })
    }
}

/// Returns the least value in `rows`, or 0 if there is none.
fn least(rows: &[Vec<Row>]) -> u64 {
    let values = rows.iter().filter_map(|tuples| least_of(tuples));
    u64::from(values.min().unwrap_or(0))
}

/// Returns the least value in `tuples`, or `None` if there is none.
fn least_of(tuples: &[Row]) -> Option<u8> {
    let values = tuples
        .iter()
        .filter_map(|tuple| tuple.as_slice().iter().copied().min());
    values.min()
}
