//! Searches for a leaf of an obstruction: an input simplex that allows no tuple, or a balance.

use crate::fault::FinderFault;
use crate::finder::find_balance;
use crate::integers::has_integer_solution;
use crate::listener::FinderProgress;
use crate::problem::TuplesByClass;
use crate::search::{Depth, StoppedAt, TreeSearch, out_of_memory, stopped_outside_system};
use wf_task::Row;
use wf_tree_steps::balance::Balance;

/// The result of a search for a leaf.
#[derive(Drop)]
pub(crate) enum Leaf {
    /// The simplex with this index allows nothing, so that its case has no subtree.
    Empty(usize),
    /// The task has this balance.
    Balanced(Balance),
    /// No leaf was found.
    Open {
        /// Whether an integer solution shows that no modulus has a balance.
        integers: bool,
    },
}

/// Looks for a leaf of the task that allows the tuples `rows`, one list for each input simplex:
/// first for a simplex that allows no tuple, unless `depth` leaves no level for its case, and then
/// for a balance.
pub(crate) fn find_leaf<L: FinderProgress>(
    search: &TreeSearch<'_, L>,
    rows: &[Vec<Row>],
    depth: Depth,
) -> Result<Leaf, StoppedAt> {
    match first_empty(rows) {
        Some(simplex) if depth.levels > 0 => Ok(Leaf::Empty(simplex)),
        _ => find_balance_in_moduli(search, rows),
    }
}

/// Returns the index of the first input simplex that allows no tuple.
fn first_empty(rows: &[Vec<Row>]) -> Option<usize> {
    rows.iter().position(|tuples| tuples.is_empty())
}

/// Looks for a balance modulo each of the search's moduli, in order. If there are several, checks
/// after the first one whether an integer solution excludes all of them.
fn find_balance_in_moduli<L: FinderProgress>(
    search: &TreeSearch<'_, L>,
    rows: &[Vec<Row>],
) -> Result<Leaf, StoppedAt> {
    let problem = match TuplesByClass::of(search.alloc, search.task, rows) {
        Ok(problem) => problem,
        Err(fault) => return Err(stopped_outside_system(fault)),
    };
    let moduli = search.moduli;
    for (place, modulus) in moduli.iter().enumerate() {
        if let Some(balance) = find_balance_modulo(search, &problem, *modulus)? {
            return Ok(Leaf::Balanced(balance));
        }
        if place == 0 && moduli.len() > 1 && excludes_balances(search, &problem)? {
            return Ok(Leaf::Open { integers: true });
        }
    }
    Ok(Leaf::Open { integers: false })
}

/// Looks for a balance modulo `modulus`.
fn find_balance_modulo<L: FinderProgress>(
    search: &TreeSearch<'_, L>,
    problem: &TuplesByClass,
    modulus: u32,
) -> Result<Option<Balance>, StoppedAt> {
    match find_balance(search.alloc, problem, modulus, search.listener) {
        Ok(found) => Ok(found),
        Err(fault) => Err(StoppedAt {
            modulus: Some(modulus),
            fault,
        }),
    }
}

/// Returns whether an integer solution excludes balances of every modulus. A limit met here is not
/// an error: the function then returns `false`.
fn excludes_balances<L: FinderProgress>(
    search: &TreeSearch<'_, L>,
    problem: &TuplesByClass,
) -> Result<bool, StoppedAt> {
    match has_integer_solution(search.alloc, problem, search.listener) {
        Ok(has_solution) => Ok(has_solution),
        Err(FinderFault::OutOfMemory) => Err(out_of_memory()),
        Err(_limit) => Ok(false),
    }
}
