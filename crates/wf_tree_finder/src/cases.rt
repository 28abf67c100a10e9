//! The choice of a simplex for a case.

ghost use Rattle.std.specs.Prelude.{◌<◌, IfOk, IfSome, length, map, vec_items};
ghost use Rattle.wf_tree_refine.specs.AtHand.{IsAtHand};

use crate::listener::FinderProgress;
use crate::search::{StoppedAt, TreeSearch, out_of_memory};
use wf_task::Row;
use wf_tree_refine::{count_components, in_case};

/// A simplex that a case may be made of, and the number of connected components of its tuples.
#[derive(Clone, Copy, Drop)]
pub(crate) struct FewestCases {
    pub(crate) simplex: usize,
    pub(crate) count: u32,
}

/// Returns the first simplex with the fewest connected components, among the simplices for which a
/// case changes the task: those with several components, and those whose case removes tuples from
/// another simplex. Returns `None` if there is no such simplex.
pub(crate) fn fewest_cases<L: FinderProgress>(
    search: &TreeSearch<'_, L>,
    rows: &[Vec<Row>],
) -> Result<Option<FewestCases>, StoppedAt>
    requires { IsAtHand search.now.task.now (map vec_items rows.now) }
    ensures { IfOk result (λ cases. IfSome cases (λ found. found.simplex < length rows.now)) }
{
    let mut fewest: Option<FewestCases> = None;
    'simplices: for simplex in 0..rows.len() {
        let count = components(search, rows, simplex)?;
        if is_fewer(count, fewest) && (count > 1 || case_removes_tuples(search, rows, simplex)?) {
            fewest = Some(FewestCases { simplex, count });
        }
    }
    Ok(fewest)
}

/// Returns whether the case of the first component of `simplex` removes tuples from another
/// simplex. That happens in symmetric tasks only, if a simplex with the same inputs in rank order
/// allows more tuples.
fn case_removes_tuples<L: FinderProgress>(
    search: &TreeSearch<'_, L>,
    rows: &[Vec<Row>],
    simplex: usize,
) -> Result<bool, StoppedAt>
    requires at_hand { IsAtHand search.now.task.now (map vec_items rows.now) }
    requires simplex { simplex < length rows.now }
{
    if !search.task.symmetric() {
        return Ok(false);
    }
    let part = part_of(search, rows, simplex, 0)?;
    Ok(count_tuples(&part) < count_tuples(rows))
}

/// Returns the number of tuples in `rows`, over all simplices.
pub(crate) fn count_tuples(rows: &[Vec<Row>]) -> u64 {
    let mut count = 0u64;
    for tuples in rows {
        count = count.saturating_add(tuples.len() as u64);
    }
    count
}

/// Returns whether `count` is less than the number of components of `fewest`, or there is no
/// `fewest` yet.
fn is_fewer(count: u32, fewest: Option<FewestCases>) -> bool {
    match fewest {
        Some(cases) => count < cases.count,
        None => true,
    }
}

/// Returns the number of connected components of the tuples of `simplex`.
fn components<L: FinderProgress>(
    search: &TreeSearch<'_, L>,
    rows: &[Vec<Row>],
    simplex: usize,
) -> Result<u32, StoppedAt>
    requires at_hand { IsAtHand search.now.task.now (map vec_items rows.now) }
    requires simplex { simplex < length rows.now }
{
    match count_components(search.alloc, search.task, rows, simplex) {
        Ok(count) => Ok(count),
        Err(_refused) => Err(out_of_memory()),
    }
}

/// Returns the tuples of the task in which `simplex` is restricted to its component `number`.
pub(crate) fn part_of<L: FinderProgress>(
    search: &TreeSearch<'_, L>,
    rows: &[Vec<Row>],
    simplex: usize,
    number: u32,
) -> Result<Vec<Vec<Row>>, StoppedAt>
    requires at_hand { IsAtHand search.now.task.now (map vec_items rows.now) }
    requires simplex { simplex < length rows.now }
    ensures { IfOk result (λ part. IsAtHand search.now.task.now (map vec_items part.items)) }
{
    match in_case(search.alloc, search.task, rows, simplex, number) {
        Ok(part) => Ok(part),
        Err(_refused) => Err(out_of_memory()),
    }
}
