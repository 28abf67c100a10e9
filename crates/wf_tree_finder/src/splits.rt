//! The splits of a search.

ghost use Rattle.std.specs.Prelude.{◌<◌, ◌≤◌, IfOk, IfSome, length, map, vec_items};
ghost use Rattle.wf_tree_refine.specs.AtHand.{IsAtHand};

use crate::listener::FinderProgress;
use crate::search::{StoppedAt, TreeBuilder, TreeSearch, numbered, out_of_memory};
use wf_task::Row;
use wf_tree_refine::{RefineFault, named_rows, new_name, split_rows};

/// The smallest number of participants of a simplex that is split. Splits of smaller ones change
/// nothing.
const MIN_SPLIT: u8 = 3;

/// The tuples of a task after splits, and the number of levels that remain below them.
#[derive(Drop)]
pub(crate) struct Apart {
    pub(crate) rows: Vec<Vec<Row>>,
    pub(crate) levels: u32,
}

/// Splits simplices one after another, large ones first, until no split changes anything or no
/// level remains. Adds a node for each split. Returns `None` if there was none, as in a symmetric
/// task.
pub(crate) fn split_all<L: FinderProgress>(
    search: &TreeSearch<'_, L>,
    rows: &[Vec<Row>],
    levels: u32,
    growth: &mut TreeBuilder,
) -> Result<Option<Apart>, StoppedAt>
    requires { IsAtHand search.now.task.now (map vec_items rows.now) }
    ensures at_hand { IfOk result (λ apart. IfSome apart (λ split.
        IsAtHand search.now.task.now (map vec_items split.rows.items))) }
    ensures fewer { IfOk result (λ apart. IfSome apart (λ split. split.levels ≤ levels)) }
{
    if search.task.symmetric() || levels == 0 {
        return Ok(None);
    }
    let Some(mut apart) = split_next(search, rows, growth)? else {
        return Ok(None);
    };
    let mut left = levels - 1;
    'splits: for _ in 0..levels - 1 {
        let Some(next) = split_next(search, &apart, growth)? else {
            return Ok(Some(Apart {
                rows: apart,
                levels: left,
            }));
        };
        apart = next;
        left = left.saturating_sub(1);
    }
    Ok(Some(Apart {
        rows: apart,
        levels: left,
    }))
}

/// Splits the last simplex for which a split changes something and is within the limits, and adds a
/// node for it. Simplices are in ascending order of size, so a large one comes first. Returns the
/// tuples after the split, or `None` if there was none.
fn split_next<L: FinderProgress>(
    search: &TreeSearch<'_, L>,
    rows: &[Vec<Row>],
    growth: &mut TreeBuilder,
) -> Result<Option<Vec<Vec<Row>>>, StoppedAt>
    requires { IsAtHand search.now.task.now (map vec_items rows.now) }
    ensures { IfOk result (λ apart. IfSome apart (λ split.
        IsAtHand search.now.task.now (map vec_items split.items))) }
{
    'simplices: for simplex in (0..rows.len()).rev() {
        if let Some(apart) = split_at(search, rows, simplex)? {
            growth.add_split(simplex)?;
            search.listener.split(numbered(simplex)?);
            return Ok(Some(apart));
        }
    }
    Ok(None)
}

/// Returns the tuples after a split of `simplex`, or `None` if the split changes nothing or is
/// above a limit of names or tuples.
fn split_at<L: FinderProgress>(
    search: &TreeSearch<'_, L>,
    rows: &[Vec<Row>],
    simplex: usize,
) -> Result<Option<Vec<Vec<Row>>>, StoppedAt>
    requires at_hand { IsAtHand search.now.task.now (map vec_items rows.now) }
    requires simplex { simplex < length rows.now }
    ensures { IfOk result (λ apart. IfSome apart (λ split.
        IsAtHand search.now.task.now (map vec_items split.items))) }
{
    if !split_renames(search, rows, simplex)? {
        return Ok(None);
    }
    match split_rows(search.alloc, search.task, rows, simplex) {
        Ok(apart) => Ok(Some(apart)),
        Err(RefineFault::OutOfMemory) => Err(out_of_memory()),
        Err(_limit) => Ok(None),
    }
}

/// Returns whether a split of `simplex` gives some value a new name. A simplex of fewer than three
/// participants is not split, nor one that would need too many names.
fn split_renames<L: FinderProgress>(
    search: &TreeSearch<'_, L>,
    rows: &[Vec<Row>],
    simplex: usize,
) -> Result<bool, StoppedAt>
    requires at_hand { IsAtHand search.now.task.now (map vec_items rows.now) }
    requires simplex { simplex < length rows.now }
{
    let simplices = search.task.inputs().simplices();
    let of = simplices[simplex];
    if of.colours() < MIN_SPLIT {
        return Ok(false);
    }
    let new = new_name(search.task, rows);
    match named_rows(search.alloc, &of, &rows[simplex], new) {
        Ok(named) => Ok(named.as_slice() != rows[simplex].as_slice()),
        Err(RefineFault::OutOfMemory) => Err(out_of_memory()),
        Err(_limit) => Ok(false),
    }
}
