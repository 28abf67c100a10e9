//! Covers with two sheets.
//!
//! The tuples of a simplex form a complex: its vertices are the pairs of a place and a value, and
//! each two vertices of a tuple are joined by an edge. A cover with two sheets says for each edge
//! whether it swaps the sheets, so that the three edges of each triangle swap them twice or never.
//! The edges of a spanning forest may be assumed not to swap them. So the other edges are unknowns
//! modulo 2, each triangle is an equation, and the solutions are the covers.

ghost use Rattle.std.specs.Prelude.{IfOk, IfSome, map, vec_items};
ghost use Rattle.wf_tree_refine.specs.AtHand.{IsAtHand};

use crate::edges::{edges_of, free_edges, triangles_of};
use crate::fault::FinderFault;
use crate::listener::FinderProgress;
use crate::search::{StoppedAt, TreeSearch, out_of_memory, stopped_outside_system};
use crate::sums::Sums;
use std::alloc::{AllocError, Global};
use wf_task::Row;
use wf_tree_refine::RefineFault;
use wf_tree_steps::cover::{Covering, Move, cover_fault, covered_rows};

/// The largest number of covers of a simplex that are considered. The first of them swaps nothing
/// and is not tried.
pub const MAX_COVERS: u32 = 64;

/// The number of unknowns in which the considered covers differ: `MAX_COVERS` is 2 to this power.
const MAX_CHOSEN: u32 = 6;

/// The smallest number of participants of a simplex that is covered. Tuples of fewer have no
/// triangles.
const MIN_COVERED: u8 = 3;

/// The number of sheets of a cover.
const SHEETS: u8 = 2;

/// The sheets of a move that swaps them.
const CHANGED: [u8; 2] = [1, 0];

/// The covers with two sheets of a simplex, as the solutions of a system of equations modulo 2.
#[derive(Drop)]
pub(crate) struct TwoSheetCovers {
    simplex: u32,
    // the edges outside a spanning forest, in ascending order
    free: Vec<u32>,
    // the equations, of which these edges are the unknowns
    sums: Sums,
}

impl TwoSheetCovers {
    /// Creates the covers of the simplex with the index `simplex` and the tuples `rows`.
    pub(crate) fn of(
        alloc: Global,
        simplex: u32,
        rows: &[Row],
    ) -> Result<TwoSheetCovers, FinderFault> {
        let mut turns = TwoSheetCovers {
            simplex,
            free: Vec::new(alloc),
            sums: Sums::new(alloc),
        };
        if has_triangles(rows) {
            turns.free = free_edges(alloc, &edges_of(alloc, rows)?)?;
            turns.sums = Sums::of(alloc, &turns.free, &triangles_of(alloc, rows)?)?;
        }
        Ok(turns)
    }

    /// Returns the number of covers, at most [`MAX_COVERS`].
    pub(crate) fn count(&self) -> u32 {
        let chosen = self.sums.count_free();
        if chosen >= MAX_CHOSEN {
            MAX_COVERS
        } else {
            1 << chosen
        }
    }

    /// Returns the cover with the index `number`. Cover 0 swaps no sheets.
    pub(crate) fn covering(&self, alloc: Global, number: u32) -> Result<Covering, FinderFault> {
        let changed = self.sums.solution(alloc, number)?;
        let mut moves = Vec::new(alloc);
        for (edge, is_changed) in self.free.iter().zip(changed.iter()) {
            if *is_changed {
                moves.push(change_at(alloc, *edge)?)?;
            }
        }
        Ok(Covering {
            simplex: self.simplex,
            sheets: SHEETS,
            corner: 0,
            moves,
        })
    }
}

/// Returns whether the tuples `rows` have at least three places.
fn has_triangles(rows: &[Row]) -> bool {
    match rows.first() {
        Some(row) => row.size() >= MIN_COVERED,
        None => false,
    }
}

/// Returns a move that swaps the two sheets along `edge`, given as in `edges_of`.
fn change_at(alloc: Global, edge: u32) -> Result<Move, AllocError> {
    let [first, value, second, other] = edge.to_be_bytes();
    Ok(Move {
        first,
        value,
        second,
        other,
        sheets: Vec::from_slice(alloc, &CHANGED)?,
    })
}

/// Returns the tuples of the task with values on the sheets of `cover`, or `None` if that is above
/// a limit of names or tuples.
pub(crate) fn covered<L: FinderProgress>(
    search: &TreeSearch<'_, L>,
    rows: &[Vec<Row>],
    cover: &Covering,
) -> Result<Option<Vec<Vec<Row>>>, StoppedAt>
    requires { IsAtHand search.now.task.now (map vec_items rows.now) }
    ensures { IfOk result (λ covered. IfSome covered (λ found.
        IsAtHand search.now.task.now (map vec_items found.items))) }
{
    if cover.simplex as usize >= rows.len() {
        return Err(stopped_outside_system(FinderFault::Internal));
    }
    match cover_fault(search.alloc, search.task, rows, cover) {
        Ok(None) => {}
        Ok(Some(_fault)) => return Err(stopped_outside_system(FinderFault::Internal)),
        Err(_refused) => return Err(out_of_memory()),
    }
    match covered_rows(search.alloc, search.task, rows, cover) {
        Ok(found) => Ok(Some(found)),
        Err(RefineFault::OutOfMemory) => Err(out_of_memory()),
        Err(_limit) => Ok(None),
    }
}
