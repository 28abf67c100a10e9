//! The search for a tree: a balance if there is one, and otherwise splits, cases and covers with
//! trees below them.

ghost use Rattle.std.specs.Prelude.{◌<◌, length, map, vec_items};
ghost use Rattle.wf_tree_refine.specs.AtHand.{IsAtHand};

use crate::cases::{FewestCases, count_tuples, fewest_cases, part_of};
use crate::covers::{TwoSheetCovers, covered};
use crate::fault::FinderFault;
use crate::leaves::{Leaf, find_leaf};
use crate::listener::FinderProgress;
use crate::search::{
    Depth, MAX_LEVELS, StoppedAt, TreeBuilder, TreeSearch, numbered, out_of_memory,
    stopped_outside_system,
};
use crate::splits::split_all;
use wf_task::Row;
use wf_tree_refine::first_rows;
use wf_tree_steps::cover::Covering;
use wf_tree_text::TreeNode;

/// The result of a search for a tree.
#[derive(Drop)]
pub enum FoundTree {
    /// The nodes of a tree, in preorder.
    Nodes(Vec<TreeNode>),
    /// No tree was found. Some task that splits and cases led to has no balance modulo any of the
    /// numbers that were tried, no simplex with several components, and no tree below any cover
    /// that was tried.
    Nothing {
        /// Whether an integer solution shows that this task has no balance of any modulus.
        integers: bool,
    },
}

/// The result of growing a tree: its nodes have been added, or one of its leaves stayed open.
#[derive(Clone, Copy, Drop)]
enum BuiltTree {
    Whole,
    Open { integers: bool },
}

/// Looks for a tree of the search's task.
///
/// For each task on the way the search tries, in this order:
///
/// - a leaf: a simplex that allows nothing, or a balance;
/// - splits of simplices of three or four participants, large ones first, until they change
///   nothing, and then a leaf;
/// - the cases of the simplex with the fewest components, with a tree for each;
/// - if no simplex has a case that changes anything: covers with two sheets and a tree below one of
///   them, if the search allows covers and the task is not symmetric.
///
/// Nothing is proved about the result: check the nodes with `wf_tree_check`.
///
/// # Errors
///
/// Returns the limit at which the search gave up, or [`FinderFault::OutOfMemory`] if memory ran
/// out.
pub fn find_tree<L: FinderProgress>(search: &TreeSearch<'_, L>) -> Result<FoundTree, StoppedAt> {
    let rows = match first_rows(search.alloc, search.task) {
        Ok(rows) => rows,
        Err(_refused) => return Err(out_of_memory()),
    };
    let depth = Depth {
        levels: MAX_LEVELS,
        covers: search.covers,
    };
    let mut growth = TreeBuilder::new(search.alloc);
    match grow(search, &rows, depth, &mut growth)? {
        BuiltTree::Whole => Ok(FoundTree::Nodes(growth.into_nodes())),
        BuiltTree::Open { integers } => Ok(FoundTree::Nothing { integers }),
    }
}

/// Adds the nodes of a tree of the task with the tuples `rows`, of at most this `depth`. If a leaf
/// stays open, nodes of the unfinished tree may remain.
#[cycle(growing)]
fn grow<L: FinderProgress>(
    search: &TreeSearch<'_, L>,
    rows: &[Vec<Row>],
    depth: Depth,
    growth: &mut TreeBuilder,
) -> Result<BuiltTree, StoppedAt>
    requires { IsAtHand search.now.task.now (map vec_items rows.now) }
{
    let leaf = find_leaf(search, rows, depth)?;
    let Leaf::Open { integers } = leaf else {
        return end(search, leaf, growth);
    };
    match split_all(search, rows, depth.levels, growth)? {
        Some(apart) => {
            let levels = apart.levels;
            grow_apart(search, &apart.rows, Depth { levels, ..depth }, growth)
        }
        None => branch(search, rows, depth, integers, growth),
    }
}

/// Adds the nodes of a tree below splits: a leaf if there is one, and otherwise cases or a cover.
#[cycle(growing)]
fn grow_apart<L: FinderProgress>(
    search: &TreeSearch<'_, L>,
    rows: &[Vec<Row>],
    depth: Depth,
    growth: &mut TreeBuilder,
) -> Result<BuiltTree, StoppedAt>
    requires { IsAtHand search.now.task.now (map vec_items rows.now) }
{
    let leaf = find_leaf(search, rows, depth)?;
    match leaf {
        Leaf::Open { integers } => branch(search, rows, depth, integers, growth),
        _ => end(search, leaf, growth),
    }
}

/// Adds the node of `leaf`, which ends this branch of the tree. Adds nothing if no leaf was found.
fn end<L: FinderProgress>(
    search: &TreeSearch<'_, L>,
    leaf: Leaf,
    growth: &mut TreeBuilder,
) -> Result<BuiltTree, StoppedAt> {
    match leaf {
        Leaf::Empty(simplex) => {
            growth.add_case(simplex)?;
            search.listener.empty(numbered(simplex)?);
            Ok(BuiltTree::Whole)
        }
        Leaf::Balanced(balance) => {
            growth.add_balance(balance)?;
            Ok(BuiltTree::Whole)
        }
        Leaf::Open { integers } => Ok(BuiltTree::Open { integers }),
    }
}

/// Adds the cases of a task that has no leaf, or a cover if no case changes anything. `integers`
/// says whether an integer solution excludes balances of the task.
#[cycle(growing)]
fn branch<L: FinderProgress>(
    search: &TreeSearch<'_, L>,
    rows: &[Vec<Row>],
    depth: Depth,
    integers: bool,
    growth: &mut TreeBuilder,
) -> Result<BuiltTree, StoppedAt>
    requires { IsAtHand search.now.task.now (map vec_items rows.now) }
{
    match fewest_cases(search, rows)? {
        Some(cases) => grow_cases(search, rows, cases, depth, growth),
        None if depth.covers > 0 && depth.levels > 0 && !search.task.symmetric() => {
            grow_covers(search, rows, depth, growth)
        }
        None => Ok(BuiltTree::Open { integers }),
    }
}

/// Adds the case node of a simplex and the nodes of a tree for each of its components. Stops at the
/// first one without a tree.
#[cycle(growing)]
fn grow_cases<L: FinderProgress>(
    search: &TreeSearch<'_, L>,
    rows: &[Vec<Row>],
    cases: FewestCases,
    depth: Depth,
    growth: &mut TreeBuilder,
) -> Result<BuiltTree, StoppedAt>
    requires at_hand { IsAtHand search.now.task.now (map vec_items rows.now) }
    requires simplex { cases.simplex < length rows.now }
{
    if depth.levels == 0 {
        let count = u64::from(MAX_LEVELS);
        return Err(stopped_outside_system(FinderFault::TooManyLevels { count }));
    }
    let levels = depth.levels - 1;
    growth.add_case(cases.simplex)?;
    'parts: for number in 0..cases.count {
        let part = part_of(search, rows, cases.simplex, number)?;
        search
            .listener
            .part(numbered(cases.simplex)?, number, cases.count);
        let grown = grow(search, &part, Depth { levels, ..depth }, growth)?;
        if let BuiltTree::Open { .. } = grown {
            return Ok(grown);
        }
    }
    Ok(BuiltTree::Whole)
}

// ---- covers

/// Adds a cover and the nodes of a tree below it. Tries the simplices in order.
#[cycle(growing)]
fn grow_covers<L: FinderProgress>(
    search: &TreeSearch<'_, L>,
    rows: &[Vec<Row>],
    depth: Depth,
    growth: &mut TreeBuilder,
) -> Result<BuiltTree, StoppedAt>
    requires at_hand { IsAtHand search.now.task.now (map vec_items rows.now) }
    requires levels { 0 < depth.levels }
{
    'simplices: for (simplex, tuples) in rows.iter().enumerate() {
        let turns = match TwoSheetCovers::of(search.alloc, numbered(simplex)?, tuples) {
            Ok(turns) => turns,
            Err(fault) => return Err(stopped_outside_system(fault)),
        };
        if let BuiltTree::Whole = grow_first_cover(search, rows, &turns, depth, growth)? {
            return Ok(BuiltTree::Whole);
        }
    }
    Ok(BuiltTree::Open { integers: false })
}

/// Adds the first cover among `turns` below which there is a tree, and the nodes of that tree.
#[cycle(growing)]
fn grow_first_cover<L: FinderProgress>(
    search: &TreeSearch<'_, L>,
    rows: &[Vec<Row>],
    turns: &TwoSheetCovers,
    depth: Depth,
    growth: &mut TreeBuilder,
) -> Result<BuiltTree, StoppedAt>
    requires at_hand { IsAtHand search.now.task.now (map vec_items rows.now) }
    requires levels { 0 < depth.levels }
{
    'covers: for number in 1..turns.count() {
        let cover = match turns.covering(search.alloc, number) {
            Ok(cover) => cover,
            Err(fault) => return Err(stopped_outside_system(fault)),
        };
        if let BuiltTree::Whole = grow_cover(search, rows, cover, depth, growth)? {
            return Ok(BuiltTree::Whole);
        }
    }
    Ok(BuiltTree::Open { integers: false })
}

/// Adds `cover` and the nodes of a tree below it. Adds nothing if there is no such tree or the
/// cover is above a limit.
#[cycle(growing)]
fn grow_cover<L: FinderProgress>(
    search: &TreeSearch<'_, L>,
    rows: &[Vec<Row>],
    cover: Covering,
    depth: Depth,
    growth: &mut TreeBuilder,
) -> Result<BuiltTree, StoppedAt>
    requires at_hand { IsAtHand search.now.task.now (map vec_items rows.now) }
    requires levels { 0 < depth.levels }
{
    let Some(sheets) = covered(search, rows, &cover)? else {
        return Ok(BuiltTree::Open { integers: false });
    };
    let before = growth.count();
    search.listener.cover(cover.simplex);
    growth.add_cover(cover, count_tuples(&sheets))?;
    let below = Depth {
        levels: depth.levels - 1,
        covers: depth.covers.saturating_sub(1),
    };
    let grown = grow(search, &sheets, below, growth)?;
    if let BuiltTree::Open { .. } = grown {
        growth.take_back(before);
    }
    Ok(grown)
}
