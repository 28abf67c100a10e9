//! The call of the finder, and the translation of its results.

ghost use Rattle.wf_run_obstruction.specs.Finding.{IsOf};

use crate::finding::{GaveUp, SearchLimit, Tried};
use std::alloc::Global;
use wf_task::Task;
use wf_tree_finder::{FinderFault, FinderProgress, FoundTree, StoppedAt, TreeSearch, find_tree};
use wf_tree_text::{Obstruction, TreeNode};

/// The moduli that are tried for each balance, in this order, unless one is given.
pub const MODULI: [u32; 8] = [2, 3, 4, 5, 7, 8, 9, 2_147_483_647];

/// The options of a search for an obstruction.
#[derive(Clone, Copy, Debug, PartialEq, Eq)]
pub struct ObstructionSpec {
    /// The only modulus that is tried, or `None` to try each of [`MODULI`] in turn.
    pub modulus: Option<u32>,
    /// The largest number of covers on one path of the tree; 0 for none.
    pub covers: u32,
}

/// The result of the finder.
#[derive(Drop)]
pub(crate) enum FinderResult {
    /// It found this obstruction, which has not been checked.
    Found(Obstruction),
    /// It found no obstruction.
    NotFound {
        /// Whether the equations that the search was left with have an integer solution, so that no
        /// modulus has a balance for them. Covers are not taken into account.
        integers: bool,
    },
}

/// The reason why the finder returned no result.
#[derive(Clone, Copy)]
pub(crate) enum SearchError {
    /// The search stopped at a limit.
    GaveUp(GaveUp),
    /// Memory ran out.
    OutOfMemory,
}

/// Looks for an obstruction of `task` with the options `wanted`, and reports progress to
/// `listener`. The result is not checked.
pub(crate) fn run_finder<L: FinderProgress>(
    alloc: Global,
    task: &Task,
    wanted: ObstructionSpec,
    listener: &L,
) -> Result<FinderResult, SearchError> {
    let only = [wanted.modulus.unwrap_or(MODULI[0])];
    let moduli = match wanted.modulus {
        Some(_) => only.as_slice(),
        None => MODULI.as_slice(),
    };
    let search = TreeSearch {
        alloc,
        task,
        moduli,
        covers: wanted.covers,
        listener,
    };
    match find_tree(&search) {
        Ok(FoundTree::Nodes(nodes)) => Ok(FinderResult::Found(obstruction(task, nodes))),
        Ok(FoundTree::Nothing { integers }) => Ok(FinderResult::NotFound { integers }),
        Err(stopped) => Err(translate_error(stopped)),
    }
}

/// Returns what a search with the options `wanted` tried. `integers` says whether an integer
/// solution excludes balances of every modulus; as the solution does not take covers into account,
/// it is ignored if covers were tried.
pub(crate) fn tried(wanted: ObstructionSpec, integers: bool) -> Tried
    ensures { IsOf wanted result }
{
    let covers = wanted.covers > 0;
    match wanted.modulus {
        Some(modulus) => Tried::Only { modulus, covers },
        None if integers && !covers => Tried::AllNumbers,
        None => Tried::Each { covers },
    }
}

/// Returns `nodes` as an obstruction of `task`.
fn obstruction(task: &Task, nodes: Vec<TreeNode>) -> Obstruction {
    Obstruction {
        processes: u32::from(task.processes()),
        simplices: task.inputs().simplices().len() as u32,
        nodes,
    }
}

/// Translates an error of the finder. Running out of memory is not a limit of the search.
fn translate_error(stopped: StoppedAt) -> SearchError {
    let limit = match stopped.fault {
        FinderFault::OutOfMemory => return SearchError::OutOfMemory,
        FinderFault::TooManyUnknowns { count } => SearchLimit::Unknowns(count),
        FinderFault::TooManyEquations { count } => SearchLimit::Equations(count),
        FinderFault::TooManyEntries { count } => SearchLimit::Entries(count),
        FinderFault::TooManySteps { count } => SearchLimit::Steps(count),
        FinderFault::TooManyNodes { count } => SearchLimit::Nodes(count),
        FinderFault::TooManyLevels { count } => SearchLimit::Levels(count),
        FinderFault::TooManyCovers { count } => SearchLimit::Covers(count),
        FinderFault::Internal => SearchLimit::Internal,
    };
    let modulus = stopped.modulus;
    SearchError::GaveUp(GaveUp { modulus, limit })
}
