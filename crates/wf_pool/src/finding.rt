//! The request for an answer, and the search of a box for it.

ghost use Rattle.std.specs.Prelude.{IfOk, OnOk};
ghost use Rattle.wf_box.specs.Boxes.{IsFor, ServeFor};
ghost use Rattle.wf_search.specs.Found.{OnStopped};
ghost use Rattle.wf_pool.specs.Turns.{AskedWithin};
ghost use Rattle.wf_pool.specs.Work.{IsFoundIn};

use crate::answer::KeptLines;
use std::alloc::{AllocError, Global};
use wf_box::{Box0, BoxCache, Problem};
use wf_search::{Found, FoundMap, Stop, search_map, search_with};

/// A request for the least map of a problem, or for the answer that it has none, with those lines
/// of the search that are kept.
#[derive(Clone, Copy, Drop)]
pub struct SearchSpec<'a> {
    /// The problem to solve.
    pub problem: &'a Problem,
    /// Which lines are kept for the answer.
    pub kept: KeptLines,
}

/// Searches `boxed`, and keeps only those lines that the request keeps. If it keeps none, memory
/// doesn't grow with the number of turns.
pub(crate) fn search_box<S: Stop>(
    alloc: Global,
    spec: SearchSpec,
    boxed: Box0,
    stop: &mut S,
    answers: &mut BoxCache,
) -> Result<Found, AllocError>
    requires boxed { IsFor spec.problem.now boxed }
    requires answers { ServeFor spec.problem.now answers.old }
    ensures found { let q = spec.entry in
        IfOk result (IsFoundIn q.problem.now q.kept boxed.sets) }
    ensures asked { let q = spec.entry in OnOk result
        (AskedWithin q.problem.now boxed.sets (λ n. S.asked n stop.old stop.new)) }
    ensures stopped { IfOk result (OnStopped (S.is_stopped stop.new)) }
    ensures answers { ServeFor spec.entry.problem.now answers.new }
{
    let problem = spec.problem;
    match spec.kept {
        KeptLines::All => search_with(alloc, problem, boxed, stop, answers),
        KeptLines::Refuting => match search_with(alloc, problem, boxed, stop, answers)? {
            Found::Map(map, _) => Ok(Found::Map(map, Vec::new(alloc))),
            Found::Refuted(lines) => Ok(Found::Refuted(lines)),
            Found::Stopped => Ok(Found::Stopped),
        },
        KeptLines::Neither => match search_map(alloc, problem, boxed, stop, answers)? {
            FoundMap::Map(map) => Ok(Found::Map(map, Vec::new(alloc))),
            FoundMap::Nothing => Ok(Found::Refuted(Vec::new(alloc))),
            FoundMap::Stopped => Ok(Found::Stopped),
        },
    }
}
