//! The search of a box for its least map, without lines.

ghost use Rattle.std.specs.Prelude.{IfOk};
ghost use Rattle.wf_model.specs.Closing.{canonical};
ghost use Rattle.wf_box.specs.Boxes.{IsFor, ServeFor};
ghost use Rattle.wf_search.specs.FoundMap.{HasAskedForMap, IsCanonicalMap, IsRightMap, OnMapStopped};

use crate::pending::SearchStack;
use crate::stop::Stop;
use crate::turning::{TurnEnd, take_turn};
use std::alloc::{AllocError, Global};
use wf_base::lines::Lines;
use wf_box::{Box0, BoxCache, Problem};

/// The outcome of a search that keeps no lines.
#[derive(Drop)]
pub enum FoundMap {
    /// The least decision map in the box, as the values of the points.
    Map(Vec<u8>),
    /// The box has no decision map.
    Nothing,
    /// The search was stopped.
    Stopped,
}

/// Searches `boxed` like [`search_with`](crate::search_with), by the same turns, but without its
/// lines: finds the least decision map in the box, or that there is none.
///
/// The lines of a turn are dropped before the next one, so that memory doesn't grow with the number
/// of turns.
///
/// # Errors
///
/// Returns `AllocError` if memory runs out; `boxed` and the cached results are then lost.
pub fn search_map<S: Stop>(
    alloc: Global,
    problem: &Problem,
    boxed: Box0,
    stop: &mut S,
    answers: &mut BoxCache,
) -> Result<FoundMap, AllocError>
    requires boxed { IsFor problem.now boxed }
    requires answers { ServeFor problem.now answers.old }
    ensures canonical { IfOk result (IsCanonicalMap (canonical problem.now boxed.sets)) }
    ensures right { IfOk result (IsRightMap problem.now boxed.sets) }
    ensures asked { let t = canonical problem.now boxed.sets in
        HasAskedForMap t (λ n. S.asked n stop.old stop.new) result }
    ensures stopped { IfOk result (OnMapStopped (S.is_stopped stop.new)) }
    ensures answers { ServeFor problem.now answers.new }
{
    // only for the proof: this call makes the invariant of every problem known
    let _points = problem.points();
    let mut first = boxed;
    first.swap_cache(answers);
    let mut pending = SearchStack::of(alloc, problem, first);
    let mut lines: Lines = Vec::new(alloc);
    'turns: loop {
        if stop.stop() {
            pending.into_cache(answers);
            return Ok(FoundMap::Stopped);
        }
        match take_turn(alloc, &mut pending, &mut lines)? {
            TurnEnd::GoesOn => lines.clear(),
            TurnEnd::Nothing => {
                pending.into_cache(answers);
                return Ok(FoundMap::Nothing);
            }
            TurnEnd::Map(values) => {
                pending.into_cache(answers);
                return Ok(FoundMap::Map(values));
            }
        }
    }
}
