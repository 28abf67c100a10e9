//! A worker in a branch: it makes a turn only if it sees no lower branch posted.

ghost use Rattle.std.specs.Prelude.{◌≡◌, ◌+◌, ◌-◌, ◌<◌, IfOk};
ghost use Rattle.wf_pool.specs.Work.{HasLooked, HasSettled, IsToSettle};
ghost use Rattle.wf_pool.specs.Sites.{IsWorkerOf};
ghost use Rattle.wf_pool.specs.Looking.{looked_itself, looked_on};

use crate::finding::search_box;
use crate::gate::{Gate, Moment};
use crate::shared::SharedState;
use crate::worker::Worker;
use std::alloc::{AllocError, Global};
use wf_board::{Board, BoardSeat};
use wf_search::Stop;

/// A stop that ends the search of a branch if a lower branch is posted. It holds the seat of the
/// worker, and looks at the board before each turn.
#[derive(Drop)]
struct CuttingStop<'a, G> {
    board: &'a Board,
    gate: &'a G,
    worker: u32,
    branch: u32,
    seat: BoardSeat,
    ghost is_seat: { seat.table ≡ board.now.table },
}

impl<'a, G: Gate> Stop for CuttingStop<'a, G> {
    ghost asked = { λ n old new. (new.branch ≡ old.branch) × HasLooked old.seat new.seat };

    ghost is_stopped = { λ w. w.seat.seen < w.branch };

    fn stop(&mut self) -> bool {
        if self.board.least(&mut self.seat) < self.branch {
            return true;
        }
        self.gate.at(self.worker, Moment::Turn(self.branch));
        false
    }

    ghost use Rattle.std.specs.Prelude.{refl};

    ghost unasked = { λ w. (refl, looked_itself w.seat) };

    ghost use Rattle.std.proofs.Common.{◌∙◌};

    ghost asked_on = { λ m n u v w first next.
        (next.0 ∙ first.0, looked_on u.seat v.seat w.seat first.1 next.1) };
}

/// A stop that reports each turn of the only worker to an observer, and never ends the search.
#[derive(Drop)]
pub(crate) struct ObservedStop<'a, G> {
    pub(crate) gate: &'a G,
    pub(crate) branch: u32,
}

impl<'a, G: Gate> Stop for ObservedStop<'a, G> {
    ghost use Rattle.std.proofs.Common.{◌≡◌, refl, ◌∙◌};

    ghost asked = { λ n s t. s.branch ≡ t.branch };

    ghost is_stopped = { λ s. ⊥ };

    fn stop(&mut self) -> bool {
        self.gate.at(0, Moment::Turn(self.branch));
        false
    }

    ghost unasked = { λ s. refl };

    ghost asked_on = { λ m n s t u first second. first ∙ second };
}

/// A stop that ends the search after a number of turns.
#[derive(Drop)]
pub(crate) struct TurnLimit {
    left: u64,
}

impl TurnLimit {
    /// Creates a limit that allows `turns` turns.
    pub(crate) fn of(turns: u32) -> TurnLimit
        ensures { result.left ≡ turns + 1 }
    {
        TurnLimit {
            left: u64::from(turns) + 1,
        }
    }
}

impl Stop for TurnLimit {
    ghost asked = { λ n s t. t.left ≡ s.left - n };

    ghost is_stopped = { λ s. s.left ≡ 0 };

    fn stop(&mut self) -> bool {
        self.left = self.left.saturating_sub(1);
        self.left == 0
    }

    ghost use Rattle.wf_pool.specs.Turns.{left_itself, left_on};

    ghost unasked = { λ s. left_itself s.left };

    ghost asked_on = { λ m n s t u first second.
        left_on m n s.left t.left u.left first second };
}

/// Settles `branch`, which worker number `worker` has taken: searches it, until it sees a lower
/// branch posted, and posts, refutes or cuts it. The search uses the worker's kernel cache, and
/// adds new results to it.
pub(crate) fn settle<G: Gate>(
    alloc: Global,
    shared: &SharedState<G>,
    worker: u32,
    me: Worker,
    branch: u32,
) -> Result<Worker, AllocError>
    requires me { IsWorkerOf shared.now me }
    requires branch { IsToSettle shared.now.board.now me.seat branch }
    ensures worker { IfOk result (IsWorkerOf shared.now) }
    ensures settled { IfOk result (HasSettled branch me) }
{
    shared.gate.at(worker, Moment::Taken(branch));
    let boxed = shared.cover.branch(alloc, branch)?;
    let Worker {
        seat,
        finds,
        mut answers,
    } = me;
    let mut watch = CuttingStop {
        board: shared.board,
        gate: shared.gate,
        worker,
        branch,
        seat,
    };
    let found = search_box(alloc, shared.spec, boxed, &mut watch, &mut answers)?;
    let CuttingStop { seat, .. } = watch;
    let me = Worker {
        seat,
        finds,
        answers,
    };
    let settled = me.settle(shared.board, branch, found)?;
    shared.gate.at(worker, Moment::Settled(branch));
    Ok(settled)
}
