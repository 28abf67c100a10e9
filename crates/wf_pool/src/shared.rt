//! The state that all workers share.

ghost use Rattle.wf_pool.specs.Work.{IsGround};

use crate::finding::SearchSpec;
use wf_board::Board;
use wf_search::Cover;

/// The state that all workers share: the request, the branches, the board and the observer.
#[derive(Drop)]
pub(crate) struct SharedState<'a, G> {
    pub(crate) spec: SearchSpec<'a>,
    pub(crate) cover: &'a Cover,
    pub(crate) board: &'a Board,
    pub(crate) gate: &'a G,
    ghost ground: { IsGround spec.problem.now cover.now board.now },
}
