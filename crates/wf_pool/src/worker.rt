//! A worker: its seat at the board, what it found, and its kernel cache.

ghost use Rattle.std.specs.Prelude.{◌≡◌, ◌<◌, IfOk, OnOk, filter, nat_lt};
ghost use Rattle.wf_pool.specs.Branches.{IsMapAt, AreLinesAt};
ghost use Rattle.wf_search.specs.Found.{OnStopped};
ghost use Rattle.wf_pool.specs.Work.{HasSettled, IsFoundAt, IsSeat, IsToSettle, StaysHonest, StaysHonestIf};

use std::alloc::AllocError;
use wf_base::lines::Lines;
use wf_board::{Board, BoardSeat};
use wf_box::BoxCache;
use wf_search::Found;

/// The map of a branch, and the lines that lead to it if they are kept.
#[derive(Drop)]
pub(crate) struct BranchMap {
    pub(crate) branch: u32,
    pub(crate) map: Vec<u8>,
    pub(crate) lines: Lines,
}

/// A branch that has no map, and the lines that refute it if they are kept.
#[derive(Drop)]
pub(crate) struct BranchLines {
    pub(crate) branch: u32,
    pub(crate) lines: Lines,
}

/// What a worker keeps: the map of the least branch that it posted, and the branches that it
/// refuted, with their lines.
#[derive(Drop)]
pub(crate) struct Finds {
    pub(crate) map: Option<BranchMap>,
    pub(crate) lines: Vec<BranchLines>,
}

/// A worker: its seat at the board, what it found, and its kernel cache, with which it begins the
/// next branch.
#[derive(Drop)]
pub(crate) struct Worker {
    pub(crate) seat: BoardSeat,
    pub(crate) finds: Finds,
    pub(crate) answers: BoxCache,
}

impl Worker {
    /// Posts `branch`, which has a map, and keeps the map and its lines if no lower branch is
    /// posted.
    pub(crate) fn post(&mut self, board: &Board, branch: u32, map: Vec<u8>, lines: Lines)
        requires seat { IsSeat board.now self.old.seat }
        requires branch { IsToSettle board.now self.old.seat branch }
        ensures seat { IsSeat board.now self.new.seat }
        ensures settled { HasSettled branch self.old self.new }
        ensures honest { StaysHonestIf
            (λ p kept. IsMapAt p kept branch map.items lines.items) self.old self.new }
        ensures answers { self.new.answers ≡ self.old.answers }
    {
        if board.post(&mut self.seat, branch) == branch {
            self.finds.map = Some(BranchMap { branch, map, lines });
        }
    }

    /// Drops the lines of the branches that are not below the least posted branch. The answer
    /// doesn't need these.
    fn forget(&mut self)
        ensures seat { self.new.seat ≡ self.old.seat }
        ensures honest { StaysHonest self.old self.new }
        ensures answers { self.new.answers ≡ self.old.answers }
    {
        keep_below(&mut self.finds.lines, self.seat.seen());
    }

    /// Counts `branch`, which has no map, as refuted, and keeps its lines if the worker has seen no
    /// lower branch posted.
    pub(crate) fn refute(
        &mut self,
        board: &Board,
        branch: u32,
        lines: Lines,
    ) -> Result<(), AllocError>
        requires seat { IsSeat board.now self.old.seat }
        requires branch { IsToSettle board.now self.old.seat branch }
        ensures seat { OnOk result (IsSeat board.now self.new.seat) }
        ensures settled { OnOk result (HasSettled branch self.old self.new) }
        ensures honest { OnOk result (StaysHonestIf
            (λ p kept. AreLinesAt p kept branch lines.items) self.old self.new) }
        ensures answers { self.new.answers ≡ self.old.answers }
    {
        board.searched(&mut self.seat, branch);
        if branch < self.seat.seen() {
            self.finds.lines.push(BranchLines { branch, lines })?;
        }
        Ok(())
    }

    /// Counts `branch` as cut. The worker must have seen a lower branch posted.
    pub(crate) fn cut(&mut self, board: &Board, branch: u32)
        requires seat { IsSeat board.now self.old.seat }
        requires branch { IsToSettle board.now self.old.seat branch }
        requires below { self.old.seat.seen < branch }
        ensures seat { IsSeat board.now self.new.seat }
        ensures settled { HasSettled branch self.old self.new }
        ensures honest { StaysHonest self.old self.new }
        ensures answers { self.new.answers ≡ self.old.answers }
    {
        board.cut(&mut self.seat, branch);
    }

    /// Settles `branch` by the outcome `found` of its search: posts, refutes or cuts it.
    pub(crate) fn settle(
        self,
        board: &Board,
        branch: u32,
        found: Found,
    ) -> Result<Worker, AllocError>
        requires seat { IsSeat board.now self.seat }
        requires branch { IsToSettle board.now self.seat branch }
        requires stopped { OnStopped (self.seat.seen < branch) found }
        ensures seat { IfOk result (λ w. IsSeat board.now w.seat) }
        ensures settled { IfOk result (HasSettled branch self) }
        ensures honest { IfOk result (StaysHonestIf
            (λ p kept. IsFoundAt p kept branch found) self) }
        ensures answers { IfOk result (λ w. w.answers ≡ self.answers) }
    {
        let mut me = self;
        match found {
            Found::Map(map, lines) => {
                me.post(board, branch, map, lines);
                me.forget();
                Ok(me)
            }
            Found::Refuted(lines) => {
                me.refute(board, branch, lines)?;
                Ok(me)
            }
            Found::Stopped => {
                me.cut(board, branch);
                me.forget();
                Ok(me)
            }
        }
    }
}

/// Keeps only the lines of the branches below `branch`.
fn keep_below(lines: &mut Vec<BranchLines>, branch: u32)
    ensures { lines.new.items ≡ filter (λ l. nat_lt l.branch branch) lines.old.items }
{
    lines.retain(|at| at.branch < branch);
}
