//! The board, and the seats through which workers use it.

ghost use Rattle.std.specs.Prelude.{◌≡◌, ◌+◌, ◌*◌, ◌^◌, ◌<◌, ◌≤◌, [], ◌∷◌, ◌++◌, length, IfOk};
ghost use Rattle.wf_board.specs.Rule.{Sits, IsLeft, Ends};
ghost use Rattle.wf_board.specs.Desk.{Desk, BoardId, desk, board_id, fresh_desk, gathered};
ghost use Rattle.wf_board.specs.Desk.{MayHave, HasSize, AreFresh, IsSeatOf, MaySettle, IsLow, AreSeats, AreAllSeats};
ghost use Rattle.wf_board.specs.Desk.{looked, posted, searched, is_cut};
ghost use Rattle.wf_board.specs.Desk.{all_posted, all_cut, count_searched, HaveSeenPosts, IsLeast};

use crate::table::{
    About, BoardRule, Cut, GatherSeats, Hand, Ledger, Look, Post, Refute, SeatView,
};
use atomic_table::{Seat, Table};
use std::alloc::{AllocError, Global};
use std::marker::{Brand, Model};
use wf_core::Account;

/// A shared record of a search, in three atomic words: the least posted branch, and the numbers of
/// refuted and of cut branches.
///
/// Contracts see the board's identity, and its numbers of branches and workers.
#[derive(Drop)]
pub struct Board {
    table: Table<(), SeatView, Ledger, BoardRule, Global>,
    branches: u32,
    workers: u32,
}

impl Model for Board {
    ghost Value = { BoardId };

    ghost view = { λ b. board_id b.table.shared.table_id b.branches b.workers };

    ghost invariant = { λ b.
        (b.table.shared.table_id.words ≡ 3) × (b.table.shared.table_id.slots ≡ 0)
        × (b.table.shared.key.branches ≡ b.branches) × (b.table.shared.key.workers ≡ b.workers)
        × (b.branches * b.workers < 2 ^ 32) × (0 < b.workers) };
}

/// A worker's seat at a board, through which it makes all its calls.
///
/// Contracts see which board the seat belongs to, the number that it has seen last, and the
/// branches that it has posted, refuted and cut.
#[derive(Drop)]
pub struct BoardSeat {
    seat: Seat<(), SeatView>,
    branches: u32,
    seen: u32,
    posts: u32,
}

impl Model for BoardSeat {
    ghost Value = { Desk };

    ghost view = { λ s. desk s.seat.table_id s.branches s.seen
        s.seat.me.0.posted s.seat.me.0.refuted s.seat.me.0.cut };

    ghost invariant = { λ s. Sits s.seen s.posts s.branches s.seat.me };
}

/// A seat of the underlying table that stands for all workers without a seat of their own. `left`
/// is the number of these workers.
#[derive(Drop)]
struct Unseated {
    seat: Seat<(), SeatView>,
    left: u32,
}

/// The final values of a closed board's three words.
#[derive(Clone, Copy)]
struct Words {
    least: u32,
    refuted: u32,
    cut: u32,
}

impl BoardSeat {
    /// Returns the number that this seat has seen: the least posted branch at its last look or
    /// post, or the number of branches if none was posted.
    pub fn seen(&self) -> u32
        ensures { result ≡ self.now.seen }
    {
        self.seen
    }
}

impl Board {
    /// Creates a board, and a seat for each worker.
    ///
    /// There must be at least one worker, and `branches * workers` must be below 2^32.
    ///
    /// # Errors
    ///
    /// Returns `AllocError` if memory runs out.
    pub fn make(
        alloc: Global,
        branches: u32,
        workers: u32,
    ) -> Result<(Board, Vec<BoardSeat>), AllocError>
        requires { MayHave branches workers }
        ensures board { IfOk result (λ m. HasSize branches workers m.0) }
        ensures seats { IfOk result (λ m. AreFresh m.0 workers m.1.items) }
    {
        let (board, rest) = Board::open(alloc, branches, workers)?;
        let seats = board.split_seats(alloc, rest)?;
        Ok((board, seats))
    }

    /// Returns the least posted branch, or the number of branches if none is posted, and records it
    /// in `seat` as seen. It is one atomic load.
    pub fn least(&self, seat: &mut BoardSeat) -> u32
        requires { seat.old.table ≡ self.now.table }
        ensures looked { seat.new ≡ looked seat.old result }
        ensures low { IsLow seat.old result }
    {
        let found = self.table.shared.load::<Look>(&mut seat.seat, 0);
        seat.seen = found as u32;
        seat.seen
    }

    /// Posts `branch`, which has a map, and returns the least posted branch, which is at most
    /// `branch`. The result is recorded in `seat` as seen. It is one atomic minimum.
    ///
    /// `branch` must be a branch of this board that `seat` has not settled before.
    pub fn post(&self, seat: &mut BoardSeat, branch: u32) -> u32
        requires board { IsSeatOf self.now seat.old }
        requires branch { MaySettle self.now seat.old branch }
        ensures posted { seat.new ≡ posted seat.old branch result }
        ensures branch { result ≤ branch }
        ensures low { IsLow seat.old result }
    {
        let found = self
            .table
            .shared
            .fetch_min::<Post>(&mut seat.seat, 0, u64::from(branch));
        seat.seen = found.min(u64::from(branch)) as u32;
        seat.posts += 1;
        seat.seen
    }

    /// Counts `branch` as searched and without a map. It is one atomic addition.
    ///
    /// `branch` must be a branch of this board that `seat` has not settled before.
    pub fn searched(&self, seat: &mut BoardSeat, branch: u32)
        requires board { IsSeatOf self.now seat.old }
        requires branch { MaySettle self.now seat.old branch }
        ensures { seat.new ≡ searched seat.old branch }
    {
        self.add_refuted::<Brand>(seat, branch);
    }

    /// Counts `branch` as cut: it needs no search, because `seat` has seen a lower branch posted.
    /// It is one atomic addition.
    ///
    /// `branch` must be a branch of this board that `seat` has not settled before.
    pub fn cut(&self, seat: &mut BoardSeat, branch: u32)
        requires board { IsSeatOf self.now seat.old }
        requires branch { MaySettle self.now seat.old branch }
        requires below { seat.old.seen < branch }
        ensures { seat.new ≡ is_cut seat.old branch }
    {
        self.add_cut::<Brand>(seat, branch);
    }

    /// Closes the board and returns the exact account of what all workers did. `seats` must be all
    /// seats of this board.
    pub fn finish(self, seats: Vec<BoardSeat>) -> Account
        requires { AreAllSeats self seats.items }
        ensures branches { result.branches ≡ self.branches }
        ensures least { IsLeast self.branches (all_posted seats.items) result.least }
        ensures searched { result.searched ≡ count_searched seats.items }
        ensures cut { result.cut ≡ length (all_cut seats.items) }
        ensures seen { HaveSeenPosts self seats.items }
    {
        let mut seats = seats;
        let Some(first) = seats.pop() else {
            unreachable!()
        };
        let branches = self.branches;
        let (all, posts) = self.join_seats(first, seats);
        let words = self.close(all);
        Account {
            branches,
            least: words.least,
            searched: posts + words.refuted,
            cut: words.cut,
        }
    }

    /// Creates a board, and one seat that stands for all its workers.
    fn open(alloc: Global, branches: u32, workers: u32) -> Result<(Board, Unseated), AllocError>
        requires { MayHave branches workers }
        ensures board { IfOk result (λ m. HasSize branches workers m.0) }
        ensures count { IfOk result (λ m. m.1.left ≡ workers) }
        ensures rest { IfOk result (λ m. IsLeft m.0 m.1.seat.table_id m.1.seat.me m.1.left) }
    {
        let (table, seat) = Table::of_words(
            alloc,
            &[u64::from(branches), 0, 0],
            &Ledger { branches, workers },
        )?;
        let board = Board {
            table,
            branches,
            workers,
        };
        let rest = Unseated {
            seat,
            left: workers,
        };
        Ok((board, rest))
    }

    /// Splits `rest` into one seat for each worker that it stands for.
    fn split_seats(&self, alloc: Global, mut rest: Unseated) -> Result<Vec<BoardSeat>, AllocError>
        requires some { 0 < rest.left }
        requires rest { IsLeft self.now rest.seat.table_id rest.seat.me rest.left }
        ensures { IfOk result (λ s. AreFresh self.now rest.left s.items) }
    {
        let mut seats = Vec::new(alloc);
        while rest.left > 1 {
            seats.push(self.split_seat(&mut rest))?;
        }
        let Unseated { seat, left: _ } = rest;
        seats.push(self.seat_of(seat))?;
        Ok(seats)
    }

    /// Splits a seat for one worker off `rest`, which must stand for at least two.
    fn split_seat(&self, rest: &mut Unseated) -> BoardSeat
        requires some { 1 < rest.old.left }
        requires rest { IsLeft self.now rest.old.seat.table_id rest.old.seat.me rest.old.left }
        ensures count { rest.new.left + 1 ≡ rest.old.left }
        ensures rest { IsLeft self.now rest.new.seat.table_id rest.new.seat.me rest.new.left }
        ensures seat { result ≡ fresh_desk self.now }
    {
        let seat = self.table.shared.split_seat::<Hand>(&mut rest.seat);
        rest.left -= 1;
        self.seat_of(seat)
    }

    /// Wraps `seat`, which stands for one worker, as a board seat that has done nothing yet.
    fn seat_of(&self, seat: Seat<(), SeatView>) -> BoardSeat
        requires { IsLeft self.now seat.table_id seat.me 1 }
        ensures { result ≡ fresh_desk self.now }
    {
        BoardSeat {
            seat,
            branches: self.branches,
            seen: self.branches,
            posts: 0,
        }
    }

    /// Adds one to the number of refuted branches. The type `J` says in proofs that it is for
    /// `branch`.
    fn add_refuted<J: About>(&self, seat: &mut BoardSeat, branch: u32)
        requires picked { J.branch ≡ branch }
        requires board { IsSeatOf self.now seat.old }
        requires branch { MaySettle self.now seat.old branch }
        ensures { seat.new ≡ searched seat.old branch }
    {
        self.table
            .shared
            .fetch_add::<Refute<J>>(&mut seat.seat, 1, 1);
    }

    /// Adds one to the number of cut branches. The type `J` says in proofs that it is for `branch`.
    fn add_cut<J: About>(&self, seat: &mut BoardSeat, branch: u32)
        requires picked { J.branch ≡ branch }
        requires board { IsSeatOf self.now seat.old }
        requires branch { MaySettle self.now seat.old branch }
        requires below { seat.old.seen < branch }
        ensures { seat.new ≡ is_cut seat.old branch }
    {
        self.table.shared.fetch_add::<Cut<J>>(&mut seat.seat, 2, 1);
    }

    /// Joins all `seats` into `first`, so that one seat knows what all of them did. Also returns
    /// the total number of posts.
    fn join_seats(&self, first: BoardSeat, seats: Vec<BoardSeat>) -> (Seat<(), SeatView>, u32)
        requires seats { AreSeats self.now (seats.items ++ first ∷ []) }
        requires room { length (seats.items ++ first ∷ []) * self.now.branches < 2 ^ 32 }
        ensures { (result.0.table_id ≡ self.now.table)
            × (result.0.me ≡ (gathered (seats.items ++ first ∷ []), []))
            × (result.1 ≡ length (all_posted (seats.items ++ first ∷ []))) }
    {
        let BoardSeat {
            seat: mut all,
            branches: _,
            seen: _,
            mut posts,
        } = first;
        let mut seats = seats;
        while let Some(next) = seats.pop() {
            let BoardSeat {
                seat,
                branches: _,
                seen: _,
                posts: more,
            } = next;
            self.table.shared.join_seat::<GatherSeats>(&mut all, seat);
            posts += more;
        }
        (all, posts)
    }

    /// Closes the board and returns its words. `all` must be the seat that stands for every worker.
    fn close(self, all: Seat<(), SeatView>) -> Words
        requires { (all.table_id ≡ self.table) × (length all.me.0.seen ≡ self.workers) }
        ensures { Ends self.branches self.workers all.me.0 result.least result.refuted result.cut }
    {
        let Board {
            table,
            branches: _,
            workers: _,
        } = self;
        let closed = table.close_with(all);
        let least = closed.word(0);
        let refuted = closed.word(1);
        let cut = closed.word(2);
        closed.free();
        Words {
            least: least as u32,
            refuted: refuted as u32,
            cut: cut as u32,
        }
    }
}
