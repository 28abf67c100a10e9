//! Tests of the board in one thread, in a known order, and in four threads, in any order.

ghost use Rattle.std.specs.Prelude.{ℕ, ◌≡◌, ◌+◌, ◌<◌, length, All};
ghost use Rattle.std.specs.Thread.{IsSync};
ghost use Rattle.wf_core.specs.Count.{times};
ghost use Rattle.wf_core.specs.declared.event.Status.TheVariants.{Free};
ghost use Rattle.wf_board.specs.Desk.{fresh_desk, settled};

use std::alloc::{AllocError, Global};
use std::test::Fail;
use std::thread::{Threads, join};
use wf_board::{Board, BoardSeat};
use wf_core::{Account, Status};

const BRANCHES: u32 = 64;

/// Removes the last of `seats` and returns it. All of them are fresh seats of `board`.
fn next_seat(board: &Board, seats: &mut Vec<BoardSeat>) -> BoardSeat
    requires { (0 < length seats.old.items) × All (λ d. d ≡ fresh_desk board.now) seats.old.items }
    ensures seat { result ≡ fresh_desk board.now }
    ensures rest { (length seats.new.items + 1 ≡ length seats.old.items)
        × All (λ d. d ≡ fresh_desk board.now) seats.new.items }
{
    seats.pop().unwrap()
}

/// Finishes `board`, whose two seats are `first` and `second`, and returns its account.
fn account_of(
    alloc: Global,
    board: Board,
    first: BoardSeat,
    second: BoardSeat,
) -> Result<Account, AllocError>
    requires { (board.workers ≡ 2) × (first.table ≡ board.table) × (first.branches ≡ board.branches)
        × (second.table ≡ board.table) × (second.branches ≡ board.branches) }
{
    let mut seats = Vec::new(alloc);
    seats.push(first)?;
    seats.push(second)?;
    Ok(board.finish(seats))
}

/// Checks that a look or a post returns the least branch that any seat has posted.
#[test]
fn a_look_shows_what_others_posted(rt: HostRuntime) -> Result<(), Fail> {
    let (board, mut seats) = Board::make(rt.alloc(), 3, 2)?;
    let mut a = next_seat(&board, &mut seats);
    let mut b = next_seat(&board, &mut seats);
    let seen = [
        board.least(&mut a),
        board.post(&mut a, 2),
        board.least(&mut b),
        board.post(&mut b, 0),
        board.least(&mut a),
        board.post(&mut a, 1),
    ];
    let account = account_of(rt.alloc(), board, a, b)?;
    let wanted = Account {
        branches: 3,
        least: 0,
        searched: 3,
        cut: 0,
    };
    assert_eq!(rt; (seen, account), ([3, 2, 2, 0, 0, 0], wanted));
    Ok(())
}

/// Checks that the account counts posts, refutations and cuts.
#[test]
fn counts_posts_refutals_and_cuts(rt: HostRuntime) -> Result<(), Fail> {
    let (board, mut seats) = Board::make(rt.alloc(), 3, 2)?;
    let mut a = next_seat(&board, &mut seats);
    let mut b = next_seat(&board, &mut seats);
    let seen = [board.post(&mut a, 0), board.least(&mut b)];
    assert!(rt; b.seen() < 1);
    board.cut(&mut b, 1);
    board.searched(&mut a, 2);
    let account = account_of(rt.alloc(), board, a, b)?;
    let wanted = Account {
        branches: 3,
        least: 0,
        searched: 2,
        cut: 1,
    };
    assert_eq!(rt; (seen, account), ([0, 0], wanted));
    Ok(())
}

/// The way in which a worker settles its sixteen branches.
#[derive(Clone, Copy)]
enum Plan {
    // posts each branch
    Post,
    // looks first, and cuts a branch above the least posted one; otherwise posts every third
    // branch, and refutes the others
    Search,
}

/// A worker with its seat and its plan.
#[derive(Drop)]
struct Job {
    worker: u32,
    seat: BoardSeat,
    plan: Plan,
}

/// The seat of a worker that is done, and the status of each branch: `Free` for those of other
/// workers.
#[derive(Drop)]
struct Worked {
    seat: BoardSeat,
    statuses: [Status; 64],
}

/// Settles `branch` as `plan` says, and returns its status.
fn settle(board: &Board, seat: &mut BoardSeat, branch: u32, plan: Plan) -> Status
    requires board { (seat.old.table ≡ board.now.table) × (seat.old.branches ≡ board.now.branches) }
    requires branch { (branch < board.now.branches) × (times branch (settled seat.old) ≡ 0) }
    ensures seat { (seat.new.table ≡ seat.old.table) × (seat.new.branches ≡ seat.old.branches) }
    ensures settled { (x : ℕ) → ¬ (x ≡ branch)
        → times x (settled seat.new) ≡ times x (settled seat.old) }
    ensures status { ¬ (result ≡ Free) }
{
    if matches!(plan, Plan::Post) {
        board.post(seat, branch);
        return Status::Posted;
    }
    if board.least(seat) < branch {
        board.cut(seat, branch);
        return Status::Cut;
    }
    if branch % 3 == 2 {
        board.post(seat, branch);
        return Status::Posted;
    }
    board.searched(seat, branch);
    Status::Refuted
}

/// Settles every fourth branch, from `worker` on, in scattered order.
fn work(board: &Board, job: Job) -> Worked
    requires { (board.now.branches ≡ BRANCHES) × (job.worker < 4)
        × (job.seat ≡ fresh_desk board.now) }
    ensures { (result.seat.table ≡ board.now.table) × (result.seat.branches ≡ board.now.branches) }
{
    let Job {
        worker,
        mut seat,
        plan,
    } = job;
    let mut statuses = [Status::Free; 64];
    for turn in 0..16 {
        let branch = (5 * turn + 3) % 16 * 4 + worker;
        let Status::Free = statuses[branch as usize] else {
            continue;
        };
        statuses[branch as usize] = settle(board, &mut seat, branch, plan);
    }
    Worked { seat, statuses }
}

/// Runs two workers at once.
fn two<R: Threads + Sync>(rt: &R, board: &Board, first: Job, second: Job) -> (Worked, Worked)
    requires board { board.now.branches ≡ BRANCHES }
    requires first { (first.worker < 4) × (first.seat ≡ fresh_desk board.now) }
    requires second { (second.worker < 4) × (second.seat ≡ fresh_desk board.now) }
    ensures first { (result.0.seat.table ≡ board.now.table)
        × (result.0.seat.branches ≡ board.now.branches) }
    ensures second { (result.1.seat.table ≡ board.now.table)
        × (result.1.seat.branches ≡ board.now.branches) }
{
    join(rt, move || work(board, first), move || work(board, second))
}

/// Runs all four workers at once.
fn four<R: Threads + Sync>(
    rt: &R,
    board: &Board,
    first: Job,
    second: Job,
    third: Job,
    fourth: Job,
) -> ((Worked, Worked), (Worked, Worked))
    requires board { board.now.branches ≡ BRANCHES }
    requires first { (first.worker < 4) × (first.seat ≡ fresh_desk board.now) }
    requires second { (second.worker < 4) × (second.seat ≡ fresh_desk board.now) }
    requires third { (third.worker < 4) × (third.seat ≡ fresh_desk board.now) }
    requires fourth { (fourth.worker < 4) × (fourth.seat ≡ fresh_desk board.now) }
    ensures first { (result.0.0.seat.table ≡ board.now.table)
        × (result.0.0.seat.branches ≡ board.now.branches) }
    ensures second { (result.0.1.seat.table ≡ board.now.table)
        × (result.0.1.seat.branches ≡ board.now.branches) }
    ensures third { (result.1.0.seat.table ≡ board.now.table)
        × (result.1.0.seat.branches ≡ board.now.branches) }
    ensures fourth { (result.1.1.seat.table ≡ board.now.table)
        × (result.1.1.seat.branches ≡ board.now.branches) }
{
    join(
        rt,
        move || -> (Worked, Worked)
            requires { IsSync R.row × (board.now.branches ≡ BRANCHES) × (first.worker < 4)
                × (first.seat ≡ fresh_desk board.now) × (second.worker < 4)
                × (second.seat ≡ fresh_desk board.now) }
            ensures { (result.0.seat.table ≡ board.entry.now.table)
                × (result.0.seat.branches ≡ board.entry.now.branches)
                × (result.1.seat.table ≡ board.entry.now.table)
                × (result.1.seat.branches ≡ board.entry.now.branches) }
        { two(rt, board, first, second) },
        move || -> (Worked, Worked)
            requires { IsSync R.row × (board.now.branches ≡ BRANCHES) × (third.worker < 4)
                × (third.seat ≡ fresh_desk board.now) × (fourth.worker < 4)
                × (fourth.seat ≡ fresh_desk board.now) }
            ensures { (result.0.seat.table ≡ board.entry.now.table)
                × (result.0.seat.branches ≡ board.entry.now.branches)
                × (result.1.seat.table ≡ board.entry.now.table)
                × (result.1.seat.branches ≡ board.entry.now.branches) }
        { two(rt, board, third, fourth) },
    )
}

/// Runs four workers on a new board, and returns its account and the statuses of the branches by
/// worker.
fn run<R: Threads + Sync>(
    rt: &R,
    alloc: Global,
    plan: Plan,
) -> Result<(Account, [[Status; 64]; 4]), AllocError> {
    let (board, mut seats) = Board::make(alloc, BRANCHES, 4)?;
    let first = Job {
        worker: 0,
        seat: next_seat(&board, &mut seats),
        plan,
    };
    let second = Job {
        worker: 1,
        seat: next_seat(&board, &mut seats),
        plan,
    };
    let third = Job {
        worker: 2,
        seat: next_seat(&board, &mut seats),
        plan,
    };
    let fourth = Job {
        worker: 3,
        seat: next_seat(&board, &mut seats),
        plan,
    };
    let ((a, b), (c, d)) = four(rt, &board, first, second, third, fourth);
    let Worked {
        seat: a,
        statuses: of_a,
    } = a;
    let Worked {
        seat: b,
        statuses: of_b,
    } = b;
    let Worked {
        seat: c,
        statuses: of_c,
    } = c;
    let Worked {
        seat: d,
        statuses: of_d,
    } = d;
    let mut seats = Vec::new(alloc);
    seats.push(a)?;
    seats.push(b)?;
    seats.push(c)?;
    seats.push(d)?;
    let statuses = [of_a, of_b, of_c, of_d];
    Ok((board.finish(seats), statuses))
}

/// Computes the account from the statuses of the branches by worker.
fn counted(statuses: &[[Status; 64]; 4]) -> Account {
    let mut account = Account {
        branches: BRANCHES,
        least: BRANCHES,
        searched: 0,
        cut: 0,
    };
    for row in statuses {
        for (branch, status) in row.iter().enumerate() {
            match status {
                Status::Posted => {
                    account.searched = account.searched.wrapping_add(1);
                    account.least = account.least.min(branch as u32);
                }
                Status::Refuted => account.searched = account.searched.wrapping_add(1),
                Status::Cut => account.cut = account.cut.wrapping_add(1),
                Status::Free | Status::Held(_) => {}
            }
        }
    }
    account
}

/// Checks the account of four threads that post all branches.
#[test]
fn four_threads_post_all_branches(rt: HostRuntime) -> Result<(), Fail> {
    let wanted = Account {
        branches: 64,
        least: 0,
        searched: 64,
        cut: 0,
    };
    for _ in 0..100 {
        let (account, _) = run(&rt, rt.alloc(), Plan::Post)?;
        assert_eq!(rt; account, wanted);
    }
    Ok(())
}

/// Checks that the account agrees with what the threads saw, whatever order they ran in.
#[test]
fn the_account_is_exact_in_any_schedule(rt: HostRuntime) -> Result<(), Fail> {
    for _ in 0..1000 {
        let (account, statuses) = run(&rt, rt.alloc(), Plan::Search)?;
        let settled = account.searched.wrapping_add(account.cut);
        assert_eq!(rt; (account, settled), (counted(&statuses), BRANCHES));
    }
    Ok(())
}
