//! Solves a problem in one thread or several, and assembles the answer from those of its branches.

ghost use Rattle.std.specs.Prelude.{◌≡◌, ◌+◌, ◌*◌, ◌^◌, ◌<◌, ◌≤◌, map, length, All, IfNone, IfOk, IfSome, OnOk};
ghost use Rattle.wf_model.specs.Limits.{most_workers};
ghost use Rattle.wf_model.specs.Outline.{boxes_left_out};
ghost use Rattle.wf_board.specs.Desk.{fresh_desk};
ghost use Rattle.wf_model.specs.Box.{root};
ghost use Rattle.wf_box.specs.Boxes.{ServeFor};
ghost use Rattle.wf_pool.specs.Branches.{AreLinesOf, HasEachLines, IsCoverOf, LeadIfKept, LeadInRoot, branch_count};
ghost use Rattle.wf_pool.specs.declared.answer.KeptLines.TheVariants as keep;
ghost use Rattle.wf_pool.specs.Work.{AreAllBut, AreAllSettled, AreToSettle, AreWorkers, HasSettledEach, IsFresh};
ghost use Rattle.wf_pool.specs.Sites.{AreWorkersOf, IsWorkerOf};
ghost use Rattle.wf_pool.specs.Together.{Tells};
ghost use Rattle.wf_pool.specs.Answers.{IsAnswer, IsAnswerAt, HasAccount, HasBranchAnswer, IsInOrder};
ghost use Rattle.wf_pool.specs.Turns.{AskedWithin, TakesMore};

use crate::answer::{AllFinds, Answer, BranchAnswer, KeptLines, in_order, map_of, split_seats};
use crate::crew::{CrewMembers, crew};
use crate::finding::{SearchSpec, search_box};
use crate::gate::{Gate, Moment, Open};
use crate::shared::SharedState;
use crate::watch::{ObservedStop, TurnLimit, settle};
use crate::worker::{Finds, Worker};
use std::alloc::{AllocError, Global};
use std::thread::Threads;
use wf_base::lines::Lines;
use wf_board::{Board, BoardSeat};
use wf_box::{Box0, BoxCache, Problem};
use wf_core::Account;
use wf_handout::Handout;
use wf_search::{Cover, Found, Never, Stop, split_with};

/// Largest number of workers that [`solve`] accepts.
pub const MAX_WORKERS: u32 = 64;

/// Solves the problem of `spec` with up to `workers` workers, from 1 to [`MAX_WORKERS`], and
/// returns the answer with the account of their work. It is the answer of [`solve_one`] in any
/// schedule: the same map, or none, with the same lines, as far as they are kept.
///
/// No more workers are used than there are branches. The calling thread does the work of the first
/// one. Each other worker has a thread of its own, unless `gate` forbids it or no thread can be
/// had: then the calling thread does that worker's work after its own. The handout `H` decides who
/// searches which branch, and the calling thread searches at the end the branches that no worker
/// has taken. Lines that are not kept are freed as soon as their branch is searched.
///
/// # Errors
///
/// Returns `AllocError` if memory runs out. A worker that gets no memory stops, and the others go
/// on; the error is returned once all have ended.
pub fn solve<R: Threads + Sync, H: Handout, G: Gate>(
    rt: &R,
    alloc: Global,
    spec: SearchSpec,
    workers: u32,
    gate: &G,
) -> Result<(Answer, Account), AllocError>
    requires { (0 < workers) × (workers ≤ most_workers) }
    ensures answer { let q = spec.entry in IfOk result (λ r. IsAnswer q.problem.now q.kept r.0) }
    ensures account { IfOk result (λ r. HasAccount spec.entry.problem.now r.0 r.1) }
{
    let mut answers = BoxCache::new(alloc);
    let cover = branches_of(alloc, spec.problem, &mut answers)?;
    let branches = cover.branches();
    let used = workers.min(branches).max(1);
    gate.branches(branches);
    let (board, seats) = Board::make(alloc, branches, used)?;
    let shared = SharedState {
        spec,
        cover: &cover,
        board: &board,
        gate,
    };
    let workers = search_all::<R, H, G>(rt, alloc, shared, seats)?;
    let (account, finds) = finish(alloc, spec, board, workers)?;
    let answer = answer_of(alloc, spec, &cover, finds, account)?;
    Ok((answer, account))
}

/// Solves `problem` in the calling thread, and returns the answer with the account of the search.
/// It searches the branches in order, up to the first with a map, whose map is the least of all.
///
/// The lines of the answer are those of the searched branches, at their places among the lines of
/// the root. Lines that are not kept are freed as soon as their branch is searched.
///
/// # Errors
///
/// Returns `AllocError` if memory runs out.
pub fn solve_one(
    alloc: Global,
    problem: &Problem,
    kept: KeptLines,
) -> Result<(Answer, Account), AllocError>
    ensures answer { IfOk result (λ r. IsAnswer problem.now kept r.0) }
    ensures account { IfOk result (λ r. HasAccount problem.now r.0 r.1) }
    ensures in_order { IfOk result (λ r. IsInOrder r.0 r.1) }
{
    solve_one_watched(alloc, problem, kept, &Open)
}

/// Solves `problem` like [`solve_one`]. The observer `gate` is called for the search as that of
/// worker 0.
///
/// # Errors
///
/// Returns `AllocError` if memory runs out.
pub fn solve_one_watched<G: Gate>(
    alloc: Global,
    problem: &Problem,
    kept: KeptLines,
    gate: &G,
) -> Result<(Answer, Account), AllocError>
    ensures answer { IfOk result (λ r. IsAnswer problem.now kept r.0) }
    ensures account { IfOk result (λ r. HasAccount problem.now r.0 r.1) }
    ensures in_order { IfOk result (λ r. IsInOrder r.0 r.1) }
{
    let spec = SearchSpec { problem, kept };
    let mut answers = BoxCache::new(alloc);
    let cover = branches_of(alloc, problem, &mut answers)?;
    let branches = cover.branches();
    gate.branches(branches);
    let mut lists = Vec::with_capacity(alloc, branches as usize)?;
    for branch in 0..branches {
        let told = ObservedStop { gate, branch };
        match search_whole(alloc, spec, &cover, told, &mut answers)? {
            Answer::Map(map, own) => {
                let account = Account {
                    branches,
                    least: branch,
                    searched: branch + 1,
                    cut: branches - branch - 1,
                };
                let lines = lines_to_map(alloc, spec, &cover, lists, own)?;
                return Ok((Answer::Map(map, lines), account));
            }
            Answer::Nothing(lines) => lists.push(lines)?,
        }
    }
    let lines = lines_of_none(alloc, spec, &cover, lists)?;
    let account = Account {
        branches,
        least: branches,
        searched: branches,
        cut: 0,
    };
    Ok((Answer::Nothing(lines), account))
}

/// Solves `problem` in the calling thread by one search of its root, which is not cut into
/// branches. Returns the answer of [`solve_one`], without an account.
///
/// # Errors
///
/// Returns `AllocError` if memory runs out.
pub fn solve_root(alloc: Global, problem: &Problem, kept: KeptLines) -> Result<Answer, AllocError>
    ensures { IfOk result (IsAnswer problem.now kept) }
{
    match search_root(alloc, SearchSpec { problem, kept }, &mut Never)? {
        Some(answer) => Ok(answer),
        None => unreachable!(),
    }
}

/// Solves `problem` like [`solve_root`], if the search takes at most `turns` turns. Returns `None`
/// if it takes more. A turn closes one box.
///
/// # Errors
///
/// Returns `AllocError` if memory runs out.
pub fn solve_within(
    alloc: Global,
    problem: &Problem,
    kept: KeptLines,
    turns: u32,
) -> Result<Option<Answer>, AllocError>
    ensures answer { IfOk result (λ found. IfSome found (IsAnswer problem.now kept)) }
    ensures none { IfOk result (λ found. IfNone found (TakesMore problem.now turns)) }
{
    let spec = SearchSpec { problem, kept };
    let mut limit = TurnLimit::of(turns);
    search_root(alloc, spec, &mut limit)
}

/// Solves the problem of `spec` by one search of its root. Returns `None` if `stop` ends the
/// search.
fn search_root<S: Stop>(
    alloc: Global,
    spec: SearchSpec,
    stop: &mut S,
) -> Result<Option<Answer>, AllocError>
    ensures answer { let q = spec.entry in
        IfOk result (λ found. IfSome found (IsAnswer q.problem.now q.kept)) }
    ensures asked { let p = spec.entry.problem.now in OnOk result
        (AskedWithin p (root p) (λ n. S.asked n stop.old stop.new)) }
    ensures stopped { IfOk result (λ found. IfNone found (S.is_stopped stop.new)) }
{
    let root = Box0::root(alloc, spec.problem)?;
    let mut answers = BoxCache::new(alloc);
    match search_box(alloc, spec, root, stop, &mut answers)? {
        Found::Map(map, lines) => Ok(Some(Answer::Map(map, lines))),
        Found::Refuted(lines) => Ok(Some(Answer::Nothing(lines))),
        Found::Stopped => Ok(None),
    }
}

/// Searches the branch `branch`, numbered from 0, for its least decision map, in the calling
/// thread. No other branch is searched, so an earlier one may have a smaller map.
///
/// The observer `gate` is told that there is one branch to search, and is then called for the
/// search as that of worker 0.
///
/// # Errors
///
/// Returns `AllocError` if memory runs out.
pub fn solve_branch<G: Gate>(
    alloc: Global,
    problem: &Problem,
    kept: KeptLines,
    branch: u32,
    gate: &G,
) -> Result<BranchAnswer, AllocError>
    ensures { IfOk result (HasBranchAnswer problem.now kept branch) }
{
    let mut answers = BoxCache::new(alloc);
    let cover = branches_of(alloc, problem, &mut answers)?;
    let branches = cover.branches();
    if branch >= branches {
        return Ok(BranchAnswer::Missing(branches));
    }
    gate.branches(1);
    let spec = SearchSpec { problem, kept };
    let told = ObservedStop { gate, branch };
    let answer = search_whole(alloc, spec, &cover, told, &mut answers)?;
    Ok(BranchAnswer::Answered(answer, branches))
}

/// Splits the root of `problem` into branches. The results of the kernel are added to the cache
/// `answers`, for the searches of the branches.
fn branches_of(
    alloc: Global,
    problem: &Problem,
    answers: &mut BoxCache,
) -> Result<Cover, AllocError>
    requires { ServeFor problem.now answers.old }
    ensures cover { IfOk result (IsCoverOf problem.now) }
    ensures answers { OnOk result (ServeFor problem.now answers.new) }
{
    // only for the proof: this call makes the invariant of every problem known
    let _points = problem.points();
    split_with(alloc, problem, answers)
}

/// Searches the branch `told.branch` to its end, and notifies the observer `told.gate` when it
/// begins and ends. Keeps the lines that `spec` asks for. Uses the kernel cache `answers`, and
/// adds new results to it.
fn search_whole<G: Gate>(
    alloc: Global,
    spec: SearchSpec,
    cover: &Cover,
    told: ObservedStop<G>,
    answers: &mut BoxCache,
) -> Result<Answer, AllocError>
    requires cover { IsCoverOf spec.problem.now cover.now }
    requires branch { told.branch < length (boxes_left_out cover.now) }
    requires answers { ServeFor spec.problem.now answers.old }
    ensures branch { let q = spec.entry in
        IfOk result (IsAnswerAt q.problem.now q.kept told.entry.branch) }
    ensures answers { ServeFor spec.entry.problem.now answers.new }
{
    let mut told = told;
    told.gate.at(0, Moment::Taken(told.branch));
    let boxed = cover.branch(alloc, told.branch)?;
    let found = search_box(alloc, spec, boxed, &mut told, answers)?;
    told.gate.at(0, Moment::Settled(told.branch));
    match found {
        Found::Map(map, lines) => Ok(Answer::Map(map, lines)),
        Found::Refuted(lines) => Ok(Answer::Nothing(lines)),
        Found::Stopped => unreachable!(),
    }
}

/// Returns the lines of the root search that lead to the map of a branch if all lines are kept, and
/// otherwise `own`. `below` has the lines of each earlier branch, and `own` those of the branch.
fn lines_to_map(
    alloc: Global,
    spec: SearchSpec,
    cover: &Cover,
    below: Vec<Lines>,
    own: Lines,
) -> Result<Lines, AllocError>
    requires cover { IsCoverOf spec.problem.now cover.now }
    requires branch { length below.items < branch_count spec.problem.now }
    requires below { let n = length below.items in
        HasEachLines spec.problem.now spec.kept n below.items }
    ensures { let q = spec.entry in let n = length below.items in
        IfOk result (λ ls. LeadIfKept q.problem.now q.kept n own.items ls.items) }
{
    match spec.kept {
        KeptLines::All => join_lines_to_map(alloc, spec.problem, cover, below, own),
        KeptLines::Refuting | KeptLines::Neither => Ok(own),
    }
}

/// Returns the lines of the root search that lead to the map of a branch. `below` has the lines of
/// each earlier branch, and `own` those of the branch itself.
fn join_lines_to_map(
    alloc: Global,
    problem: &Problem,
    cover: &Cover,
    below: Vec<Lines>,
    own: Lines,
) -> Result<Lines, AllocError>
    requires cover { IsCoverOf problem.now cover.now }
    requires branch { length below.items < branch_count problem.now }
    requires below { HasEachLines problem.now keep.All (length below.items) below.items }
    ensures { let n = length below.items in
        IfOk result (λ ls. LeadInRoot problem.now n own.items ls.items) }
{
    let mut lists = below;
    lists.push(own)?;
    cover.fill_least(alloc, lists)
}

/// Returns the lines that refute the root, made from `lists`, the lines of all branches in order,
/// or no lines if they are not kept.
fn lines_of_none(
    alloc: Global,
    spec: SearchSpec,
    cover: &Cover,
    lists: Vec<Lines>,
) -> Result<Lines, AllocError>
    requires cover { IsCoverOf spec.problem.now cover.now }
    requires count { length lists.items ≡ branch_count spec.problem.now }
    requires lists { let n = branch_count spec.problem.now in
        HasEachLines spec.problem.now spec.kept n lists.items }
    ensures { let q = spec.entry in
        IfOk result (λ ls. AreLinesOf q.problem.now q.kept (root q.problem.now) ls.items) }
{
    match spec.kept {
        KeptLines::All | KeptLines::Refuting => cover.fill(alloc, lists),
        KeptLines::Neither => Ok(Vec::new(alloc)),
    }
}

/// Settles all branches with one worker for each of `seats`.
fn search_all<R: Threads + Sync, H: Handout, G: Gate>(
    rt: &R,
    alloc: Global,
    shared: SharedState<G>,
    seats: Vec<BoardSeat>,
) -> Result<Vec<Worker>, AllocError>
    requires count { length seats.items ≡ shared.board.now.workers }
    requires seats { All (λ d. d ≡ fresh_desk shared.board.now) seats.items }
    requires some { (0 < shared.board.now.workers) × (shared.board.now.workers < 2 ^ 32) }
    requires few { shared.board.now.branches * shared.board.now.workers < 2 ^ 32 }
    ensures count { IfOk result (λ ws. length ws.items ≡ shared.entry.board.now.workers) }
    ensures workers { IfOk result (λ ws. AreWorkersOf shared.entry ws.items) }
    ensures settled { IfOk result (λ ws. AreAllSettled shared.entry.board.now ws.items) }
{
    let (handout, shares) = H::deal(alloc, shared.cover.branches(), seats.len() as u32)?;
    let workers = fresh_workers(alloc, shared.spec, shared.board, seats)?;
    let members = CrewMembers { workers, shares };
    let CrewMembers { workers, shares } = crew(rt, alloc, &shared, &handout, members)?;
    let left = handout.finish(alloc, shares)?;
    settle_left(alloc, &shared, workers, left.as_slice())
}

/// Creates a worker for each seat, with an empty kernel cache, that has found nothing yet.
fn fresh_workers(
    alloc: Global,
    spec: SearchSpec,
    board: &Board,
    seats: Vec<BoardSeat>,
) -> Result<Vec<Worker>, AllocError>
    requires { All (λ d. d ≡ fresh_desk board.now) seats.items }
    ensures count { IfOk result (λ ws. length ws.items ≡ length seats.items) }
    ensures workers { IfOk result (λ ws.
        All (IsFresh spec.entry.problem.now spec.entry.kept board.now) ws.items) }
{
    let mut workers = Vec::with_capacity(alloc, seats.len())?;
    let mut seats = seats;
    while let Some(seat) = seats.pop() {
        workers.push(Worker {
            seat,
            finds: Finds {
                map: None,
                lines: Vec::new(alloc),
            },
            answers: BoxCache::new(alloc),
        })?;
    }
    Ok(workers)
}

/// Lets the first worker settle the branches `left`, which no worker has taken. The first worker
/// comes last in the returned list.
fn settle_left<G: Gate>(
    alloc: Global,
    shared: &SharedState<G>,
    workers: Vec<Worker>,
    left: &[u32],
) -> Result<Vec<Worker>, AllocError>
    requires some { 0 < length workers.items }
    requires workers { AreWorkersOf shared.now workers.items }
    requires left { AreAllBut shared.now.board.now left.now workers.items }
    ensures count { IfOk result (λ ws. length ws.items ≡ length workers.items) }
    ensures workers { IfOk result (λ ws. AreWorkersOf shared.now ws.items) }
    ensures settled { IfOk result (λ ws. AreAllSettled shared.now.board.now ws.items) }
{
    let mut workers = workers;
    let first = workers.remove(0);
    workers.push(settle_each(alloc, shared, first, left)?)?;
    Ok(workers)
}

/// Lets the worker `first` settle the branches `left`, as worker 0.
fn settle_each<G: Gate>(
    alloc: Global,
    shared: &SharedState<G>,
    first: Worker,
    left: &[u32],
) -> Result<Worker, AllocError>
    requires worker { IsWorkerOf shared.now first }
    requires left { AreToSettle shared.now.board.now first.seat left.now }
    ensures worker { IfOk result (IsWorkerOf shared.now) }
    ensures settled { IfOk result (HasSettledEach left.now first) }
{
    let mut me = first;
    for branch in left {
        me = settle(alloc, shared, 0, me, *branch)?;
    }
    Ok(me)
}

/// Closes `board`, and returns its counts of branches with what the workers found.
fn finish(
    alloc: Global,
    spec: SearchSpec,
    board: Board,
    workers: Vec<Worker>,
) -> Result<(Account, AllFinds), AllocError>
    requires count { length workers.items ≡ board.workers }
    requires workers { AreWorkers spec.problem.now spec.kept board workers.items }
    requires settled { AreAllSettled board workers.items }
    ensures branches { IfOk result (λ r. r.0.branches ≡ board.branches) }
    ensures tells { IfOk result (λ r. Tells spec.entry.problem.now spec.entry.kept r.0 r.1) }
{
    let (seats, finds) = split_seats(alloc, workers)?;
    Ok((board.finish(seats), finds))
}

/// Makes the answer: the map of the least branch that has one, or that there is none, with the
/// lines of the root if they are kept.
fn answer_of(
    alloc: Global,
    spec: SearchSpec,
    cover: &Cover,
    finds: AllFinds,
    account: Account,
) -> Result<Answer, AllocError>
    requires cover { IsCoverOf spec.problem.now cover.now }
    requires branches { account.branches ≡ branch_count spec.problem.now }
    requires tells { Tells spec.problem.now spec.kept account finds }
    ensures answer { IfOk result (IsAnswer spec.entry.problem.now spec.entry.kept) }
    ensures account { IfOk result (λ a. HasAccount spec.entry.problem.now a account) }
{
    if account.least < account.branches {
        return map_answer(alloc, spec, cover, finds, account);
    }
    match spec.kept {
        KeptLines::All | KeptLines::Refuting => {
            let lists = in_order(alloc, spec, finds.lines, account.branches)?;
            Ok(Answer::Nothing(cover.fill(alloc, lists)?))
        }
        KeptLines::Neither => Ok(Answer::Nothing(Vec::new(alloc))),
    }
}

/// Makes the answer from the map of the least branch, with the lines that lead to it if they are
/// kept.
fn map_answer(
    alloc: Global,
    spec: SearchSpec,
    cover: &Cover,
    finds: AllFinds,
    account: Account,
) -> Result<Answer, AllocError>
    requires cover { IsCoverOf spec.problem.now cover.now }
    requires branches { account.branches ≡ branch_count spec.problem.now }
    requires tells { Tells spec.problem.now spec.kept account finds }
    requires some { account.least < account.branches }
    ensures answer { IfOk result (IsAnswer spec.entry.problem.now spec.entry.kept) }
    ensures account { IfOk result (λ a. HasAccount spec.entry.problem.now a account) }
{
    let AllFinds { maps, lines } = finds;
    let (map, own) = map_of(spec, maps, account.least);
    match spec.kept {
        KeptLines::All => {
            let below = in_order(alloc, spec, lines, account.least)?;
            let lines = join_lines_to_map(alloc, spec.problem, cover, below, own)?;
            Ok(Answer::Map(map, lines))
        }
        KeptLines::Refuting | KeptLines::Neither => Ok(Answer::Map(map, own)),
    }
}
