//! Tests of whole problems, searched by one worker and by several.

ghost use Rattle.std.specs.Prelude.{◌<◌, ◌≤◌};

use crate::holds::{Barred, Hold, Rule};
use crate::tasks::problem_of;
use std::alloc::{AllocError, Global};
use std::process::Abort;
use std::test::Fail;
use std::thread::Threads;
use wf_base::lines::{Line, Lines};
use wf_box::Problem;
use wf_core::Account;
use wf_examples::{AGREEMENT_3_2, CONSENSUS_2, PATH_2};
use wf_handout::{Counter, Handout, Stealing};
use wf_pool::{
    Answer, Gate, KeptLines, MAX_WORKERS, Open, SearchSpec, solve, solve_one, solve_within,
};

/// The line that removes a value of a process in an execution.
macro_rules! lost {
    ($execution:literal, $process:literal, $value:literal) => {
        Line::Remove {
            execution: $execution,
            process: $process,
            value: $value,
        }
    };
}

/// The least map of `PATH_2` after one round.
const MAP: &[u8] = &[0, 2, 1, 0];

/// The lines of the search of `PATH_2` after one round, which lead to [`MAP`].
const MAP_LINES: &[Line] = &[
    lost!(0, 0, 1),
    lost!(0, 0, 2),
    lost!(1, 1, 0),
    lost!(1, 1, 1),
    lost!(3, 1, 2),
    lost!(4, 0, 0),
    Line::Branch { point: 2 },
    Line::Branch { point: 3 },
    Line::Found,
];

/// The account of a search of `PATH_2` that searched the first of three branches and cut the
/// others.
const FIRST_ALONE: Account = Account {
    branches: 3,
    least: 0,
    searched: 1,
    cut: 2,
};

/// The lines that refute `CONSENSUS_2` after no round. Its root has no branches.
const CONSENSUS_LINES: &[Line] = &[
    lost!(0, 0, 1),
    lost!(1, 1, 0),
    lost!(2, 0, 0),
    Line::Empty { point: 0 },
];

const NO_BRANCHES: Account = Account {
    branches: 0,
    least: 0,
    searched: 0,
    cut: 0,
};

/// The account of `AGREEMENT_3_2` after one round, of whose branches none has a map.
const AGREEMENT_ACCOUNT: Account = Account {
    branches: 64,
    least: 64,
    searched: 64,
    cut: 0,
};

/// Returns the values of the map of `answer`, which are empty if there is none, and its lines.
fn parts_of(alloc: Global, answer: Answer) -> (Vec<u8>, Lines) {
    match answer {
        Answer::Map(values, lines) => (values, lines),
        Answer::Nothing(lines) => (Vec::new(alloc), lines),
    }
}

/// Tasks, numbers of rounds and which lines are kept, with the answer of one worker: the values of
/// the map, if there is one, the lines, and the account.
static ALONE: [(&str, u32, KeptLines, &[u8], &[Line], Account); 5] = [
    (PATH_2, 1, KeptLines::All, MAP, MAP_LINES, FIRST_ALONE),
    (PATH_2, 1, KeptLines::Refuting, MAP, &[], FIRST_ALONE),
    (PATH_2, 1, KeptLines::Neither, MAP, &[], FIRST_ALONE),
    (
        CONSENSUS_2,
        0,
        KeptLines::All,
        &[],
        CONSENSUS_LINES,
        NO_BRANCHES,
    ),
    (
        AGREEMENT_3_2,
        1,
        KeptLines::Neither,
        &[],
        &[],
        AGREEMENT_ACCOUNT,
    ),
];

/// Searches with one worker, and returns the values of the map, if there is one, the lines, and the
/// account.
fn run_alone(
    alloc: Global,
    task: &str,
    rounds: u32,
    kept: KeptLines,
) -> Result<(Vec<u8>, Lines, Account), Fail> {
    let problem = problem_of(alloc, task, rounds)?;
    let (answer, account) = solve_one(alloc, &problem, kept)?;
    let (values, lines) = parts_of(alloc, answer);
    Ok((values, lines, account))
}

/// Checks the answers of one worker, which stops at the first map.
#[test]
fn one_worker_alone(rt: HostRuntime) -> Result<(), Fail> {
    for (task, rounds, kept, values, lines, wanted) in ALONE {
        let (found_values, found_lines, account) = run_alone(rt.alloc(), task, rounds, kept)?;
        assert_eq!(rt;
            (found_values.as_slice(), found_lines.as_slice(), account),
            (values, lines, wanted),
            "{task} {kept:?}"
        );
    }
    Ok(())
}

/// The values of a map, which are empty if there is none, and the lines.
type Parts<'a> = (&'a [u8], &'a [Line]);

/// Tasks, numbers of rounds, which lines are kept and limits of turns, with the answer within the
/// limit. A turn ends with a line that removes no value: [`MAP_LINES`] has three of them, and
/// [`CONSENSUS_LINES`] one.
static WITHIN: [(&str, u32, KeptLines, u32, Option<Parts<'static>>); 6] = [
    (PATH_2, 1, KeptLines::All, 3, Some((MAP, MAP_LINES))),
    (PATH_2, 1, KeptLines::Neither, 4, Some((MAP, &[]))),
    (PATH_2, 1, KeptLines::All, 2, None),
    (
        CONSENSUS_2,
        0,
        KeptLines::Refuting,
        1,
        Some((&[], CONSENSUS_LINES)),
    ),
    (CONSENSUS_2, 0, KeptLines::Neither, 1, Some((&[], &[]))),
    (CONSENSUS_2, 0, KeptLines::Neither, 0, None),
];

/// Searches within `turns` turns, and returns the values of the map, if there is one, and the
/// lines, or `None` if the search takes more turns.
fn run_within(
    alloc: Global,
    task: &str,
    rounds: u32,
    kept: KeptLines,
    turns: u32,
) -> Result<Option<(Vec<u8>, Lines)>, Fail> {
    let problem = problem_of(alloc, task, rounds)?;
    match solve_within(alloc, &problem, kept, turns)? {
        Some(answer) => Ok(Some(parts_of(alloc, answer))),
        None => Ok(None),
    }
}

/// Checks that a search is given up exactly if it takes more turns than allowed.
#[test]
fn a_search_ends_within_its_turns(rt: HostRuntime) -> Result<(), Fail> {
    for (task, rounds, kept, turns, wanted) in WITHIN {
        let found = run_within(rt.alloc(), task, rounds, kept, turns)?;
        let parts = match &found {
            Some((values, lines)) => Some((values.as_slice(), lines.as_slice())),
            None => None,
        };
        assert_eq!(rt; parts, wanted, "{task} {kept:?} {turns}");
    }
    Ok(())
}

/// Searches with `workers` workers and the observer `gate`, and returns the values of the map, if
/// there is one, the lines, and the account.
fn run<R: Threads + Sync, H: Handout, G: Gate>(
    rt: &R,
    alloc: Global,
    spec: SearchSpec,
    workers: u32,
    gate: &G,
) -> Result<(Vec<u8>, Lines, Account), AllocError>
    requires { (0 < workers) × (workers ≤ MAX_WORKERS) }
{
    let (answer, account) = solve::<R, H, G>(rt, alloc, spec, workers, gate)?;
    let (values, lines) = parts_of(alloc, answer);
    Ok((values, lines, account))
}

/// Checks that a root without branches is refuted when many workers are requested.
#[test]
fn a_root_without_branches(rt: HostRuntime) -> Result<(), Fail> {
    let problem = problem_of(rt.alloc(), CONSENSUS_2, 0)?;
    let spec = SearchSpec {
        problem: &problem,
        kept: KeptLines::Refuting,
    };
    let (_, lines, account) = run::<_, Stealing, _>(&rt, rt.alloc(), spec, MAX_WORKERS, &Open)?;
    assert_eq!(rt; (lines.as_slice(), account), (CONSENSUS_LINES, NO_BRANCHES));
    Ok(())
}

/// A run that finds the least map of `PATH_2`: the number of workers, which lines are kept, who is
/// held and who may not start; the least and the largest number of branches that may be searched;
/// and the first branch from which on none may have a turn.
type Run = (u32, KeptLines, (Rule, Barred), (u32, u32), usize);

/// Nobody is held, and each worker may start.
const FREE: (Rule, Barred) = (Rule::Nobody, Barred::Nobody);

/// Runs that find the least map of `PATH_2`.
static RUNS: [Run; 18] = [
    // any number of workers finds the map, whatever lines are kept
    (1, KeptLines::All, FREE, (1, 3), 3),
    (1, KeptLines::Refuting, FREE, (1, 3), 3),
    (1, KeptLines::Neither, FREE, (1, 3), 3),
    (2, KeptLines::All, FREE, (1, 3), 3),
    (2, KeptLines::Refuting, FREE, (1, 3), 3),
    (2, KeptLines::Neither, FREE, (1, 3), 3),
    (8, KeptLines::All, FREE, (1, 3), 3),
    (8, KeptLines::Refuting, FREE, (1, 3), 3),
    (8, KeptLines::Neither, FREE, (1, 3), 3),
    // one worker cuts the branches above the first map
    (1, KeptLines::Refuting, FREE, (1, 1), 3),
    // a worker goes on while another one is held at its first branch
    (
        2,
        KeptLines::All,
        (Rule::FirstTaker, Barred::Nobody),
        (1, 3),
        3,
    ),
    // branches are cut if their workers see a lower one posted before their first turn
    (
        3,
        KeptLines::All,
        (Rule::LaterBranches, Barred::Nobody),
        (1, 1),
        1,
    ),
    // both workers are at a turn before either goes on, so each searches a branch, and the third
    // branch is cut
    (
        2,
        KeptLines::All,
        (Rule::FirstTurns, Barred::Nobody),
        (2, 2),
        2,
    ),
    // the main thread does the work of each worker that may not start
    (
        3,
        KeptLines::Refuting,
        (Rule::Nobody, Barred::All),
        (1, 1),
        3,
    ),
    (
        MAX_WORKERS,
        KeptLines::Refuting,
        (Rule::Nobody, Barred::All),
        (1, 1),
        3,
    ),
    // of three workers one or two may not start; the first works in the main thread
    (
        3,
        KeptLines::All,
        (Rule::Nobody, Barred::Worker(1)),
        (1, 3),
        3,
    ),
    (
        3,
        KeptLines::All,
        (Rule::Nobody, Barred::Worker(2)),
        (1, 3),
        3,
    ),
    (3, KeptLines::All, (Rule::Nobody, Barred::All), (1, 3), 3),
];

/// Returns whether `account` is that of three branches of which the first has a map, with a number
/// of searched branches between both numbers of `searched`.
fn is_of_path(account: Account, searched: (u32, u32)) -> bool {
    let (least, most) = searched;
    let sum = account.searched.saturating_add(account.cut);
    (account.branches, account.least, sum) == (3, 0, 3)
        && least <= account.searched
        && account.searched <= most
}

/// Checks that each run of [`RUNS`] finds the map with the handout `H`, and that no held worker
/// gave up. No more workers are used than there are branches, and the main thread is one of them.
fn finds_the_map<R: Threads + Sync + Abort, H: Handout>(
    rt: &R,
    alloc: Global,
    problem: &Problem,
) -> Result<(), Fail> {
    for (place, (workers, kept, (rule, barred), searched, idle)) in RUNS.iter().enumerate() {
        let workers = (*workers).clamp(1, MAX_WORKERS);
        let gate = Hold::new(*rule, *barred);
        let kept = *kept;
        let spec = SearchSpec { problem, kept };
        let (values, lines, account) = run::<R, H, Hold>(rt, alloc, spec, workers, &gate)?;
        let wanted = match kept {
            KeptLines::All => MAP_LINES,
            KeptLines::Refuting | KeptLines::Neither => &[],
        };
        let is_right = is_of_path(account, *searched) && !gate.had_turn_from(*idle);
        let starts = u64::from(workers.min(3)).saturating_sub(1);
        assert_eq!(rt;
            (values.as_slice(), lines.as_slice(), gate.counts(), is_right),
            (MAP, wanted, [0, starts, 1, 3, 3], true),
            "at {place}"
        );
    }
    Ok(())
}

/// Checks that both kinds of handout find the map in each run of [`RUNS`].
#[test]
fn the_map_is_found_by_workers_that_are_held_or_may_not_start(rt: HostRuntime) -> Result<(), Fail> {
    let problem = problem_of(rt.alloc(), PATH_2, 1)?;
    finds_the_map::<_, Counter>(&rt, rt.alloc(), &problem)?;
    finds_the_map::<_, Stealing>(&rt, rt.alloc(), &problem)
}

/// Checks that the least map and its lines are found in each of a thousand runs with the handout
/// `H`, most of them with three workers, and some with the largest number of workers.
fn finds_the_least_map<R: Threads + Sync + Abort, H: Handout>(
    rt: &R,
    alloc: Global,
) -> Result<(), Fail> {
    let problem = problem_of(alloc, PATH_2, 1)?;
    for turn in 0..1000u32 {
        let workers = if turn % 100 == 0 { MAX_WORKERS } else { 3 };
        let spec = SearchSpec {
            problem: &problem,
            kept: KeptLines::All,
        };
        let (values, lines, account) = run::<R, H, Open>(rt, alloc, spec, workers, &Open)?;
        assert_eq!(rt;
            (
                values.as_slice(),
                lines.as_slice(),
                is_of_path(account, (1, 3))
            ),
            (MAP, MAP_LINES, true)
        );
    }
    Ok(())
}

/// Checks that both kinds of handout find the least map, whatever order the threads run in.
#[test]
fn the_least_map_is_found_in_any_schedule(rt: HostRuntime) -> Result<(), Fail> {
    finds_the_least_map::<_, Counter>(&rt, rt.alloc())?;
    finds_the_least_map::<_, Stealing>(&rt, rt.alloc())
}
