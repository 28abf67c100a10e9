//! Tests of the search and of the split, with values that were worked out by hand.

ghost use Rattle.std.specs.Prelude.{◌≡◌, ◌<◌, ◌≤◌, length, IfOk};
ghost use Rattle.wf_model.specs.Outline.{boxes_left_out, outline};
ghost use Rattle.wf_box.specs.Boxes.{ServeFor};

use crate::tasks::problem_of;
use std::alloc::{AllocError, Global};
use std::test::Fail;
use wf_base::lines::{Line, Lines};
use wf_box::{Box0, BoxCache, Problem};
use wf_examples::{
    CONSENSUS_2, ONE_PROCESS, ONE_WITHOUT_OUTPUT, ONE_WITHOUT_TUPLE, PATH_2, PATH_3, RENAMING_2_2,
    RENAMING_2_3,
};
use wf_search::{Cover, Found, Never, Stop, search, search_with, split};

/// A stopping rule: it counts how often the search asks whether to stop, up to the largest `u32`,
/// and answers yes after `most` times.
#[derive(Drop)]
struct Limit {
    asked: u32,
    most: u32,
}

impl Stop for Limit {
    ghost use Rattle.std.proofs.Common.{◌+◌, ◌-◌, ◌^◌, arith};

    // the count is exact unless it is the largest number
    ghost asked = { λ n s t.
        (s.asked ≤ t.asked) × (t.asked < 2 ^ 32 - 1 → t.asked ≡ s.asked + n) };

    ghost is_stopped = { λ s. s.most < s.asked };

    ghost unasked = { λ s. (Prim.omega arith, λ less. Prim.omega arith) };

    ghost asked_on = { λ m n s t u first second. (
      Prim.omega (arith, first.0, second.0),
      λ less. Prim.omega (arith, first.1 (Prim.omega (arith, less, second.0)), second.1 less),
    ) };

    fn stop(&mut self) -> bool {
        self.asked = self.asked.saturating_add(1);
        self.asked > self.most
    }
}

const EMPTY_0: Line = Line::Empty { point: 0 };

const EMPTY_1: Line = Line::Empty { point: 1 };

/// The lines of renaming of two processes to two names after one round.
const LINES_OF_TWO_NAMES: &[Line] = &[
    Line::Branch { point: 0 },
    lost!(3, 1, 0),
    lost!(4, 0, 0),
    lost!(2, 0, 1),
    EMPTY_1,
    lost!(3, 1, 1),
    lost!(4, 0, 1),
    lost!(2, 0, 0),
    EMPTY_1,
];

/// The lines of the path of length 2 after one round, up to its first map.
const LINES_OF_A_PATH: &[Line] = &[
    lost!(0, 0, 1),
    lost!(0, 0, 2),
    lost!(1, 1, 0),
    lost!(1, 1, 1),
    lost!(3, 1, 2),
    lost!(4, 0, 0),
    Line::Branch { point: 2 },
    Line::Branch { point: 3 },
    Line::Found,
];

/// A search of the root of a task's problem that is stopped after `most` turns, and its expected
/// result: how often it asks whether to stop (`asked`), whether it is stopped, the values of the
/// decision map if there is one, and the lines.
struct Case {
    task: &'static str,
    rounds: u32,
    most: u32,
    asked: u32,
    is_stopped: bool,
    values: &'static [u8],
    lines: &'static [Line],
}

/// Searches with their expected results. A search asks once for each turn whether to stop. The
/// search of renaming with two names takes three turns: one for the root and one for each of its
/// two branches. In renaming with three names and no round, one point occurs twice in the execution
/// of both processes.
static CASES: [Case; 12] = [
    Case {
        task: PATH_3,
        rounds: 0,
        most: 9,
        asked: 1,
        is_stopped: false,
        values: &[],
        lines: &[
            lost!(0, 0, 1),
            lost!(0, 0, 2),
            lost!(0, 0, 3),
            lost!(1, 1, 0),
            lost!(1, 1, 1),
            lost!(1, 1, 2),
            lost!(2, 0, 0),
            EMPTY_0,
        ],
    },
    Case {
        task: CONSENSUS_2,
        rounds: 0,
        most: 9,
        asked: 1,
        is_stopped: false,
        values: &[],
        lines: &[lost!(0, 0, 1), lost!(1, 1, 0), lost!(2, 0, 0), EMPTY_0],
    },
    Case {
        task: CONSENSUS_2,
        rounds: 1,
        most: 9,
        asked: 1,
        is_stopped: false,
        values: &[],
        lines: &[
            lost!(0, 0, 1),
            lost!(1, 1, 0),
            lost!(3, 1, 1),
            lost!(4, 0, 0),
            lost!(2, 0, 1),
            Line::Empty { point: 2 },
        ],
    },
    Case {
        task: ONE_WITHOUT_TUPLE,
        rounds: 8,
        most: 9,
        asked: 1,
        is_stopped: false,
        values: &[],
        lines: &[lost!(0, 0, 5), EMPTY_0],
    },
    Case {
        task: ONE_WITHOUT_OUTPUT,
        rounds: 8,
        most: 9,
        asked: 1,
        is_stopped: false,
        values: &[],
        lines: &[EMPTY_0],
    },
    Case {
        task: RENAMING_2_2,
        rounds: 1,
        most: 3,
        asked: 3,
        is_stopped: false,
        values: &[],
        lines: LINES_OF_TWO_NAMES,
    },
    Case {
        task: RENAMING_2_3,
        rounds: 0,
        most: 9,
        asked: 4,
        is_stopped: false,
        values: &[],
        lines: &[
            Line::Branch { point: 0 },
            lost!(2, 0, 0),
            EMPTY_0,
            lost!(2, 0, 1),
            EMPTY_0,
            lost!(2, 0, 2),
            EMPTY_0,
        ],
    },
    Case {
        task: PATH_2,
        rounds: 1,
        most: 9,
        asked: 3,
        is_stopped: false,
        values: &[0, 2, 1, 0],
        lines: LINES_OF_A_PATH,
    },
    Case {
        task: ONE_PROCESS,
        rounds: 8,
        most: 9,
        asked: 1,
        is_stopped: false,
        values: &[5],
        lines: &[Line::Found],
    },
    Case {
        task: PATH_3,
        rounds: 1,
        most: 0,
        asked: 1,
        is_stopped: true,
        values: &[],
        lines: &[],
    },
    Case {
        task: RENAMING_2_2,
        rounds: 1,
        most: 0,
        asked: 1,
        is_stopped: true,
        values: &[],
        lines: &[],
    },
    Case {
        task: RENAMING_2_2,
        rounds: 1,
        most: 2,
        asked: 3,
        is_stopped: true,
        values: &[],
        lines: &[],
    },
];

/// Returns the values of the map that was found and the lines; what doesn't exist is empty.
fn parts_of(alloc: Global, found: Found) -> (Vec<u8>, Lines) {
    match found {
        Found::Map(values, lines) => (values, lines),
        Found::Refuted(lines) => (Vec::new(alloc), lines),
        Found::Stopped => (Vec::new(alloc), Vec::new(alloc)),
    }
}

/// Runs the search of `case`, and returns what it finds and how many questions it asked.
fn search_case(alloc: Global, case: &Case) -> Result<(Found, u32), Fail> {
    let problem = problem_of(alloc, case.task, case.rounds)?;
    let root = Box0::root(alloc, &problem)?;
    let mut limit = Limit {
        asked: 0,
        most: case.most,
    };
    let found = search(alloc, &problem, root, &mut limit)?;
    Ok((found, limit.asked))
}

/// Checks that each search of [`CASES`] has its expected result.
#[test]
fn roots_are_searched(rt: HostRuntime) -> Result<(), Fail> {
    for case in &CASES {
        let (found, asked) = search_case(rt.alloc(), case)?;
        let is_stopped = matches!(&found, Found::Stopped);
        let (values, lines) = parts_of(rt.alloc(), found);
        assert_eq!(rt;
            (asked, is_stopped, values.as_slice(), lines.as_slice()),
            (case.asked, case.is_stopped, case.values, case.lines)
        );
    }
    Ok(())
}

/// Searches the root of `problem` with the cached results of the kernel in `answers`, and returns
/// the values of the map, if there is one, and the lines.
fn search_by(
    alloc: Global,
    problem: &Problem,
    answers: &mut BoxCache,
) -> Result<(Vec<u8>, Lines), AllocError>
    requires { ServeFor problem.now answers.old }
    ensures { ServeFor problem.now answers.new }
{
    let root = Box0::root(alloc, problem)?;
    let found = search_with(alloc, problem, root, &mut Never, answers)?;
    Ok(parts_of(alloc, found))
}

/// Tasks and numbers of rounds, with the least map, which is empty if there is none.
static MIN_MAPS: [(&str, u32, &[u8]); 4] = [
    (RENAMING_2_2, 1, &[]),
    (PATH_2, 1, &[0, 2, 1, 0]),
    (PATH_3, 1, &[0, 3, 2, 1]),
    (RENAMING_2_3, 1, &[0, 1, 2]),
];

/// Checks that a second search, which uses the results of the kernel that the first one cached,
/// finds the same.
#[test]
fn answers_of_an_earlier_search(rt: HostRuntime) -> Result<(), Fail> {
    for (text, rounds, wanted) in MIN_MAPS {
        let problem = problem_of(rt.alloc(), text, rounds)?;
        let mut answers = BoxCache::new(rt.alloc());
        let (values, lines) = search_by(rt.alloc(), &problem, &mut answers)?;
        assert_eq!(rt; values.as_slice(), wanted);
        let again = search_by(rt.alloc(), &problem, &mut answers)?;
        assert_eq!(rt; again, (values, lines));
    }
    Ok(())
}

/// Searches branch `number` of `cover`.
fn search_branch(
    alloc: Global,
    problem: &Problem,
    cover: &Cover,
    number: u32,
) -> Result<Found, AllocError>
    requires cover { cover.now ≡ outline problem.now }
    requires number { number < length (boxes_left_out cover.now) }
{
    let _points = problem.points();
    search(alloc, problem, cover.branch(alloc, number)?, &mut Never)
}

/// Returns the problem of the task of `text` after one round, and the branches of its root.
fn branches_of(alloc: Global, text: &str) -> Result<(Problem, Cover), Fail>
    ensures { IfOk result (λ r. r.1 ≡ outline r.0) }
{
    let problem = problem_of(alloc, text, 1)?;
    let cover = split(alloc, &problem)?;
    Ok((problem, cover))
}

/// Checks the maps of the branches of the path of length 2. Their values are compared one map after
/// the other.
#[test]
fn the_branches_of_a_path(rt: HostRuntime) -> Result<(), Fail> {
    let (problem, cover) = branches_of(rt.alloc(), PATH_2)?;
    let mut maps = Vec::new(rt.alloc());
    for number in 0..cover.branches() {
        let found = search_branch(rt.alloc(), &problem, &cover, number)?;
        let (values, _) = parts_of(rt.alloc(), found);
        maps.extend_from_slice(&values)?;
    }
    let wanted = [0, 2, 1, 0, 0, 2, 1, 1, 0, 2, 2, 1];
    assert_eq!(rt; (cover.branches(), maps.as_slice()), (3, wanted.as_slice()));
    Ok(())
}

/// Creates a list of one line for each of `lines`.
fn lists_of(alloc: Global, lines: &[Line]) -> Result<Vec<Lines>, AllocError> {
    let mut lists = Vec::new(alloc);
    for line in lines {
        lists.push(Vec::from_array(alloc, [*line])?)?;
    }
    Ok(lists)
}

/// Returns the lines of the root, in which the first branches are filled with `lists`, up to the
/// end of the last list. Returns all lines of the root if there are neither branches nor lists, and
/// no line if there are lists but fewer branches, or branches but no lists.
fn fill(alloc: Global, cover: &Cover, lists: Vec<Lines>) -> Result<Lines, AllocError> {
    if lists.is_empty() && cover.branches() == 0 {
        return cover.fill(alloc, lists);
    }
    if lists.is_empty() || lists.len() > cover.branches() as usize {
        return Ok(Vec::new(alloc));
    }
    cover.fill_least(alloc, lists)
}

/// Tasks, the single lines of the lists of their first branches, and the lines of the root from an
/// index on.
static FILLED: [(&str, &[Line], usize, &[Line]); 3] = [
    (RENAMING_2_2, &[], 0, LINES_OF_TWO_NAMES),
    (PATH_2, &[Line::Found], 0, LINES_OF_A_PATH),
    (
        PATH_2,
        &[EMPTY_0, EMPTY_1, Line::Found],
        8,
        &[EMPTY_0, EMPTY_1, lost!(2, 1, 0), Line::Found],
    ),
];

/// Checks that the lines of a root are filled with the lists of its branches.
#[test]
fn a_root_is_filled(rt: HostRuntime) -> Result<(), Fail> {
    for (text, lines, from, wanted) in FILLED {
        let (_, cover) = branches_of(rt.alloc(), text)?;
        let filled = fill(rt.alloc(), &cover, lists_of(rt.alloc(), lines)?)?;
        assert_eq!(rt; filled.get(from..), Some(wanted));
    }
    Ok(())
}
