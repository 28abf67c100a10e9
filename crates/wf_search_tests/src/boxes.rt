//! Tests of boxes and of closing, with values that were worked out by hand.

ghost use Rattle.std.specs.Prelude.{◌<◌, OnOk, IfOk};
ghost use Rattle.wf_box.specs.Boxes.{IsFor};

use crate::tasks::problem_of;
use std::alloc::{AllocError, Global};
use std::test::Fail;
use wf_base::lines::{Line, Lines};
use wf_base::set::{contains, low_set64};
use wf_box::{Box0, Closed, Problem, close};
use wf_examples::{CONSENSUS_2, ONE_WITHOUT_OUTPUT, PATH_2, RENAMING_2_2, SYMMETRIC_201};

/// Returns the candidates of each point as a word with a bit for each value. All values are below
/// 64.
fn candidates_of(alloc: Global, boxed: &Box0) -> Result<Vec<u64>, AllocError> {
    let mut all = Vec::new(alloc);
    for point in 0..boxed.points() {
        all.push(low_set64(boxed.candidates(point)))?;
    }
    Ok(all)
}

/// A root with the expected result of closing it: how closing ends, its lines, and the remaining
/// candidates of each point.
struct Root {
    task: &'static str,
    rounds: u32,
    closed: Closed,
    lines: &'static [Line],
    left: &'static [u64],
}

/// Roots with the expected results of closing them. In execution 6 of `SYMMETRIC_201`, that of all
/// three processes, process 0 can't decide 1, process 1 neither 1 nor 2, and process 2 not 2. All
/// three have the same point there, so each lost value has only one line. Without an output the
/// point has no candidate from the start.
static ROOTS: [Root; 4] = [
    Root {
        task: PATH_2,
        rounds: 1,
        closed: Closed::Open { sweeps: 2 },
        lines: &[
            lost!(0, 0, 1),
            lost!(0, 0, 2),
            lost!(1, 1, 0),
            lost!(1, 1, 1),
            lost!(3, 1, 2),
            lost!(4, 0, 0),
        ],
        left: &[1, 4, 6, 3],
    },
    Root {
        task: SYMMETRIC_201,
        rounds: 0,
        closed: Closed::Open { sweeps: 2 },
        lines: &[lost!(6, 0, 1), lost!(6, 1, 2)],
        left: &[1],
    },
    Root {
        task: CONSENSUS_2,
        rounds: 0,
        closed: Closed::Empty(0),
        lines: &[
            lost!(0, 0, 1),
            lost!(1, 1, 0),
            lost!(2, 0, 0),
            Line::Empty { point: 0 },
        ],
        left: &[0, 2],
    },
    Root {
        task: ONE_WITHOUT_OUTPUT,
        rounds: 0,
        closed: Closed::Empty(0),
        lines: &[Line::Empty { point: 0 }],
        left: &[0],
    },
];

/// Returns whether closing the root of `problem` has the result, the lines and the remaining
/// candidates of `root`.
fn is_closed_so(alloc: Global, problem: &Problem, root: &Root) -> Result<bool, AllocError> {
    let mut boxed = Box0::root(alloc, problem)?;
    let mut lines: Lines = Vec::new(alloc);
    let closed = close(alloc, problem, &mut boxed, &mut lines)?;
    let is_wanted = closed == root.closed && lines.as_slice() == root.lines;
    Ok(is_wanted && are_left(alloc, &boxed, root.left)?)
}

/// Returns whether `left` are the candidates of the points of `boxed`.
fn are_left(alloc: Global, boxed: &Box0, left: &[u64]) -> Result<bool, AllocError> {
    let candidates = candidates_of(alloc, boxed)?;
    Ok(candidates.as_slice() == left)
}

/// Checks that closing each root of [`ROOTS`] has its expected result.
#[test]
fn roots_are_closed(rt: HostRuntime) -> Result<(), Fail> {
    for root in &ROOTS {
        let problem = problem_of(rt.alloc(), root.task, root.rounds)?;
        let is_wanted = is_closed_so(rt.alloc(), &problem, root)?;
        assert!(rt; is_wanted, "{}", root.task);
    }
    Ok(())
}

/// Returns the candidates of `point` as a word, or 0 if the box has no such point.
fn candidates_at(boxed: &Box0, point: u32) -> u64 {
    if point < boxed.points() {
        low_set64(boxed.candidates(point))
    } else {
        0
    }
}

/// The number of sweeps that closing took, the candidates of point 3 after it, and its lines.
type Trial = (u32, u64, Lines);

/// Decides `value` at point 2, closes the box, and undoes both. The number of sweeps is 0 if
/// `value` is no candidate or if a point is emptied.
fn try_in_place(
    alloc: Global,
    problem: &Problem,
    boxed: &mut Box0,
    value: u8,
) -> Result<Trial, Fail>
    requires boxed { IsFor problem.now boxed.old }
    ensures boxed { OnOk result (IsFor problem.now boxed.new) }
{
    let mut lines: Lines = Vec::new(alloc);
    if boxed.points() <= 3 || !contains(boxed.candidates(2), value) {
        return Ok((0, 0, lines));
    }
    let mark = boxed.mark();
    boxed.set(2, value);
    let closed = close(alloc, problem, boxed, &mut lines)?;
    let third = candidates_at(boxed, 3);
    boxed.undo(mark);
    match closed {
        Closed::Open { sweeps } => Ok((sweeps, third, lines)),
        Closed::Empty(_) => Ok((0, third, lines)),
    }
}

/// Returns the problem of the task of `text` after `rounds` rounds, and its root, closed.
fn closed_root(alloc: Global, text: &str, rounds: u32) -> Result<(Problem, Box0), Fail>
    ensures { IfOk result (λ r. IsFor r.0 r.1) }
{
    let problem = problem_of(alloc, text, rounds)?;
    let mut boxed = Box0::root(alloc, &problem)?;
    let mut lines: Lines = Vec::new(alloc);
    close(alloc, &problem, &mut boxed, &mut lines)?;
    Ok((problem, boxed))
}

/// The expected result of deciding `value` at point 2: the number of sweeps, the candidates of
/// point 3 after them, and the lines.
struct Wanted {
    value: u8,
    sweeps: u32,
    third: u64,
    lines: &'static [Line],
}

/// Returns whether deciding the value of `wanted` at point 2 has the expected result.
fn comes_to(
    alloc: Global,
    problem: &Problem,
    boxed: &mut Box0,
    wanted: &Wanted,
) -> Result<bool, Fail>
    requires boxed { IsFor problem.now boxed.old }
    ensures boxed { OnOk result (IsFor problem.now boxed.new) }
{
    let (sweeps, third, lines) = try_in_place(alloc, problem, boxed, wanted.value)?;
    Ok(sweeps == wanted.sweeps && third == wanted.third && lines.as_slice() == wanted.lines)
}

/// Returns whether deciding the value of `wanted` at point 2 has the expected result in a copy of
/// `boxed` and in `boxed` itself, and whether `boxed`, the closed root of the path, is unchanged
/// then.
fn is_tried(
    alloc: Global,
    problem: &Problem,
    boxed: &mut Box0,
    wanted: &Wanted,
) -> Result<bool, Fail>
    requires boxed { IsFor problem.now boxed.old }
    ensures boxed { OnOk result (IsFor problem.now boxed.new) }
{
    let mut copy = boxed.copy(alloc)?;
    let in_copy = comes_to(alloc, problem, &mut copy, wanted)?;
    let in_place = comes_to(alloc, problem, boxed, wanted)?;
    Ok(in_copy && in_place && are_left(alloc, boxed, &[1, 4, 6, 3])?)
}

/// The expected result of deciding 1 at point 2, whose candidates in the closed root are 1 and 2.
static ONE: Wanted = Wanted {
    value: 1,
    sweeps: 1,
    third: 3,
    lines: &[],
};

static TWO: Wanted = Wanted {
    value: 2,
    sweeps: 2,
    third: 2,
    lines: &[lost!(2, 1, 0)],
};

/// Checks that undoing to a mark restores a box after a point was decided and the box was closed.
#[test]
fn a_box_is_given_an_earlier_state(rt: HostRuntime) -> Result<(), Fail> {
    let (problem, mut boxed) = closed_root(rt.alloc(), PATH_2, 1)?;
    let found = (boxed.points(), boxed.first_open());
    let one = is_tried(rt.alloc(), &problem, &mut boxed, &ONE)?;
    let two = is_tried(rt.alloc(), &problem, &mut boxed, &TWO)?;
    assert_eq!(rt; (found, one, two), ((4, Some(2)), true, true));
    Ok(())
}

/// Checks which execution stands for each rule. In both tasks executions 0 and 1 are those of one
/// process alone, and 2 is the first one of both. The processes alone have different tuples on the
/// path, and the same ones in renaming, so that execution 0 stands for both.
#[test]
fn an_execution_stands_for_each_rule(rt: HostRuntime) -> Result<(), Fail> {
    for (text, leads) in [(PATH_2, [0, 1, 2]), (RENAMING_2_2, [0, 0, 2])] {
        let problem = problem_of(rt.alloc(), text, 1)?;
        let found = problem.network().leads.as_slice();
        assert!(rt; found == leads.as_slice(), "{text}");
    }
    Ok(())
}
