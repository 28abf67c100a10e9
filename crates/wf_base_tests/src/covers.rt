//! Tests of covers, on a torus without one triangle. The expected values were computed from the
//! definitions by another program.

ghost use Rattle.std.specs.Prelude.{◌≡◌};

use std::alloc::{AllocError, Global};
use std::test::Fail;
use wf_task::{Row, Task};
use wf_tree_refine::first_rows;
use wf_tree_steps::cover::{
    CoverFault, Covering, Move, cover_fault, covered_rows, no_fault_exactly_if_covering,
};

/// A task of three processes on a triangulated torus without the triangle 0 1 1. All three decide a
/// triangle of the torus, and fewer of them a vertex or an edge of the missing one.
pub(crate) const TORUS: &str = concat!(
    r#"{"delta":[{"in":[[0,0]],"out":[[0]]},{"in":[[1,0]],"out":[[1]]},{"in":[[2,0]],"#,
    r#""out":[[1]]},{"in":[[0,0],[1,0]],"out":[[0,1]]},{"in":[[0,0],[2,0]],"out":[[0,1]]},"#,
    r#"{"in":[[1,0],[2,0]],"out":[[1,1]]},{"in":[[0,0],[1,0],[2,0]],"out":[[0,0,1],[0,0,2],[0,"#,
    r#"1,0],[0,2,0],[0,2,2],[1,0,0],[1,0,1],[1,1,0],[1,1,2],[1,2,1],[1,2,2],[2,0,0],[2,0,2],[2,"#,
    r#"1,1],[2,1,2],[2,2,0],[2,2,1]]}],"inputs":[[[0,0],[1,0],[2,0]]],"outputs":[[[0,0],[1,1]],"#,
    r#"[[0,0],[2,1]],[[1,1],[2,1]],[[0,0],[1,0],[2,1]],[[0,0],[1,0],[2,2]],[[0,0],[1,1],[2,0]],"#,
    r#"[[0,0],[1,2],[2,0]],[[0,0],[1,2],[2,2]],[[0,1],[1,0],[2,0]],[[0,1],[1,0],[2,1]],[[0,1],"#,
    r#"[1,1],[2,0]],[[0,1],[1,1],[2,2]],[[0,1],[1,2],[2,1]],[[0,1],[1,2],[2,2]],[[0,2],[1,0],"#,
    r#"[2,0]],[[0,2],[1,0],[2,2]],[[0,2],[1,1],[2,1]],[[0,2],[1,1],[2,2]],[[0,2],[1,2],[2,0]],"#,
    r#"[[0,2],[1,2],[2,1]]],"processes":3,"symmetric":false,"version":1}"#
);

/// A place and a value there, and another place and a value there.
type Ends = (u8, u8, u8, u8);

/// The pairs of values between which a move exchanges both sheets of a cover of the torus.
const CHANGES: [Ends; 6] = [
    (0, 1, 1, 2),
    (0, 1, 2, 2),
    (0, 2, 1, 1),
    (0, 2, 2, 1),
    (1, 1, 2, 2),
    (1, 2, 2, 1),
];

/// The triangles of the torus on two sheets. The names 3, 4 and 5 stand for the values 0, 1 and 2
/// on the second sheet.
const ON_SHEETS: [[u8; 3]; 34] = [
    [0, 0, 1],
    [0, 0, 2],
    [0, 1, 0],
    [0, 2, 0],
    [0, 2, 2],
    [1, 0, 0],
    [1, 0, 1],
    [1, 1, 0],
    [1, 1, 5],
    [1, 5, 1],
    [1, 5, 5],
    [2, 0, 0],
    [2, 0, 2],
    [2, 2, 0],
    [2, 2, 4],
    [2, 4, 2],
    [2, 4, 4],
    [3, 3, 4],
    [3, 3, 5],
    [3, 4, 3],
    [3, 5, 3],
    [3, 5, 5],
    [4, 2, 2],
    [4, 2, 4],
    [4, 3, 3],
    [4, 3, 4],
    [4, 4, 2],
    [4, 4, 3],
    [5, 1, 1],
    [5, 1, 5],
    [5, 3, 3],
    [5, 3, 5],
    [5, 5, 1],
    [5, 5, 3],
];

/// Creates a move between each pair of values in `ends`, all with the same `sheets`.
fn moves_by(alloc: Global, ends: &[Ends], sheets: &[u8]) -> Result<Vec<Move>, AllocError> {
    let mut moves = Vec::new(alloc);
    for (first, value, second, other) in ends {
        let sheets = sheets.to_vec(alloc)?;
        let (first, value, second, other) = (*first, *value, *second, *other);
        moves.push(Move {
            first,
            value,
            second,
            other,
            sheets,
        })?;
    }
    Ok(moves)
}

/// Creates a cover of the simplex of all three processes, with place 0 as its corner.
fn cover_by(sheets: u8, moves: Vec<Move>) -> Covering
    ensures { result.simplex ≡ 6 }
{
    Covering {
        simplex: 6,
        sheets,
        corner: 0,
        moves,
    }
}

/// Creates the moves of `first`, followed by those of `second`. Both are pairs of values with the
/// sheets of all their moves.
fn moves_then(
    alloc: Global,
    first: (&[Ends], &[u8]),
    second: (&[Ends], &[u8]),
) -> Result<Vec<Move>, AllocError> {
    let mut moves = moves_by(alloc, first.0, first.1)?;
    moves.append(&mut moves_by(alloc, second.0, second.1)?)?;
    Ok(moves)
}

/// Returns the fault of the cover of the torus with `sheets` sheets and the moves `moves`, or
/// `None` if it has none.
fn fault_by(alloc: Global, sheets: u8, moves: Vec<Move>) -> Result<Option<CoverFault>, Fail> {
    let task = Task::read_text(alloc, TORUS.as_bytes())?;
    let rows = first_rows(alloc, &task)?;
    let cover = cover_by(sheets, moves);
    if rows.len() != 7 {
        // a fault that no caller expects, so that its test fails
        return Ok(Some(CoverFault::OneParticipant));
    }
    Ok(cover_fault(alloc, &task, &rows, &cover)?)
}

/// Checks that the torus has a cover of two sheets, which is not flat without one of its moves or
/// with a single sheet.
#[test]
fn the_torus_has_two_sheets(rt: HostRuntime) -> Result<(), Fail> {
    let alloc = rt.alloc();
    let moves = moves_by(alloc, &CHANGES, &[1, 0])?;
    assert_eq!(rt; fault_by(alloc, 2, moves)?, None);
    let moves = moves_by(alloc, &CHANGES[..5], &[1, 0])?;
    let left = CoverFault::NotFlat { tuple: 9 };
    assert_eq!(rt; fault_by(alloc, 2, moves)?, Some(left));
    let moves = moves_by(alloc, &CHANGES, &[1, 0])?;
    let none = CoverFault::NotFlat { tuple: 8 };
    assert_eq!(rt; fault_by(alloc, 1, moves)?, Some(none));
    no_fault_exactly_if_covering();
    Ok(())
}

/// Checks that the first of two moves between the same values counts.
#[test]
fn the_first_move_counts(rt: HostRuntime) -> Result<(), Fail> {
    let alloc = rt.alloc();
    let moves = moves_then(alloc, (&CHANGES, &[1, 0]), (&CHANGES[..1], &[0, 1]))?;
    assert_eq!(rt; fault_by(alloc, 2, moves)?, None);
    let moves = moves_then(alloc, (&CHANGES[..1], &[0, 1]), (&CHANGES, &[1, 0]))?;
    let left = CoverFault::NotFlat { tuple: 9 };
    assert_eq!(rt; fault_by(alloc, 2, moves)?, Some(left));
    Ok(())
}

/// Checks that a cover of three sheets is flat if the moves back undo the moves forth.
#[test]
fn three_sheets_go_forth_and_back(rt: HostRuntime) -> Result<(), Fail> {
    let alloc = rt.alloc();
    // moves from value 1 of place 0 turn the three sheets, and moves to that value turn them back
    let forth = [(0, 1, 2, 0), (0, 1, 2, 1), (0, 1, 2, 2)];
    let back = [(1, 0, 0, 1), (1, 1, 0, 1), (1, 2, 0, 1)];
    let moves = moves_then(alloc, (&forth, &[1, 2, 0]), (&back, &[2, 0, 1]))?;
    assert_eq!(rt; fault_by(alloc, 3, moves)?, None);
    let moves = moves_then(alloc, (&forth, &[1, 2, 0]), (&back, &[1, 2, 0]))?;
    let left = CoverFault::NotFlat { tuple: 5 };
    assert_eq!(rt; fault_by(alloc, 3, moves)?, Some(left));
    Ok(())
}

/// Checks the faults of a cover with one participant, without its corner, and without a sheet. They
/// are judged in this order.
#[test]
fn a_cover_has_a_corner_and_a_sheet(rt: HostRuntime) -> Result<(), Fail> {
    let alloc = rt.alloc();
    let task = Task::read_text(alloc, TORUS.as_bytes())?;
    let rows = first_rows(alloc, &task)?;
    assert_eq!(rt; rows.len(), 7);
    let mut cover = cover_by(0, Vec::new(alloc));
    let none = CoverFault::NoSheet;
    assert_eq!(rt; cover_fault(alloc, &task, &rows, &cover)?, Some(none));
    cover.corner = 3;
    let none = CoverFault::NoCorner;
    assert_eq!(rt; cover_fault(alloc, &task, &rows, &cover)?, Some(none));
    cover.simplex = 2;
    let one = CoverFault::OneParticipant;
    assert_eq!(rt; cover_fault(alloc, &task, &rows, &cover)?, Some(one));
    Ok(())
}

/// Returns the tuples of the torus on two sheets for each input simplex, or `None` if the cover has
/// a fault.
fn torus_on_two_sheets(alloc: Global) -> Result<Option<Vec<Vec<Row>>>, Fail> {
    let task = Task::read_text(alloc, TORUS.as_bytes())?;
    let rows = first_rows(alloc, &task)?;
    let cover = cover_by(2, moves_by(alloc, &CHANGES, &[1, 0])?);
    if rows.len() != 7 {
        return Ok(None);
    }
    match cover_fault(alloc, &task, &rows, &cover)? {
        None => Ok(Some(covered_rows(alloc, &task, &rows, &cover)?)),
        Some(_fault) => Ok(None),
    }
}

/// Checks the tuples of the torus on two sheets: those of process 0, of processes 0 and 1, and how
/// many all three have.
#[test]
fn the_torus_on_two_sheets(rt: HostRuntime) -> Result<(), Fail> {
    let alloc = rt.alloc();
    let found = torus_on_two_sheets(alloc)?.expect(&rt, "a cover");
    assert_eq!(rt; found.len(), 7);
    // process 0 alone is on sheet 0, and processes 0 and 1 together are both on the same sheet
    assert_eq!(rt; found[0].as_slice(), [Row::new(&[0])].as_slice());
    let edge = [Row::new(&[0, 1]), Row::new(&[3, 4])];
    assert_eq!(rt; found[3].as_slice(), edge.as_slice());
    assert_eq!(rt; found[6].len(), ON_SHEETS.len());
    Ok(())
}
