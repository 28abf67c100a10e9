//! Tests of refined tasks: components, names and cases of small lists of tuples, worked out by
//! hand.

use std::alloc::Global;
use std::test::Fail;
use wf_examples::CONSENSUS_2;
use wf_simplex::Simplex;
use wf_task::{Row, Task};
use wf_tree_refine::{
    Adjacency, RefineFault, component_indices, first_rows, in_case, named_rows, new_name,
    sorted_unique, split_rows, star_names,
};

/// Checks that pairs are in the same component if steps at one place join them.
#[test]
fn steps_of_pairs(rt: HostRuntime) -> Result<(), Fail> {
    let alloc = rt.alloc();
    // rows 0 and 1 share the value 0, rows 1 and 3 the value 1, and rows 4 and 5 the value 3
    let rows = [
        Row::new(&[0, 0]),
        Row::new(&[0, 1]),
        Row::new(&[1, 2]),
        Row::new(&[2, 1]),
        Row::new(&[3, 3]),
        Row::new(&[3, 4]),
    ];
    let numbers = component_indices(alloc, &rows, 2, Adjacency::Steps)?;
    assert_eq!(rt; numbers.as_slice(), [0, 0, 1, 0, 2, 2].as_slice());
    Ok(())
}

/// Checks that in a star only those rows are adjacent that agree at the star's place.
#[test]
fn a_star_keeps_its_place(rt: HostRuntime) -> Result<(), Fail> {
    let alloc = rt.alloc();
    let rows = [
        Row::new(&[0, 0]),
        Row::new(&[0, 1]),
        Row::new(&[2, 1]),
        Row::new(&[3, 4]),
    ];
    let first = component_indices(alloc, &rows, 2, Adjacency::Star(0))?;
    assert_eq!(rt; first.as_slice(), [0, 0, 1, 2].as_slice());
    let second = component_indices(alloc, &rows, 2, Adjacency::Star(1))?;
    assert_eq!(rt; second.as_slice(), [0, 1, 1, 2].as_slice());
    Ok(())
}

/// Checks that each row is a component of its own if one process takes part.
#[test]
fn alone_each_value_is_a_part(rt: HostRuntime) -> Result<(), Fail> {
    let alloc = rt.alloc();
    let rows = [Row::new(&[4]), Row::new(&[7])];
    let steps = component_indices(alloc, &rows, 1, Adjacency::Steps)?;
    assert_eq!(rt; steps.as_slice(), [0, 1].as_slice());
    let star = component_indices(alloc, &rows, 1, Adjacency::Star(0))?;
    assert_eq!(rt; star.as_slice(), [0, 1].as_slice());
    Ok(())
}

/// Checks the components of triples, by steps and by stars. A component is numbered by its first
/// row.
#[test]
fn the_least_root_is_kept(rt: HostRuntime) -> Result<(), Fail> {
    let alloc = rt.alloc();
    // 0 0 5 and 1 0 5 differ only at place 0, 1 0 5 and 1 3 5 only at place 1; no other rows are
    // adjacent
    let rows = [
        Row::new(&[0, 0, 5]),
        Row::new(&[0, 3, 6]),
        Row::new(&[1, 0, 5]),
        Row::new(&[1, 3, 5]),
        Row::new(&[2, 2, 2]),
    ];
    let steps = component_indices(alloc, &rows, 3, Adjacency::Steps)?;
    assert_eq!(rt; steps.as_slice(), [0, 1, 0, 0, 2].as_slice());
    let star = component_indices(alloc, &rows, 3, Adjacency::Star(2))?;
    assert_eq!(rt; star.as_slice(), [0, 1, 0, 0, 2].as_slice());
    let other = component_indices(alloc, &rows, 3, Adjacency::Star(1))?;
    assert_eq!(rt; other.as_slice(), [0, 1, 0, 2, 3].as_slice());
    Ok(())
}

/// Checks that a value gets a second name if the tuples that have it form two components of its
/// star, and that a name above 255 is refused.
#[test]
fn a_value_is_taken_apart(rt: HostRuntime) -> Result<(), Fail> {
    let alloc = rt.alloc();
    let Ok(simplex) = Simplex::read(&[(0, 0), (1, 0), (2, 0)]) else {
        return Ok(());
    };
    // the tuples with 0 at place 0 form two components, which share no edge at that vertex
    let rows = [
        Row::new(&[0, 1, 1]),
        Row::new(&[0, 1, 2]),
        Row::new(&[0, 3, 3]),
        Row::new(&[1, 1, 1]),
    ];
    if simplex.colours() == 3 {
        let first = star_names(alloc, &simplex, &rows, 0, 4)?;
        assert_eq!(rt; first.as_slice(), [0, 0, 4, 1].as_slice());
        let named = named_rows(alloc, &simplex, &rows, 4)?;
        assert_eq!(rt; named[1].as_slice(), [0, 1, 2].as_slice());
        assert_eq!(rt; named[2].as_slice(), [4, 3, 3].as_slice());
        let refused = star_names(alloc, &simplex, &rows, 0, 256);
        assert_eq!(rt; refused.err(), Some(RefineFault::TooManyNames));
    }
    Ok(())
}

/// Checks the case of consensus in which both processes decide 1: it keeps the tuples of each
/// process alone.
#[test]
fn a_case_leaves_one_part(rt: HostRuntime) -> Result<(), Fail> {
    let alloc = rt.alloc();
    let task = Task::read_text(alloc, CONSENSUS_2.as_bytes())?;
    let rows = first_rows(alloc, &task)?;
    assert_eq!(rt; new_name(&task, &rows), 2);
    if rows.len() == 3 {
        let kept = in_case(alloc, &task, &rows, 2, 1)?;
        assert_eq!(rt; kept.len(), 3);
        if kept.len() == 3 {
            assert_eq!(rt; kept[0].as_slice(), [Row::new(&[0])].as_slice());
            assert_eq!(rt; kept[1].as_slice(), [Row::new(&[1])].as_slice());
            assert_eq!(rt; kept[2].as_slice(), [Row::new(&[1, 1])].as_slice());
        }
    }
    Ok(())
}

/// A task of three processes, the hourglass of `gallery/tasks/hourglass.json`: two output triangles
/// share an edge, and a third one shares a vertex with one of them.
pub(crate) const HOURGLASS: &str = concat!(
    r#"{"delta":[{"in":[[0,0]],"out":[[0]]},{"in":[[1,0]],"out":[[1]]},{"in":[[2,0]],"#,
    r#""out":[[1]]},{"in":[[0,0],[1,0]],"out":[[0,2],[1,1],[1,2]]},{"in":[[0,0],[2,0]],"#,
    r#""out":[[0,2],[1,1],[1,2]]},{"in":[[1,0],[2,0]],"out":[[1,1]]},"#,
    r#"{"in":[[0,0],[1,0],[2,0]],"out":[[0,2,2],[1,1,1],[1,2,2]]}],"#,
    r#""inputs":[[[0,0],[1,0],[2,0]]],"outputs":[[[0,0],[1,2],[2,2]],[[0,1],[1,1],[2,1]],"#,
    r#"[[0,1],[1,2],[2,2]]],"processes":3,"symmetric":false,"version":1}"#
);

/// Returns the tuples of the hourglass after a split of the simplex of all three processes, or
/// `None` if the task doesn't have seven input simplices.
fn hourglass_apart(alloc: Global) -> Result<Option<Vec<Vec<Row>>>, Fail> {
    let task = Task::read_text(alloc, HOURGLASS.as_bytes())?;
    let rows = first_rows(alloc, &task)?;
    if rows.len() != 7 {
        return Ok(None);
    }
    Ok(Some(split_rows(alloc, &task, &rows, 6)?))
}

/// Checks the tuples of the hourglass after its split.
#[test]
fn the_hourglass_is_taken_apart(rt: HostRuntime) -> Result<(), Fail> {
    let alloc = rt.alloc();
    let split = hourglass_apart(alloc)?.expect(&rt, "a task at hand");
    assert_eq!(rt; split.len(), 7);
    // value 1 of process 0 keeps its name in one triangle, and is named 3 in the other
    let pairs = [Row::new(&[0, 2]), Row::new(&[1, 1]), Row::new(&[3, 2])];
    assert_eq!(rt; split[3].as_slice(), pairs.as_slice());
    let all = [
        Row::new(&[0, 2, 2]),
        Row::new(&[1, 1, 1]),
        Row::new(&[3, 2, 2]),
    ];
    assert_eq!(rt; split[6].as_slice(), all.as_slice());
    Ok(())
}

/// Checks that rows are sorted, and that each is kept once.
#[test]
fn rows_in_order(rt: HostRuntime) -> Result<(), Fail> {
    let rows = vec![in rt.alloc(); Row::new(&[2, 1]), Row::new(&[0, 3]), Row::new(&[2, 1])]?;
    let once = sorted_unique(rows);
    assert_eq!(rt;
        once.as_slice(),
        [Row::new(&[0, 3]), Row::new(&[2, 1])].as_slice()
    );
    Ok(())
}
