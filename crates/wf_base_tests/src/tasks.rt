//! Tests of rows and tasks. `checks/texts` tests with the whole program which texts are refused,
//! and what is printed then.

use std::alloc::Global;
use std::test::Fail;
use wf_base::set::Mask;
use wf_examples::PATH_3;
use wf_task::{Row, Task};

/// The text of a task with its tuples out of order and one of them twice.
const DISORDERED: &str =
    r#"{"version":1,"processes":1,"symmetric":true,"inputs":[[[0,7]]],"outputs":[[[0,63]],[[0,0]],[[0,5]]],"delta":[{"in":[[0,7]],"out":[[63],[5],[0],[5]]}]}"#;

/// The text of a task in version 2, which names the least size of a first block.
const VERSION_2: &str =
    r#"{"version":2,"first_block":3,"processes":1,"symmetric":false,"inputs":[[[0,64]]],"outputs":[[[0,255]]],"delta":[{"in":[[0,64]],"out":[[255]]}]}"#;

/// The facts of a task: its version and first block, its number of processes and whether it is
/// symmetric, the numbers of its input and output simplices, and its values.
type Told = ((u8, u8), (u8, bool), (usize, usize), Mask);

/// Texts of tasks with their facts.
static TEXTS: [(&str, Told); 3] = [
    (PATH_3, ((1, 1), (2, false), (3, 18), [15, 0, 0, 0])),
    (
        DISORDERED,
        ((1, 1), (1, true), (1, 3), [1 + 32 + (1 << 63), 0, 0, 0]),
    ),
    (VERSION_2, ((2, 3), (1, false), (1, 1), [0, 0, 0, 1 << 63])),
];

/// Returns the facts of the task of `text`.
fn facts(alloc: Global, text: &str) -> Result<Told, Fail> {
    let task = Task::read_text(alloc, text.as_bytes())?;
    Ok((
        (task.version(), task.first_block()),
        (task.processes(), task.symmetric()),
        (
            task.inputs().simplices().len(),
            task.outputs().simplices().len(),
        ),
        task.values(),
    ))
}

/// Texts of tasks that list things twice and out of order, with their canonical texts.
static CANONICAL: [(&str, &str); 2] = [
    (
        DISORDERED,
        r#"{"delta":[{"in":[[0,7]],"out":[[0],[5],[63]]}],"inputs":[[[0,7]]],"outputs":[[[0,0]],[[0,5]],[[0,63]]],"processes":1,"symmetric":true,"version":1}"#,
    ),
    (
        r#"{"version":1,"processes":2,"symmetric":true,"inputs":[[[1,0]],[[0,0],[1,0]],[[0,0]],[[0,0],[1,0]]],"outputs":[[[0,1],[1,0]],[[1,0]],[[0,0],[1,1]],[[0,2]],[[0,0],[1,1]]],"delta":[{"in":[[0,0],[1,0]],"out":[[1,0],[0,1],[1,0]]},{"in":[[1,0]],"out":[[1],[0]]},{"in":[[0,0]],"out":[[2],[0]]}]}"#,
        r#"{"delta":[{"in":[[0,0]],"out":[[0],[2]]},{"in":[[1,0]],"out":[[0],[1]]},{"in":[[0,0],[1,0]],"out":[[0,1],[1,0]]}],"inputs":[[[0,0],[1,0]]],"outputs":[[[0,2]],[[0,0],[1,1]],[[0,1],[1,0]]],"processes":2,"symmetric":true,"version":1}"#,
    ),
];

/// Returns the canonical text of the task of `text`.
fn canonical(alloc: Global, text: &str) -> Result<Vec<u8>, Fail> {
    let task = Task::read_text(alloc, text.as_bytes())?;
    Ok(task.write_text(alloc)?)
}

/// Checks the size and the values of a row.
#[test]
fn rows_are_their_values(rt: HostRuntime) {
    let row = Row::new(&[5, 7, 63, 255]);
    assert_eq!(rt; row.as_slice(), [5, 7, 63, 255].as_slice());
    assert_eq!(rt; (row.size(), row.value(0), row.value(3)), (4, 5, 255));
}

/// Checks that rows are ordered as lists of values.
#[test]
fn rows_are_ordered_as_lists(rt: HostRuntime) {
    let ascending = [Row::new(&[2, 9]), Row::new(&[3, 0]), Row::new(&[3, 0, 0])];
    for (i, left) in ascending.iter().enumerate() {
        for (j, right) in ascending.iter().enumerate() {
            let found = (left.cmp(right), left == right);
            assert_eq!(rt; found, (i.cmp(&j), i == j), "at {i} and {j}");
        }
    }
}

/// Checks the facts of each task of [`TEXTS`].
#[test]
fn texts_are_tasks(rt: HostRuntime) -> Result<(), Fail> {
    for (text, told) in &TEXTS {
        assert_eq!(rt; &facts(rt.alloc(), text)?, told, "{text}");
    }
    Ok(())
}

/// Checks that each text of [`CANONICAL`] has its expected canonical text.
#[test]
fn texts_have_their_canonical_texts(rt: HostRuntime) -> Result<(), Fail> {
    for (text, expected) in &CANONICAL {
        let written = canonical(rt.alloc(), text)?;
        assert_eq!(rt; written.as_slice(), expected.as_bytes());
    }
    Ok(())
}
