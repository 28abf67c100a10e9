//! Tests of the checker of obstructions, on nodes that are read from texts. `tests/rows` has what
//! `verify` says of obstructions.

use crate::covers::TORUS;
use crate::refined::HOURGLASS;
use std::alloc::Global;
use std::test::Fail;
use wf_examples::CONSENSUS_2;
use wf_task::Task;
use wf_tree_check::{
    Limit, MAX_LEVELS, MAX_NODES, TreeFault, is_obstruction, what_is_accepted_is_an_obstruction,
    what_is_refused_is_none,
};
use wf_tree_text::read_obstruction;

/// The nodes of an obstruction of the hourglass: a split of the simplex of all three, and a
/// balance. After the split value 1 of process 0 has two names, so that 1 is no longer joined to 0.
const SPLIT: &str = "split 6\nbalance 2 1\nm 1 1 0\nm 1 3 0 1\nm 1 3 1 1\n";

/// The nodes of an obstruction of the torus: a cover with two sheets, and a balance. The two sheets
/// lack two triangles, and the loop round one of them doesn't bound.
const COVER: &str = concat!(
    "cover 6 2 0\np 0 1 1 2 1 0\np 0 1 2 2 1 0\np 0 2 1 1 1 0\np 0 2 2 1 1 0\np 1 1 2 2 1 0\n",
    "p 1 2 2 1 1 0\nbalance 2 1\nm 1 2 0\nm 1 3 1 0\nm 1 4 0 1\nm 1 4 1 0\nm 1 5 0 4\n",
    "m 1 6 0 2 0\nm 1 6 0 4 4\nm 1 6 1 0 0\nm 1 6 1 2 4\nm 1 6 2 0 1\nm 1 6 2 2 2\n"
);

/// Returns the checker's verdict on the nodes in `lines`, as an obstruction of `task`.
fn judged(alloc: Global, task: &str, lines: &str) -> Result<Result<(), TreeFault>, Fail> {
    let task = Task::read_text(alloc, task.as_bytes())?;
    let mut text = String::from_str(alloc, "wfcheck obstruction 1\nprocesses 3\nsimplices 7\n")?;
    text.push_str(lines)?;
    text.push_str("end\n")?;
    let obstruction = read_obstruction(alloc, text.as_bytes())?;
    Ok(is_obstruction(alloc, &task, &obstruction.nodes))
}

/// Returns the checker's verdict on `count` cases of simplex 0 of consensus, each below the one
/// before.
fn judged_below(alloc: Global, count: u32) -> Result<Result<(), TreeFault>, Fail> {
    let mut text = String::new(alloc);
    'cases: for _ in 0..count {
        text.push_str("case 0\n")?;
    }
    judged(alloc, CONSENSUS_2, text.as_str())
}

/// Checks that an obstruction with a split and one with a cover are accepted.
#[test]
fn a_split_and_a_cover_are_accepted(rt: HostRuntime) -> Result<(), Fail> {
    let alloc = rt.alloc();
    assert_eq!(rt; judged(alloc, HOURGLASS, SPLIT)?, Ok(()));
    assert_eq!(rt; judged(alloc, TORUS, COVER)?, Ok(()));
    what_is_accepted_is_an_obstruction();
    what_is_refused_is_none();
    Ok(())
}

/// Checks that obstructions with too many levels or too many nodes are refused.
#[test]
fn levels_and_nodes_are_limited(rt: HostRuntime) -> Result<(), Fail> {
    let alloc = rt.alloc();
    assert_eq!(rt; (MAX_LEVELS, MAX_NODES), (64, 65_536));
    let deep = TreeFault::TooLarge {
        node: 64,
        limit: Limit::Depth,
    };
    assert_eq!(rt; judged_below(alloc, 65_536)?, Err(deep));
    let many = TreeFault::TooLarge {
        node: 65_536,
        limit: Limit::Nodes,
    };
    assert_eq!(rt; judged_below(alloc, 65_537)?, Err(many));
    Ok(())
}
