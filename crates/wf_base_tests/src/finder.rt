//! Tests of the finder, on tasks of which it is known whether they have a balance.

use std::alloc::Global;
use std::cell::Cell;
use std::test::Fail;
use wf_examples::{CONSENSUS_2, RENAMING_2_3};
use wf_task::Task;
use wf_tree_finder::{
    FinderProgress, NoFinderProgress, TuplesByClass, find_balance, has_integer_solution,
};
use wf_tree_refine::first_rows;

/// A task of three processes that has a balance modulo 4 but none modulo 2.
const BALANCE_MODULO_4: &str = concat!(
    r#"{"delta":[{"in":[[0,0]],"out":[[0],[1],[2]]},{"in":[[1,0]],"out":[[0],[1],[2]]},"#,
    r#"{"in":[[2,0]],"out":[[0],[1],[2]]},{"in":[[0,0],[1,0]],"out":[[0,0],[0,1],[0,2],"#,
    r#"[1,0],[1,2],[2,0],[2,1],[2,2]]},{"in":[[0,0],[2,0]],"out":[[0,0],[0,1],[0,2],[1,"#,
    r#"0],[1,2],[2,0],[2,1],[2,2]]},{"in":[[1,0],[2,0]],"out":[[0,0],[0,1],[0,2],[1,0],"#,
    r#"[1,2],[2,0],[2,1],[2,2]]},{"in":[[0,0],[1,0],[2,0]],"out":[[0,1,0],[0,1,2],[0,2,"#,
    r#"0],[1,0,2],[1,2,0]]}],"inputs":[[[0,0],[1,0],[2,0]]],"outputs":[[[0,0],[1,0]],"#,
    r#"[[0,0],[2,1]],[[0,2],[1,0]],[[0,2],[1,1]],[[0,2],[1,2]],[[0,2],[2,0]],[[0,2],[2,"#,
    r#"1]],[[0,2],[2,2]],[[1,0],[2,0]],[[1,0],[2,1]],[[1,2],[2,1]],[[1,2],[2,2]],[[0,"#,
    r#"0],[1,1],[2,0]],[[0,0],[1,1],[2,2]],[[0,0],[1,2],[2,0]],[[0,1],[1,0],[2,2]],[[0,"#,
    r#"1],[1,2],[2,0]]],"processes":3,"symmetric":true,"version":1}"#,
);

/// A listener that stores the last numbers of unknowns and equations that were reported to it.
#[derive(Drop)]
struct LastProgress {
    unknowns: Cell<u64>,
    equations: Cell<u64>,
}

impl FinderProgress for LastProgress {
    fn system(&self, _modulus: u32, unknowns: u64) {
        self.unknowns.set(unknowns);
    }

    fn equations(&self, _modulus: u32, count: u64) {
        self.equations.set(count);
    }
}

/// Returns the tuples of the task of `text` in the form that the finder takes.
fn tuples_of(alloc: Global, text: &str) -> Result<TuplesByClass, Fail> {
    let task = Task::read_text(alloc, text.as_bytes())?;
    let rows = first_rows(alloc, &task)?;
    Ok(TuplesByClass::of(alloc, &task, &rows)?)
}

/// Returns the sum and the number of multipliers of the balance modulo `modulus` that the finder
/// finds, or `None` if it finds none.
fn found(alloc: Global, text: &str, modulus: u32) -> Result<Option<(u32, usize)>, Fail> {
    let tuples = tuples_of(alloc, text)?;
    match find_balance(alloc, &tuples, modulus, &NoFinderProgress)? {
        Some(balance) => Ok(Some((balance.sum, balance.multipliers.len()))),
        None => Ok(None),
    }
}

/// Returns whether the equations of the task have a solution in the integers, in which case there
/// is no balance modulo any number.
fn has_integers(alloc: Global, text: &str) -> Result<bool, Fail> {
    let tuples = tuples_of(alloc, text)?;
    Ok(has_integer_solution(alloc, &tuples, &NoFinderProgress)?)
}

/// Checks that consensus of two processes has a balance modulo 2 with three multipliers. Modulo 2,
/// a process decides 1 in as many executions of both as it does alone: process 1 in one, and
/// process 0 in none. But in executions of both they decide the same.
#[test]
fn consensus_has_a_balance(rt: HostRuntime) -> Result<(), Fail> {
    let alloc = rt.alloc();
    assert_eq!(rt; found(alloc, CONSENSUS_2, 2)?, Some((1, 3)));
    Ok(())
}

/// Checks what a listener is notified of for consensus. The unknowns are the constant, the tuple of
/// each process alone, and two tuples of both. Each process alone has one equation, both together
/// have two at the first place, and the first one at the second place contradicts them.
#[test]
fn a_listener_is_told(rt: HostRuntime) -> Result<(), Fail> {
    let alloc = rt.alloc();
    let tuples = tuples_of(alloc, CONSENSUS_2)?;
    let listener = LastProgress {
        unknowns: Cell::new(0),
        equations: Cell::new(0),
    };
    assert!(rt; !has_integer_solution(alloc, &tuples, &listener)?);
    assert_eq!(rt; listener.unknowns.get(), 5);
    assert_eq!(rt; listener.equations.get(), 5);
    Ok(())
}

/// Checks that no balance is found for a task that has a decision map.
#[test]
fn a_task_with_a_map_has_no_balance(rt: HostRuntime) -> Result<(), Fail> {
    let alloc = rt.alloc();
    assert_eq!(rt; found(alloc, RENAMING_2_3, 2)?, None);
    assert_eq!(rt; found(alloc, RENAMING_2_3, 2_147_483_647)?, None);
    assert_eq!(rt; found(alloc, RENAMING_2_3, 1)?, None);
    assert!(rt; has_integers(alloc, RENAMING_2_3)?);
    Ok(())
}

/// Checks that a task may have a balance modulo a power of a prime but none modulo the prime.
#[test]
fn a_balance_modulo_4_but_not_2(rt: HostRuntime) -> Result<(), Fail> {
    let alloc = rt.alloc();
    assert_eq!(rt; found(alloc, BALANCE_MODULO_4, 2)?, None);
    let sum = found(alloc, BALANCE_MODULO_4, 4)?.map(|balance| balance.0);
    assert_eq!(rt; sum, Some(2));
    assert!(rt; !has_integers(alloc, BALANCE_MODULO_4)?);
    Ok(())
}
