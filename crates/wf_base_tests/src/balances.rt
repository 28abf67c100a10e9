//! Tests of the checker of balances.

ghost use Rattle.std.specs.Prelude.{◌≤◌, length};

use std::alloc::{AllocError, Global};
use std::test::Fail;
use wf_examples::CONSENSUS_2;
use wf_task::Task;
use wf_tree_refine::first_rows;
use wf_tree_steps::balance::{
    Balance, BalanceFault, Multiplier, Others, is_balance, no_fault_exactly_if_balance,
};

/// Weak symmetry breaking of three processes, as in `gallery/tasks/symmetry-breaking-3.json`.
const BREAKING: &str = concat!(
    r#"{"delta":["#,
    r#"{"in":[[0,0]],"out":[[0],[1]]},{"in":[[1,0]],"out":[[0],[1]]},{"in":[[2,0]],"out":[[0],[1]]},"#,
    r#"{"in":[[0,0],[1,0]],"out":[[0,0],[0,1],[1,0],[1,1]]},"#,
    r#"{"in":[[0,0],[2,0]],"out":[[0,0],[0,1],[1,0],[1,1]]},"#,
    r#"{"in":[[1,0],[2,0]],"out":[[0,0],[0,1],[1,0],[1,1]]},"#,
    r#"{"in":[[0,0],[1,0],[2,0]],"out":[[0,0,1],[0,1,0],[0,1,1],[1,0,0],[1,0,1],[1,1,0]]}],"#,
    r#""inputs":[[[0,0],[1,0],[2,0]]],"outputs":["#,
    r#"[[0,0],[1,0],[2,1]],[[0,0],[1,1],[2,0]],[[0,0],[1,1],[2,1]],"#,
    r#"[[0,1],[1,0],[2,0]],[[0,1],[1,0],[2,1]],[[0,1],[1,1],[2,0]]],"#,
    r#""processes":3,"symmetric":true,"version":1}"#
);

/// Creates a multiplier: that of the equation of `simplex`, of the participant at `place` and of
/// the values `others` of the other participants.
fn weighted(simplex: u32, place: u8, others: &[u8], weight: u32) -> Multiplier
    requires { length others.now ≤ 3 }
{
    Multiplier {
        simplex,
        place,
        others: Others::new(others),
        weight,
    }
}

/// Creates a balance for consensus of two processes, with `modulus`, `sum` and three multipliers,
/// the last of which is `last`. The first equation says that process 0 alone has one execution, and
/// the second that process 1 decides 0 as often with process 0 as without it.
fn one_decides_0(
    alloc: Global,
    modulus: u32,
    sum: u32,
    last: Multiplier,
) -> Result<Balance, AllocError> {
    let multipliers = vec![in alloc; weighted(0, 0, &[], 1), weighted(2, 0, &[0], 1), last]?;
    Ok(Balance {
        modulus,
        sum,
        multipliers,
    })
}

/// Creates a balance modulo 3 for [`BREAKING`]. In each equation on two or three processes the
/// other participants decide 0 if their rank is lower than that of the participant at the
/// multiplier's place, and 1 if it is higher. `middle` is the weight for the middle one of three
/// processes.
fn three_bits(alloc: Global, middle: u32) -> Result<Balance, AllocError> {
    let multipliers = vec![in alloc;
        weighted(0, 0, &[], 1),
        weighted(3, 0, &[1], 1),
        weighted(3, 1, &[0], 1),
        weighted(6, 0, &[1, 1], 1),
        weighted(6, 1, &[0, 1], middle),
        weighted(6, 2, &[0, 0], 1),
    ]?;
    Ok(Balance {
        modulus: 3,
        sum: 1,
        multipliers,
    })
}

/// Returns the checker's verdict on `balance` for the task of `text`.
fn judged(alloc: Global, text: &str, balance: &Balance) -> Result<Result<(), BalanceFault>, Fail> {
    let task = Task::read_text(alloc, text.as_bytes())?;
    let rows = first_rows(alloc, &task)?;
    Ok(is_balance(alloc, &task, &rows, balance))
}

/// Returns the checker's verdict on the balance for consensus that [`one_decides_0`] creates.
fn judged_with(
    alloc: Global,
    modulus: u32,
    sum: u32,
    last: Multiplier,
) -> Result<Result<(), BalanceFault>, Fail> {
    let balance = one_decides_0(alloc, modulus, sum, last)?;
    judged(alloc, CONSENSUS_2, &balance)
}

/// Checks that consensus has a balance modulo 2, and that another modulus or another sum is
/// refused.
#[test]
fn consensus_has_a_balance(rt: HostRuntime) -> Result<(), Fail> {
    let alloc = rt.alloc();
    let last = weighted(2, 1, &[0], 1);
    assert_eq!(rt; judged_with(alloc, 2, 1, last)?, Ok(()));
    let (simplex, tuple) = (2, 0);
    let left = BalanceFault::NotBalanced { simplex, tuple };
    assert_eq!(rt; judged_with(alloc, 3, 1, last)?, Err(left));
    assert_eq!(rt;
        judged_with(alloc, 3, 2, last)?,
        Err(BalanceFault::OtherSum)
    );
    assert_eq!(rt;
        judged_with(alloc, 2, 2, last)?,
        Err(BalanceFault::SumRange)
    );
    no_fault_exactly_if_balance();
    Ok(())
}

/// Checks that weak symmetry breaking has a balance modulo 3, and that another weight leaves a
/// tuple that doesn't count 0.
#[test]
fn symmetry_breaking_has_a_balance_modulo_3(rt: HostRuntime) -> Result<(), Fail> {
    let alloc = rt.alloc();
    assert_eq!(rt; judged(alloc, BREAKING, &three_bits(alloc, 2)?)?, Ok(()));
    let (simplex, tuple) = (3, 1);
    let left = BalanceFault::NotBalanced { simplex, tuple };
    assert_eq!(rt; judged(alloc, BREAKING, &three_bits(alloc, 1)?)?, Err(left));
    Ok(())
}

/// Checks the faults of a multiplier that doesn't fit its simplex. The simplex is judged before the
/// place, the number of other values and the weight, in this order.
#[test]
fn a_multiplier_fits_its_simplex(rt: HostRuntime) -> Result<(), Fail> {
    let alloc = rt.alloc();
    let multiplier = 2;
    let fault = BalanceFault::WeightRange { multiplier };
    assert_eq!(rt;
        judged_with(alloc, 2, 1, weighted(2, 1, &[0], 0))?,
        Err(fault)
    );
    let fault = BalanceFault::OthersLength { multiplier };
    assert_eq!(rt;
        judged_with(alloc, 2, 1, weighted(2, 1, &[], 0))?,
        Err(fault)
    );
    let fault = BalanceFault::NoPlace { multiplier };
    assert_eq!(rt;
        judged_with(alloc, 2, 1, weighted(2, 2, &[], 0))?,
        Err(fault)
    );
    let fault = BalanceFault::NoSimplex { multiplier };
    assert_eq!(rt;
        judged_with(alloc, 2, 1, weighted(3, 2, &[], 0))?,
        Err(fault)
    );
    Ok(())
}
