//! Tests of the operations of [`Checker`].

use crate::clauses::clause;
use std::alloc::{AllocError, Global};
use std::test::Fail;
use wf_sat_check::rup::{Checker, Literal};

/// An operation on a checker, and the result that it has to have.
#[derive(Clone, Copy)]
enum Operation {
    Add(&'static [i8]),
    Delete(&'static [i8]),
    /// A clause is added and deleted 5000 times.
    AddAndDelete(&'static [i8]),
    /// A lemma has to be accepted: it follows, or it is a resolution asymmetric tautology.
    Accepts(&'static [i8]),
    /// The checker has to refuse the lemma: it neither follows by unit propagation nor is a
    /// resolution asymmetric tautology.
    Refuses(&'static [i8]),
    IsRefuted(bool),
}

use Operation::{Accepts, Add, AddAndDelete, Delete, IsRefuted, Refuses};

/// Histories of checkers on six variables. Each has a name and the operations in their order.
static HISTORIES: [(&str, &[Operation]); 11] = [
    (
        "a lemma that follows is kept",
        &[
            Add(&[1, 2]),
            Add(&[1, -2]),
            Refuses(&[-1]),
            Accepts(&[1]),
            IsRefuted(false),
            Add(&[-1, 3]),
            Accepts(&[3]),
            Add(&[-3, -1]),
            IsRefuted(true),
        ],
    ),
    (
        "a definition of a new variable is taken, and deleted",
        &[
            Add(&[1, 2]),
            Add(&[-1, 3]),
            Accepts(&[4, -1, -2]),
            Accepts(&[-4, 1]),
            Accepts(&[-4, 2]),
            Refuses(&[4]),
            Delete(&[1, -4]),
            Delete(&[2, -4]),
            Accepts(&[4]),
        ],
    ),
    (
        "a clause without a literal refutes",
        &[Add(&[1, 2]), IsRefuted(false), Add(&[]), IsRefuted(true)],
    ),
    (
        "larger variables are taken too",
        &[
            Add(&[9]),
            Add(&[-9, 12, 1]),
            Add(&[-12, 1]),
            Refuses(&[-9, 12]),
            Refuses(&[-1, 10]),
            Accepts(&[9, 20]),
            Accepts(&[1]),
            Refuses(&[-1, 12]),
            IsRefuted(false),
        ],
    ),
    (
        "what is refused leaves no trace",
        &[
            Add(&[1, 2]),
            Add(&[-1, 3]),
            Add(&[-2, 3]),
            Refuses(&[-1]),
            Refuses(&[-3]),
            Refuses(&[]),
            Accepts(&[3]),
            Refuses(&[-3, 2]),
        ],
    ),
    (
        "a clause is deleted whatever its order",
        &[
            Add(&[1, 2, 3]),
            Add(&[3, 2, 1]),
            Add(&[4, 5, 6]),
            Add(&[-1, 5]),
            Accepts(&[1, 2, 3, 4]),
            Delete(&[4, 3, 2, 1]),
            Delete(&[2, 3]),
            Delete(&[2, 3, 1, 3]),
            Accepts(&[1, 3, 2]),
            Delete(&[3, 1, 2]),
            Delete(&[1, 3, 2]),
            Refuses(&[1, 3, 2]),
            Accepts(&[6, 5, 4]),
        ],
    ),
    (
        "a lemma is kept once",
        &[
            Add(&[1, 2, 3]),
            Add(&[1, 2, -3]),
            Add(&[-4, 3]),
            Accepts(&[1, 2]),
            Delete(&[1, 2, 3]),
            Accepts(&[4, 2, 1]),
            Delete(&[1, 2, 4]),
            Delete(&[2, 1]),
            Refuses(&[4, 2, 1]),
        ],
    ),
    (
        "a deleted clause of one literal still holds",
        &[Add(&[1]), Delete(&[1]), Accepts(&[1]), Refuses(&[-1, 2])],
    ),
    (
        "two clauses of one literal each refute",
        &[Add(&[-2]), IsRefuted(false), Add(&[2]), IsRefuted(true)],
    ),
    (
        "three pigeons are refuted by one lemma",
        &[
            Add(&[1, 2]),
            Add(&[3, 4]),
            Add(&[5, 6]),
            Add(&[-1, -3]),
            Add(&[-1, -5]),
            Add(&[-3, -5]),
            Add(&[-2, -4]),
            Add(&[-2, -6]),
            Add(&[-4, -6]),
            IsRefuted(false),
            Refuses(&[]),
            Accepts(&[-1]),
            IsRefuted(true),
        ],
    ),
    (
        "what is kept outlasts many deletions",
        &[
            Add(&[1, 2]),
            Add(&[1, -2]),
            AddAndDelete(&[4, 5, 6]),
            Refuses(&[-1, 3]),
            Refuses(&[-1, 4, 5]),
            Accepts(&[1]),
            IsRefuted(false),
        ],
    ),
];

impl Operation {
    /// Returns the clause of the operation, which is empty for `IsRefuted`.
    fn row(self) -> &'static [i8] {
        match self {
            Add(row) | Delete(row) | AddAndDelete(row) | Accepts(row) | Refuses(row) => row,
            IsRefuted(_) => &[],
        }
    }
}

/// Adds the clause `passing` and deletes it again, 5000 times.
fn add_and_delete(
    alloc: Global,
    checker: &mut Checker,
    passing: &[Literal],
) -> Result<(), AllocError> {
    for _ in 0..5000 {
        checker.add(alloc, passing)?;
        checker.delete(passing)?;
    }
    Ok(())
}

/// Applies `act` to `checker`, and returns whether it has the result that it has to have.
fn holds(alloc: Global, checker: &mut Checker, act: Operation) -> Result<bool, AllocError> {
    let literals = clause(alloc, act.row())?;
    match act {
        Add(_) => checker.add(alloc, &literals)?,
        Delete(_) => checker.delete(&literals)?,
        AddAndDelete(_) => add_and_delete(alloc, checker, &literals)?,
        Accepts(_) | Refuses(_) => {
            let follows = checker.derive(alloc, &literals)?;
            return Ok(follows == matches!(act, Accepts(_)));
        }
        IsRefuted(refuted) => return Ok(checker.is_refuted() == refuted),
    }
    Ok(true)
}

/// Returns the index of the first operation without its expected result, or `None` if there is
/// none.
fn first_wrong(
    alloc: Global,
    checker: &mut Checker,
    acts: &[Operation],
) -> Result<Option<usize>, AllocError> {
    for (place, act) in acts.iter().enumerate() {
        if !holds(alloc, checker, *act)? {
            return Ok(Some(place));
        }
    }
    Ok(None)
}

/// Checks that each operation of [`HISTORIES`] has its expected result.
#[test]
fn each_operation_has_its_expected_result(rt: HostRuntime) -> Result<(), Fail> {
    for (name, acts) in &HISTORIES {
        let mut checker = Checker::new(rt.alloc(), 6)?;
        let variables = checker.variables();
        let wrong = first_wrong(rt.alloc(), &mut checker, acts)?;
        assert_eq!(rt; (variables, wrong), (6, None), "{name}");
    }
    Ok(())
}
