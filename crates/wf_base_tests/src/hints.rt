//! Tests of the LRAT checker, on proofs that are check_byte_by_byte whole and byte by byte.

use crate::clauses::{FOUR, clauses};
use std::alloc::{AllocError, Global};
use std::test::Fail;
use wf_sat_check::lrat::{Literal, LratChecker, LratFault, LratProof};

/// The result of checking a proof with hints.
type Answer = Result<(), LratFault>;

/// A formula on `variables` variables, and proofs about it, each with its expected result.
#[derive(Clone, Copy)]
struct ProofCase {
    variables: u32,
    rows: &'static [&'static [i8]],
    proofs: &'static [(&'static [u8], Answer)],
}

static CASES: [ProofCase; 3] = [
    ProofCase {
        variables: 2,
        rows: &FOUR,
        proofs: &[
            (b"5 1 0 1 2 0\n6 0 5 3 4 0\n", Ok(())),
            // hints behind a conflict are ignored
            (b"5 1 0 1 2 -9 8 0\n6 0 5 3 4 0\n", Ok(())),
            // groups of hints for both clauses with -1, with the hints of the first group in either
            // order
            (b"5 1 0 -3 2 1 -4 1 2 0\n6 0 5 3 4 0\n", Ok(())),
            (b"5 1 0 -3 1 2 -4 1 2 0\n6 0 5 3 4 0\n", Ok(())),
            // the group of the second clause with -1 is missing
            (
                b"5 1 0 -3 1 2 0\n",
                Err(LratFault::ClauseLeftOut { line: 1 }),
            ),
            // the group of the first clause with -1 is missing
            (
                b"5 1 0 -4 1 2 0\n",
                Err(LratFault::ClauseLeftOut { line: 1 }),
            ),
            // both groups are there, but in the wrong order
            (
                b"\n5 1 0 -4 1 2 -3 1 2 0\n",
                Err(LratFault::ClauseLeftOut { line: 2 }),
            ),
            // a group that leads to no conflict
            (
                b"5 1 0 -3 -4 1 2 0\n",
                Err(LratFault::NoConflict { line: 1 }),
            ),
            (
                b"5 1 0 -3 9 -4 1 2 0\n",
                Err(LratFault::UnknownHint { line: 1 }),
            ),
            // a group behind that of the last clause with -1 is ignored
            (b"5 1 0 -3 1 2 -4 1 2 -77 99 0\n6 0 5 3 4 0\n", Ok(())),
            // an empty lemma, which has no first literal; then lemmas and hints that are cut or
            // malformed
            (b"5 0 -3 1 2 0\n", Err(LratFault::NoConflict { line: 1 })),
            (b"5 1 0 1 0\n", Err(LratFault::NoConflict { line: 1 })),
            (b"5 1 0 -0\n", Err(LratFault::NotALiteral { line: 1 })),
            (b"5 d -1 0\n", Err(LratFault::NotALiteral { line: 1 })),
            // a literal of a new variable is RAT if no clause has its negation
            (b"5 65540 0 -1 0\n6 1 0 1 2 0\n7 0 6 3 4 0\n", Ok(())),
            (b"5 65540 0 0\n6 1 0 1 2 0\n7 0 6 3 4 0\n", Ok(())),
            (b"5 1 0 0\n", Err(LratFault::NoConflict { line: 1 })),
            (
                b"5 65541 0 -1 0\n",
                Err(LratFault::NoSuchVariable { line: 1 }),
            ),
        ],
    },
    // lemmas that define variable 3 as 1 and 2, clause by clause
    ProofCase {
        variables: 2,
        rows: &[&[1, 2], &[-1, 2], &[1, -2], &[-1, -2]],
        proofs: &[
            (
                b"5 -3 1 0 -1 0\n6 -3 2 0 -1 0\n7 3 -1 -2 0 -5 -6 0\n8 2 0 1 2 0\n9 0 8 3 4 0\n",
                Ok(()),
            ),
            // a clause needs no group if one of its other literals is true
            (
                b"5 -3 1 0 -1 0\n6 -3 2 0 -1 0\n7 3 -1 -2 0 -9 0\n8 2 0 1 2 0\n9 0 8 3 4 0\n",
                Ok(()),
            ),
            // only the first literal of a lemma may be its pivot
            (
                b"5 -3 1 0 -1 0\n6 -3 2 0 -1 0\n7 -1 3 -2 0 -5 -6 0\n",
                Err(LratFault::ClauseLeftOut { line: 3 }),
            ),
        ],
    },
    ProofCase {
        variables: 4,
        rows: &[&[-1, 2], &[-1, 3], &[2, 4], &[2, -4], &[3, -2]],
        proofs: &[
            // what a group forces is undone behind it: here 4, and that 2 is false
            (
                b"6 1 0 -1 3 4 -2 4 0\n",
                Err(LratFault::NoConflict { line: 1 }),
            ),
            (
                b"6 1 0 -1 3 4 -2 5 3 4 0\n",
                Err(LratFault::NoContradiction { line: 2 }),
            ),
            // what the hints before the groups force stays: here that 2 is false
            (
                b"6 1 3 0 5 -1 3 4 -2 3 4 0\n",
                Err(LratFault::NoContradiction { line: 2 }),
            ),
        ],
    },
];

/// Creates a checker for `formula` on `variables` variables.
fn checker_of(
    alloc: Global,
    variables: u32,
    formula: &[Vec<Literal>],
) -> Result<LratChecker, AllocError> {
    let mut checker = LratChecker::new(alloc, variables)?;
    for clause in formula {
        checker.add(clause)?;
    }
    Ok(checker)
}

/// Checks `proof` with `checker`, check_byte_by_byte byte by byte, and returns the result. The
/// parser is created for `variables` variables.
fn check_byte_by_byte(
    alloc: Global,
    checker: &mut LratChecker,
    variables: u32,
    proof: &[u8],
) -> Answer {
    let mut reading = LratProof::new(alloc, variables);
    for byte in proof {
        reading.feed(checker, &[*byte])?;
    }
    reading.finish(checker)
}

/// Feeds `proof` in one piece to a reader of proofs on `variables` variables, and returns the
/// result.
fn check_whole(alloc: Global, checker: &mut LratChecker, variables: u32, proof: &[u8]) -> Answer {
    let mut reading = LratProof::new(alloc, variables);
    reading.feed(checker, proof)?;
    reading.finish(checker)
}

/// Checks that each proof of [`CASES`] has its expected result, read whole and byte by byte.
#[test]
fn proofs_with_hints_are_judged_whole_and_in_pieces(rt: HostRuntime) -> Result<(), Fail> {
    let alloc = rt.alloc();
    for ProofCase {
        variables,
        rows,
        proofs,
    } in CASES {
        let formula = clauses(alloc, rows)?;
        for (proof, answer) in proofs {
            let mut checker = checker_of(alloc, variables, &formula)?;
            let whole = check_whole(alloc, &mut checker, variables, proof);
            let mut checker = checker_of(alloc, variables, &formula)?;
            let pieces = check_byte_by_byte(alloc, &mut checker, variables, proof);
            assert_eq!(rt; (whole, pieces), (*answer, *answer), "{proof:?}");
        }
    }
    Ok(())
}
