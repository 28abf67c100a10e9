//! Tests of the DRAT checker, on proofs that are checked whole and byte by byte.

use crate::clauses::{FOUR, clauses};
use std::alloc::{AllocError, Global};
use std::test::Fail;
use wf_sat_check::rup::{Checker, Literal, Proof, ProofFault, check_proof};

/// The result of checking a proof.
type Answer = Result<(), ProofFault>;

/// A formula on `variables` variables, and proofs about it, each with its expected result.
#[derive(Clone, Copy)]
struct ProofCase {
    variables: u32,
    rows: &'static [&'static [i8]],
    proofs: &'static [(&'static [u8], Answer)],
}

static CASES: [ProofCase; 3] = [
    ProofCase {
        variables: 2,
        rows: &FOUR,
        proofs: &[
            (b"1 0\n", Ok(())),
            (b"c a lemma\n1 0\n0\n", Ok(())),
            (b"1 0", Ok(())),
            (b"1\n0", Ok(())),
            (b"\t1   0\r\n", Ok(())),
            (b"1 2 0\n-2 0\n", Ok(())),
            (b"1 2 0\nd 1 2 0\n1 0\n", Ok(())),
            (
                b"d 1 2 65541 0\n1 0\n",
                Err(ProofFault::NoSuchVariable { line: 1 }),
            ),
            // whatever follows the contradiction is ignored
            (b"1 0\nx\n\x00", Ok(())),
            (b"", Err(ProofFault::NoContradiction { line: 1 })),
            (b"c\n1 2 0\n", Err(ProofFault::NoContradiction { line: 3 })),
            (b"1", Err(ProofFault::NoContradiction { line: 1 })),
            (
                b"d 1 2 0\n-1 0\n",
                Err(ProofFault::NoContradiction { line: 3 }),
            ),
            (b"0\n", Err(ProofFault::NotImplied { line: 1 })),
            (b"d 1 2 0\n1 0\n", Err(ProofFault::NotImplied { line: 2 })),
            (b"d 2 1 0\n1 0\n", Err(ProofFault::NotImplied { line: 2 })),
            (
                b"d 1 2 0\n\n1\n0\n",
                Err(ProofFault::NotImplied { line: 4 }),
            ),
            // a proof may use new variables, up to 65,540 here
            (b"65540 0\n1 0\n", Ok(())),
            (b"c\n65541 0\n", Err(ProofFault::NoSuchVariable { line: 2 })),
            (b"-65541 0\n", Err(ProofFault::NoSuchVariable { line: 1 })),
            (
                b"99999999999 0\n",
                Err(ProofFault::NoSuchVariable { line: 1 }),
            ),
            (
                b"4294967297 0\n",
                Err(ProofFault::NoSuchVariable { line: 1 }),
            ),
            (b"\n1 x 0\n", Err(ProofFault::NotALiteral { line: 2 })),
            (b"1 -0\n", Err(ProofFault::NotALiteral { line: 1 })),
            (b"1 - 0\n", Err(ProofFault::NotALiteral { line: 1 })),
            (b"--1 0\n", Err(ProofFault::NotALiteral { line: 1 })),
            (b"1x 0\n", Err(ProofFault::NotALiteral { line: 1 })),
            (b"1 2\nd 0\n", Err(ProofFault::NotALiteral { line: 2 })),
            (b"1 c 0\n", Err(ProofFault::NotALiteral { line: 1 })),
            (b"d d 1 0\n", Err(ProofFault::NotALiteral { line: 1 })),
            (b"a\x02\x00", Err(ProofFault::Binary)),
            (b"d\x82\x01\x00", Err(ProofFault::Binary)),
        ],
    },
    ProofCase {
        variables: 4,
        rows: &[&[1, 2], &[1, -2], &[2], &[-1, 3, 4], &[3, -4]],
        proofs: &[
            // a deleted clause of one literal still holds
            (
                b"d 2 0\n2 3 0\n1 0\n3 0\n",
                Err(ProofFault::NoContradiction { line: 5 }),
            ),
            (
                b"d -4 3 0\n-1 3 0\n",
                Err(ProofFault::NotImplied { line: 2 }),
            ),
        ],
    },
    // three pigeons, each in one of two holes, and no two in the same hole
    ProofCase {
        variables: 6,
        rows: &[
            &[1, 2],
            &[3, 4],
            &[5, 6],
            &[-1, -3],
            &[-1, -5],
            &[-3, -5],
            &[-2, -4],
            &[-2, -6],
            &[-4, -6],
        ],
        proofs: &[
            (b"-1 0\n0\n", Ok(())),
            (
                b"d -4 -6 0\n-1 0\n",
                Err(ProofFault::NotImplied { line: 2 }),
            ),
        ],
    },
];

/// Creates a checker for `formula` on `variables` variables.
fn checker_of(
    alloc: Global,
    variables: u32,
    formula: &[Vec<Literal>],
) -> Result<Checker, AllocError> {
    let mut checker = Checker::new(alloc, variables)?;
    for clause in formula {
        checker.add(alloc, clause)?;
    }
    Ok(checker)
}

/// Feeds `proof` byte by byte to a reader of proofs on `variables` variables, and returns the
/// result.
fn check_byte_by_byte(
    alloc: Global,
    checker: &mut Checker,
    variables: u32,
    proof: &[u8],
) -> Answer {
    let mut reading = Proof::new(alloc, variables);
    for byte in proof {
        reading.feed(alloc, checker, &[*byte])?;
    }
    reading.finish(alloc, checker)
}

/// Checks that each proof of [`CASES`] has its expected result, read whole and byte by byte.
#[test]
fn proofs_are_judged_whole_and_in_pieces(rt: HostRuntime) -> Result<(), Fail> {
    let alloc = rt.alloc();
    for ProofCase {
        variables,
        rows,
        proofs,
    } in CASES {
        let formula = clauses(alloc, rows)?;
        for (proof, answer) in proofs {
            let whole = check_proof(alloc, variables, &formula, proof);
            let mut checker = checker_of(alloc, variables, &formula)?;
            let pieces = check_byte_by_byte(alloc, &mut checker, variables, proof);
            assert_eq!(rt; (whole, pieces), (*answer, *answer), "{proof:?}");
        }
    }
    Ok(())
}

/// Checks that the largest variable of a proof depends on the number of variables that the proof is
/// created with, and not on that of the checker.
#[test]
fn a_proof_has_its_own_variables(rt: HostRuntime) -> Result<(), Fail> {
    let alloc = rt.alloc();
    let formula = clauses(alloc, &FOUR)?;
    let mut checker = checker_of(alloc, 2, &formula)?;
    let rows: [(u32, &[u8], u64); 2] = [
        (1, b"d 1 1 0\n\n-65539 0\n", 3),
        (4, b"1 2 -3 4 0\n65545 0\n", 2),
    ];
    for (variables, proof, line) in rows {
        let found = check_byte_by_byte(alloc, &mut checker, variables, proof);
        assert_eq!(rt; found, Err(ProofFault::NoSuchVariable { line }));
    }
    Ok(())
}
