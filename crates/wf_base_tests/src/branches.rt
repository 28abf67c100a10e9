//! Tests of proofs about the question of a branch, with lemmas that were worked out by hand.
//!
//! Renaming of two processes to three names has three points after one round. Any two of them are
//! in an execution together, where they may not have the same name. Point v has the variables 3 * v
//! + 1 to 3 * v + 3.

ghost use Rattle.wf_complex.specs.Protocol.{IsProtocol};

use crate::asking::joined;
use std::alloc::{AllocError, Global};
use std::test::Fail;
use wf_base::set::Mask;
use wf_complex::Protocol;
use wf_examples::RENAMING_2_3;
use wf_sat_check::rup::{Checker, Proof};
use wf_sat_cnf::pose_branch;
use wf_task::Task;

/// The set of the values 0 and 1.
const BOTH: Mask = [0b11, 0, 0, 0];

/// The set of the values 0, 1 and 2.
const ALL: Mask = [0b111, 0, 0, 0];

/// Branches of renaming after one round, lemmas, and whether the lemmas refute the branch. The
/// branch with two names at each point has no map, which takes a lemma to show. That with three
/// names at the last point has one. In the last branch a point has no candidate.
static POSED: [([Mask; 3], &str, bool); 6] = [
    ([BOTH, BOTH, BOTH], "", false),
    ([BOTH, BOTH, BOTH], "-1 0\n", true),
    ([BOTH, BOTH, ALL], "-1 0\n", false),
    ([BOTH, BOTH, ALL], "-9 0\n", false),
    ([BOTH, BOTH, ALL], "9 0\n", false),
    ([[1, 0, 0, 0], [0, 0, 0, 0], [0b100, 0, 0, 0]], "", true),
];

/// Returns whether `lemmas` refute the branch of the task with the candidates `sets`, or `None` if
/// there are not as many sets as points.
fn are_refuting(
    alloc: Global,
    task: &Task,
    protocol: &Protocol,
    sets: &[Mask],
    lemmas: &[u8],
) -> Result<Option<bool>, AllocError>
    requires { IsProtocol task.now protocol.now.rounds protocol.now }
{
    if sets.len() != protocol.points() as usize {
        return Ok(None);
    }
    let mut checker = pose_branch::<Checker>(alloc, task, protocol, sets)?;
    let mut proof = Proof::new(alloc, checker.variables());
    let is_read = proof.feed(alloc, &mut checker, lemmas).is_ok();
    Ok(Some(is_read && checker.is_refuted()))
}

/// Returns whether `lemmas` refute the branch of renaming after one round with the candidates
/// `sets`, or `None` if there are not as many sets as points.
fn is_refuted_by(alloc: Global, sets: &[Mask], lemmas: &[u8]) -> Result<Option<bool>, Fail> {
    let (task, protocol) = joined(alloc, RENAMING_2_3, 1)?;
    Ok(are_refuting(alloc, &task, &protocol, sets, lemmas)?)
}

/// Checks that lemmas refute exactly those branches of [`POSED`] that are marked so.
#[test]
fn branches_are_refuted_where_they_have_no_map(rt: HostRuntime) -> Result<(), Fail> {
    for (place, (sets, lemmas, is_refuted)) in POSED.iter().enumerate() {
        let found = is_refuted_by(rt.alloc(), sets, lemmas.as_bytes())?;
        assert!(rt; found == Some(*is_refuted), "at {place}");
    }
    Ok(())
}
