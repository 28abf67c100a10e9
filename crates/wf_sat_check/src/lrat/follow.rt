//! Following hints up to the first negative one.

ghost use Rattle.std.specs.Prelude.{◌≡◌, IfOk, OnOk, length, take};
ghost use Rattle.wf_sat_text.specs.Drat.Codes.{literal_of};
ghost use Rattle.wf_sat_check.specs.Lrat.Hints.{followed, others_than, with_false};
ghost use Rattle.wf_sat_check.specs.Lrat.Slots.{clause_of, told};

use crate::lrat::clauses::LratClauses;
use crate::lrat::scan::{Opened, open_in};
use crate::lrat::trail::{flipped, put};
use crate::lrat::verdict::LratVerdict;
use crate::store::Trail;
use std::alloc::AllocError;
use wf_sat_text::drat::Code;
use wf_sat_text::lrat::Hint;

/// The result of following hints up to the first negative one.
#[derive(Clone, Copy)]
pub(crate) enum LratOutcome {
    /// The check of the hints ends with `verdict`.
    Stops { verdict: LratVerdict },
    /// The hints end, or a negative one comes, before any named clause is false.
    GoesOn,
}

/// Follows `hints` up to the first negative one: appends to `trail` the literal that each named
/// clause forces under the literals that are true, and stops at a clause that is false.
///
/// It also stops at a hint that names no clause, or a clause with two literals or more that are not
/// false.
pub(crate) fn follow(
    clauses: &LratClauses,
    trail: &mut Trail,
    hints: &[Hint],
) -> Result<LratOutcome, AllocError>
    ensures front { OnOk result (take (length trail.old) trail.new ≡ trail.old) }
    ensures course { IfOk result (λ course. told course (clause_of trail.new)
        ≡ followed clauses.now (clause_of trail.old) hints.now) }
{
    'hints: for hint in hints {
        if hint.is_negative {
            return Ok(LratOutcome::GoesOn);
        }
        let Some(clause) = clauses.literals(hint.id) else {
            return Ok(LratOutcome::Stops {
                verdict: LratVerdict::UnknownHint,
            });
        };
        match open_in(clause, trail) {
            Opened::Nothing => {
                return Ok(LratOutcome::Stops {
                    verdict: LratVerdict::Conflict,
                });
            }
            Opened::One { literal } => put(trail, literal)?,
            Opened::Several => {
                return Ok(LratOutcome::Stops {
                    verdict: LratVerdict::NoConflict,
                });
            }
        }
    }
    Ok(LratOutcome::GoesOn)
}

/// Makes all literals of `clause` false.
pub(crate) fn assume(trail: &mut Trail, clause: &[Code]) -> Result<(), AllocError>
    ensures { OnOk result
        (clause_of trail.new ≡ with_false (clause_of trail.old) (clause_of clause.now)) }
{
    'literals: for literal in clause {
        put(trail, flipped(*literal))?;
    }
    Ok(())
}

/// Makes all literals of `clause` except `aside` false.
pub(crate) fn assume_others(
    trail: &mut Trail,
    clause: &[Code],
    aside: Code,
) -> Result<(), AllocError>
    ensures front { OnOk result (take (length trail.old) trail.new ≡ trail.old) }
    ensures assumed { OnOk result (clause_of trail.new ≡ with_false (clause_of trail.old)
        (others_than (literal_of aside) (clause_of clause.now))) }
{
    'literals: for literal in clause {
        if *literal != aside {
            put(trail, flipped(*literal))?;
        }
    }
    Ok(())
}
