//! Searching a clause for a literal that is true or not false.

ghost use Rattle.std.specs.Prelude.{◌≡◌, ◌==◌, false, IfNone, IfSome};
ghost use Rattle.wf_sat_check.specs.Rup.Propagation.{IsOpen, LeavesAlone, MakesEachFalse, is_satisfied_by};

use crate::store::Trail;
use wf_sat_text::drat::Code;

/// Returns whether a literal of `clause` is true.
pub(crate) fn is_satisfied(clause: &[Code], trail: &Trail) -> bool
    ensures { result ≡ is_satisfied_by trail.now clause.now }
{
    for literal in clause {
        if trail.is_true(*literal) {
            return true;
        }
    }
    false
}

/// Returns the first literal of `clause` that is not false, or `None` if `clause` is false.
pub(crate) fn unfalsified_literal(clause: &[Code], trail: &Trail) -> Option<Code>
    ensures none { IfNone result (MakesEachFalse trail.now clause.now) }
    ensures some { IfSome result (IsOpen trail.now clause.now) }
{
    for literal in clause {
        if !trail.is_false(*literal) {
            return Some(*literal);
        }
    }
    None
}

/// Returns the first literal of `clause` that is not false and is not `known`. If it returns
/// `None`, all literals of `clause` other than `known` are false.
#[inline]
pub(crate) fn other_open_literal(clause: &[Code], trail: &Trail, known: Code) -> Option<Code>
    ensures none { IfNone result (LeavesAlone trail.now clause.now known) }
    ensures some { IfSome result (λ literal. IsOpen trail.now clause.now literal) }
    ensures other { IfSome result (λ literal. (literal == known) ≡ false) }
{
    for literal in clause {
        if !trail.is_false(*literal) && *literal != known {
            return Some(*literal);
        }
    }
    None
}
