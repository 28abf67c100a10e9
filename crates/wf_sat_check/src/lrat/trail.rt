//! Operations on the trail, stated for literals in place of their codes.

ghost use Rattle.std.specs.Prelude.{◌≡◌, OnOk, length, take};
ghost use Rattle.wf_sat_text.specs.Clauses.Formula.{negation};
ghost use Rattle.wf_sat_text.specs.Drat.Codes.{literal_of};
ghost use Rattle.wf_sat_check.specs.Lrat.Hints.{is_on, with_true};
ghost use Rattle.wf_sat_check.specs.Lrat.Slots.{clause_of};

use crate::store::Trail;
use std::alloc::AllocError;
use wf_sat_text::drat::Code;

/// Returns the code of the negation of `literal`.
#[inline(always)]
pub(crate) fn flipped(literal: Code) -> Code
    ensures { literal_of result ≡ negation (literal_of literal) }
{
    literal ^ 1
}

/// Returns whether `literal` is true.
#[inline(always)]
pub(crate) fn is_true(trail: &Trail, literal: Code) -> bool
    ensures { result ≡ is_on (clause_of trail.now) (literal_of literal) }
{
    trail.is_true(literal)
}

/// Makes `literal` true, which changes nothing if it is true already.
#[inline(always)]
pub(crate) fn put(trail: &mut Trail, literal: Code) -> Result<(), AllocError>
    ensures front { take (length trail.old) trail.new ≡ trail.old }
    ensures exact { OnOk result
        (clause_of trail.new ≡ with_true (clause_of trail.old) (literal_of literal)) }
{
    trail.put(literal)
}
