//! Searching the literals of a clause.

ghost use Rattle.std.specs.Prelude.{◌≡◌};
ghost use Rattle.std.specs.List.{list_any};
ghost use Rattle.wf_sat_text.specs.Drat.Codes.{literal_of};
ghost use Rattle.wf_sat_check.specs.Lrat.Hints.{is_on, open_literals, others_than};
ghost use Rattle.wf_sat_check.specs.Lrat.Slots.{clause_of, opened_of};

use crate::lrat::trail::{flipped, is_true};
use crate::store::Trail;
use wf_sat_text::drat::Code;

/// The literals of a clause that are not false, counted up to two.
#[derive(Clone, Copy)]
pub(crate) enum Opened {
    /// No literal: the clause is false.
    Nothing,
    /// A single literal, given by its code: the clause is unit or satisfied.
    One { literal: Code },
    /// At least two literals, counting repetitions.
    Several,
}

/// Returns which literals of `clause` are not false under `trail`.
#[inline(always)]
pub(crate) fn open_in(clause: &[Code], trail: &Trail) -> Opened
    ensures { result ≡ opened_of (open_literals (clause_of trail.now) (clause_of clause.now)) }
{
    let mut opened = Opened::Nothing;
    'literals: for literal in clause {
        if is_true(trail, flipped(*literal)) {
            continue;
        }
        match opened {
            Opened::Nothing => opened = Opened::One { literal: *literal },
            Opened::One { literal: _ } => return Opened::Several,
            Opened::Several => return Opened::Several,
        }
    }
    opened
}

/// Returns whether a literal of `clause` is true.
pub(crate) fn is_one_true(clause: &[Code], trail: &Trail) -> bool
    ensures { result ≡ list_any (is_on (clause_of trail.now)) (clause_of clause.now) }
{
    'literals: for literal in clause {
        if is_true(trail, *literal) {
            return true;
        }
    }
    false
}

/// Returns whether a literal of `clause` other than `aside` is true.
pub(crate) fn is_other_true(clause: &[Code], aside: Code, trail: &Trail) -> bool
    ensures { result ≡ list_any (is_on (clause_of trail.now))
        (others_than (literal_of aside) (clause_of clause.now)) }
{
    'literals: for literal in clause {
        if *literal != aside && is_true(trail, *literal) {
            return true;
        }
    }
    false
}

/// Returns whether `clause` has the literal `wanted`.
#[inline(always)]
pub(crate) fn has_code(clause: &[Code], wanted: Code) -> bool
    ensures { result ≡ is_on (clause_of clause.now) (literal_of wanted) }
{
    'literals: for literal in clause {
        if *literal == wanted {
            return true;
        }
    }
    false
}
