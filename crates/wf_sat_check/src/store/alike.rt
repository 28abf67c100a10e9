//! Comparison of two clauses as sets of literals.

ghost use Rattle.std.specs.Prelude.{◌↔◌, IfOk, IsTrue};
ghost use Rattle.wf_sat_check.specs.Store.Alike.{AreAlike, IsAmong, IsSeenOf};
ghost use Rattle.wf_sat_check.specs.Store.Literals.{IsDistinct};

use crate::store::trail::Trail;
use std::alloc::AllocError;
use wf_sat_text::drat::Code;

/// Returns whether `clause` and `other` have the same literals, regardless of order and repetition.
///
/// `seen` is scratch space: what it holds before is discarded.
pub(crate) fn same_literals(
    seen: &mut Trail,
    clause: &[Code],
    other: &[Code],
) -> Result<bool, AllocError>
    ensures { IfOk result (λ alike. IsTrue alike ↔ AreAlike clause.now other.now) }
{
    see(seen, clause)?;
    if !has_seen(seen, other) {
        return Ok(false);
    }
    see(seen, other)?;
    Ok(has_seen(seen, clause))
}

/// Replaces the contents of `seen` by the literals of `clause`, each once, in the order of their
/// first occurrence.
pub(crate) fn see(seen: &mut Trail, clause: &[Code]) -> Result<(), AllocError>
    ensures same { IfOk result (λ done. IsSeenOf clause.now seen.new) }
    ensures distinct { IfOk result (λ done. IsDistinct seen.new) }
{
    seen.undo(0);
    for literal in clause {
        seen.put(*literal)?;
    }
    Ok(())
}

/// Returns whether each literal of `clause` is in `seen`.
fn has_seen(seen: &Trail, clause: &[Code]) -> bool
    ensures { IsTrue result ↔ IsAmong seen.now clause.now }
{
    for literal in clause {
        if !seen.is_true(*literal) {
            return false;
        }
    }
    true
}
