//! Groups of hints. A group is a negative hint and the hints after it, up to the next negative one.

ghost use Rattle.std.specs.Prelude.{◌≡◌};
ghost use Rattle.wf_sat_check.specs.Lrat.Hints.{behind_group, is_group_of, next_group};

use wf_sat_text::lrat::Hint;

/// Returns the hints from the first negative one on, which begins a group.
pub(crate) fn next_group(hints: &[Hint]) -> &[Hint]
    ensures { result.now ≡ next_group hints.now }
{
    'hints: for at in 0..hints.len() {
        if hints[at].is_negative {
            return &hints[at..];
        }
    }
    &hints[hints.len()..]
}

/// Returns whether the first of `hints` names the clause with the id `id`. It is called with hints
/// that begin with a group.
pub(crate) fn is_group_of(id: u64, hints: &[Hint]) -> bool
    ensures { result ≡ is_group_of id hints.now }
{
    !hints.is_empty() && hints[0].id == id
}

/// Returns `hints` without their first group if that group belongs to the clause with the id `id`,
/// and else unchanged.
pub(crate) fn behind_group(id: u64, hints: &[Hint]) -> &[Hint]
    ensures { result.now ≡ behind_group id hints.now }
{
    if is_group_of(id, hints) {
        next_group(&hints[1..])
    } else {
        hints
    }
}
