//! Performs one turn of a search: closes the first box, and branches at its first open point.

ghost use Rattle.std.specs.Prelude.{◌≡◌, IfOk};
ghost use Rattle.wf_search.specs.SearchStack.{HasFirst};
ghost use Rattle.wf_search.specs.Turning.{AreBoxesOf, IsTurn};

use crate::pending::SearchStack;
use std::alloc::{AllocError, Global};
use wf_base::lines::{Line, Lines};
use wf_box::Closed;

/// The outcome of a turn.
#[derive(Drop)]
pub(crate) enum TurnEnd {
    /// At least one box is still to be searched.
    GoesOn,
    /// No box is left: there is no decision map.
    Nothing,
    /// The first box is a decision map: the values of the points.
    Map(Vec<u8>),
}

/// Closes the first box of `pending`, and appends its lines. If that leaves an open point, the
/// branches of the box at the first such point take its place; if it leaves none, the box is a map;
/// if a point became empty, the box is dropped.
pub(crate) fn take_turn(
    alloc: Global,
    pending: &mut SearchStack,
    lines: &mut Lines,
) -> Result<TurnEnd, AllocError>
    requires { AreBoxesOf pending.old.problem pending.old.boxes }
    ensures turn { let p = pending.old.problem in
        IfOk result (IsTurn p pending.old.boxes pending.new.boxes lines.old.items lines.new.items) }
    ensures problem { pending.new.problem ≡ pending.old.problem }
    ensures first { HasFirst pending.new.boxes }
{
    match pending.close(alloc, lines)? {
        Closed::Empty(_) => {
            if pending.next() {
                Ok(TurnEnd::GoesOn)
            } else {
                Ok(TurnEnd::Nothing)
            }
        }
        Closed::Open { .. } => match pending.advance_to_open() {
            None => {
                lines.push(Line::Found)?;
                let values = pending.least_values(alloc)?;
                Ok(TurnEnd::Map(values))
            }
            Some(point) => {
                lines.push(Line::Branch { point })?;
                pending.branch(point)?;
                Ok(TurnEnd::GoesOn)
            }
        },
    }
}
