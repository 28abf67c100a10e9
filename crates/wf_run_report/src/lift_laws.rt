//! Laws of lifting, each proved as the contract of an empty function.

ghost use Rattle.wf_run_report.specs.LiftingLaws.{LiftingIsCounted, LiftsAreAccepted, LiftsAreTrue};

/// States that lifting is true: its sources gave the bytes of a task and of the report of a
/// decision map, and the sink took the report of a decision map for the requested rounds.
pub fn lifts_are_true()
    ensures { LiftsAreTrue }
{}

/// States that a lifted report is accepted as a map by a check for the same rounds, if it is within
/// the limit of bytes and memory suffices.
pub fn lifts_are_accepted()
    ensures { LiftsAreAccepted }
{}

/// States what holds after each lifting run: it takes from each of its two sources at most one byte
/// more than a text may have, reports each failed call, and writes nothing unless it succeeds or a
/// write fails.
pub fn lifting_is_counted()
    ensures { LiftingIsCounted }
{}
