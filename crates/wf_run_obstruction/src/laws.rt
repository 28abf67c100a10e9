//! The laws of runs that look for an obstruction.

ghost use Rattle.wf_run_obstruction.specs.Laws.{FoundObstructionsAreTrue, SeekingIsCounted};

/// States that a run reports an obstruction as found only if its source gave the bytes of a task,
/// and its sink took the text of an obstruction of that task. Such a task has no decision map after
/// any number of rounds.
pub fn found_obstructions_are_true()
    ensures { FoundObstructionsAreTrue }
{}

/// States that a run reads at most one byte more than a text may have, and reports each failed
/// call. It writes nothing if the search gives up, or if the run fails for another reason than a
/// failed write.
pub fn seeking_is_counted()
    ensures { SeekingIsCounted }
{}
