//! Laws of explaining, each proved as the contract of an empty function: which explanations are
//! true, and what holds after every run.

ghost use Rattle.wf_run_report.specs.Explaining.{ExplainingIsCounted, ExplanationsAreTrue};

/// States that explanations are true.
///
/// An explanation is of one of two kinds. It may be the words of a true report about the task and
/// rounds of the report that was read, with the same answer and some of its lines. If these words
/// say that there is no decision map, no function on the views is one. Or it may be the words of an
/// obstruction; then no function on the views is a decision map after any number of rounds.
pub fn explanations_are_true()
    ensures { ExplanationsAreTrue }
{}

/// States what holds after each explaining run: it takes from each of its two sources at most one
/// byte more than a text may have, reports each failed call, and writes nothing unless it succeeds
/// or a write fails.
pub fn explaining_is_counted()
    ensures { ExplainingIsCounted }
{}
