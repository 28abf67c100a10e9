//! Laws of trimming, each proved as the contract of an empty function: what is written is true and
//! accepted, and what holds after each run.

ghost use Rattle.wf_run_report.specs.Trimmed.{TrimmedReportsAreAccepted, TrimmingIsCounted};

/// States that a trimmed report is about the task and rounds of the report that was read, with the
/// same answer and some of its lines. It is true, within the limit of bytes, parsed as that report,
/// and accepted if memory suffices.
pub fn trimmed_reports_are_accepted()
    ensures { TrimmedReportsAreAccepted }
{}

/// States what holds after each trimming run: it takes from each of its two sources at most one
/// byte more than a text may have, reports each failed call, and writes nothing unless it succeeds
/// or a write fails.
pub fn trimming_is_counted()
    ensures { TrimmingIsCounted }
{}
