//! Laws of searches. Each is the contract of a function that does nothing: that what a search
//! answers is true, and what holds after each search, whatever its result is.

ghost use Rattle.wf_run_solve.specs.Headline.{AnswersAreTrue};
ghost use Rattle.wf_run_solve.specs.Laws.{FindingIsCounted, SolvingIsCounted, SolvingIsFinding};

/// Proves that what a search writes is true: the source gave the bytes of a task, and the sink took
/// the report of the task's least decision map for the given number of rounds; or a report that
/// there is none, and then no function on the views is a decision map. The function does nothing
/// when it is called.
pub fn answers_are_true()
    ensures { AnswersAreTrue }
{}

/// Proves that a search with an account reads at most one byte more than a text may have, reports
/// each failed call, and writes nothing if it is refused for any reason but a failed write. The
/// function does nothing when it is called.
pub fn solving_is_counted()
    ensures { SolvingIsCounted }
{}

/// Proves that a search with an account finds and writes what a search without one does. So what
/// [`answers_are_true`] states holds for it too. The function does nothing when it is called.
pub fn solving_is_finding()
    ensures { SolvingIsFinding }
{}

/// Proves that a search without an account reads at most one byte more than a text may have,
/// reports each failed call, and writes nothing if it is refused for any reason but a failed write.
/// The function does nothing when it is called.
pub fn finding_is_counted()
    ensures { FindingIsCounted }
{}
