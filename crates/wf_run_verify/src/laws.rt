//! Laws of checks. Each is the contract of a function that does nothing: that what a check accepts
//! is true, and what holds after each check, whatever its result is.

ghost use Rattle.wf_run_verify.specs.Headline.{AcceptancesAreTrue, DecisionsAreTrue, HintedRefutationsAreTrue, ModelsAreTrue, ObstructionsAreTrue, RefutationsAreTrue};
ghost use Rattle.wf_run_verify.specs.Laws.{AcceptedReportsAreVerified, DecidingIsCounted, HintedProvingIsCounted, ModellingIsCounted, ModelsAreAccepted, ProvingIsCounted, VerifyingCertificatesIsCounted, VerifyingIsCounted};

/// Proves that an accepted report is true: its sources held a task and a report about it, and the
/// report is right. If the report has a map, it is a decision map, and the least one if the report
/// says so; if the report says that there is none, no function on the views is a decision map. The
/// function does nothing when it is called.
pub fn acceptances_are_true()
    ensures { AcceptancesAreTrue }
{}

/// Proves that the decisions that [`DescribeMap`](crate::DescribeMap) lists are true: they are
/// those of a report that a check would accept, so its map is a decision map. The function does
/// nothing when it is called.
pub fn decisions_are_true()
    ensures { DecisionsAreTrue }
{}

/// Proves that the report made from a SAT solver's model is true: if the run succeeds, then the
/// bytes read from the task's source are those of a task, and the report written to the sink has a
/// decision map of it. This holds whatever the solver wrote. The function does nothing when it is
/// called.
pub fn models_are_true()
    ensures { ModelsAreTrue }
{}

/// Proves that an accepted SAT solver's clausal proof (DRAT) is never wrong: if the check succeeds,
/// then the bytes read from the task's source are those of a task, no function on its views is a
/// decision map after the given rounds, and the line that says so was written to the sink. This
/// holds whatever the bytes of the proof are. The function does nothing when it is called.
pub fn refutations_are_true()
    ensures { RefutationsAreTrue }
{}

/// Proves that an accepted SAT solver's clausal proof with hints (LRAT) is never wrong: if the
/// check succeeds, then the bytes read from the task's source are those of a task, no function on
/// its views is a decision map after the given rounds, and the line that says so was written to the
/// sink. This holds whatever the bytes of the proof are. The function does nothing when it is
/// called.
pub fn hinted_refutations_are_true()
    ensures { HintedRefutationsAreTrue }
{}

/// Proves that what is accepted for an obstruction is true: the source of the task gave its bytes,
/// and no function on the views is a decision map after any number of rounds, whatever the bytes of
/// the obstruction are. The function does nothing when it is called.
pub fn obstructions_are_true()
    ensures { ObstructionsAreTrue }
{}

/// Proves that a certificate that is accepted as a report is one that
/// [`run_verify`](crate::run_verify), with the same limit of bytes, accepts with the same answer
/// and the same line. The function does nothing when it is called.
pub fn accepted_reports_are_verified()
    ensures { AcceptedReportsAreVerified }
{}

/// Proves that a check reads at most one byte more from each of its two sources than a task or a
/// report may have, reports each failed call of a source or the sink, and writes nothing if it is
/// refused for any reason but a failed write. The function does nothing when it is called.
pub fn verifying_is_counted()
    ensures { VerifyingIsCounted }
{}

/// Proves that a check of a certificate reads at most one byte more from each of its two sources
/// than a task or a certificate may have, reports each failed call of a source or the sink, and
/// writes nothing if it is refused for any reason but a failed write. The function does nothing
/// when it is called.
pub fn verifying_certificates_is_counted()
    ensures { VerifyingCertificatesIsCounted }
{}

/// Proves that a run that lists decisions reads at most one byte more from each of its two sources
/// than a text may have, reports each failed call of a source or the sink, and writes nothing if it
/// is refused for any reason but a failed write. The function does nothing when it is called.
pub fn deciding_is_counted()
    ensures { DecidingIsCounted }
{}

/// Proves that a run that reports a solver's model reads at most one byte more from each of its two
/// sources than a text may have, reports each failed call of a source or the sink, and writes
/// nothing if it is refused for any reason but a failed write. The function does nothing when it is
/// called.
pub fn modelling_is_counted()
    ensures { ModellingIsCounted }
{}

/// Proves that a check of a proof reads at most one byte more from the task's source than a text
/// may have, and from the proof's source than a proof may have, reports each failed call of a
/// source or the sink, and writes nothing if it is refused for any reason but a failed write. The
/// function does nothing when it is called.
pub fn proving_is_counted()
    ensures { ProvingIsCounted }
{}

/// Proves that a check of a proof with hints reads at most one byte more from the task's source
/// than a text may have, and from the proof's source than a proof may have, reports each failed
/// call of a source or the sink, and writes nothing if it is refused for any reason but a failed
/// write. The function does nothing when it is called.
pub fn hinted_proving_is_counted()
    ensures { HintedProvingIsCounted }
{}

/// Proves that the report of a SAT solver's model, if it is within the limit of bytes, is accepted
/// as a map by a check for the same rounds, unless memory runs out. The function does nothing when
/// it is called.
pub fn models_are_accepted()
    ensures { ModelsAreAccepted }
{}
