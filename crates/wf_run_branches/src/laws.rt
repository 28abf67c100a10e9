//! Laws: theorems about runs over branches. They say that the answers are true, what the answers of
//! all branches give together, and what every run reads and writes. Their functions do nothing.

ghost use Rattle.wf_run_branches.specs.Hints.{HintedBranchProvingIsCounted, HintedBranchRefutationsAreTrue};
ghost use Rattle.wf_run_branches.specs.SolvedReports.{SolvedReportsAreAccepted};
ghost use Rattle.wf_run_branches.specs.Laws.{BranchAnswersAreTrue, BranchesCoverAllMaps, BranchProvingIsCounted, BranchRefutationsAreTrue, BranchSolvingIsCounted, JoiningIsCounted, JoinsAreAccepted, JoinsAreTrue, JoinsOfSearchesAreWhole, BranchAskingIsCounted, PartAcceptancesAreTrue, PartCheckingIsCounted, PartsOfSearchesAreJoined, PartsOfSearchesJoinToTheWhole};

/// States that a task has no decision map after its rounds if none lies in any branch of its
/// question.
pub fn branches_cover_all_maps()
    ensures { BranchesCoverAllMaps }
{}

/// States that the answer of a branch search is true: the source gave the bytes of a task, the
/// branch exists, and the sink got the part with the least decision map in the branch, or with a
/// refutation of the branch, in which then no decision map lies.
pub fn branch_answers_are_true()
    ensures { BranchAnswersAreTrue }
{}

/// States that an accepted SAT solver's proof about a branch is right, whatever its bytes are: the
/// task's source gave the bytes of a task, the branch exists, no decision map lies in it, and the
/// sink got the line that says so.
pub fn branch_refutations_are_true()
    ensures { BranchRefutationsAreTrue }
{}

/// States that an accepted proof with hints about a branch is right, whatever its bytes are: the
/// task's source gave the bytes of a task, the branch exists, no decision map lies in it, and the
/// sink got the line that says so.
pub fn hinted_branch_refutations_are_true()
    ensures { HintedBranchRefutationsAreTrue }
{}

/// States that writing a branch's question takes at most one byte more than the limit of a text
/// from the source, reports each failed call, and writes nothing if it is refused for any reason
/// but a failed write.
pub fn branch_asking_is_counted()
    ensures { BranchAskingIsCounted }
{}

/// States that searching a branch takes at most one byte more than the limit of a text from the
/// source, reports each failed call, and writes nothing if it is refused for any reason but a
/// failed write.
pub fn branch_solving_is_counted()
    ensures { BranchSolvingIsCounted }
{}

/// States that an accepted part is true: the sources gave the bytes of a task and of a part about
/// an existing branch. If the part has a map, that is a decision map in the branch, and the least
/// one there if it comes with lines; otherwise no decision map lies in the branch.
pub fn part_acceptances_are_true()
    ensures { PartAcceptancesAreTrue }
{}

/// States that checking a part takes at most one byte more than the limit of a text from each
/// source, reports each failed call, and writes nothing if it is refused for any reason but a
/// failed write.
pub fn part_checking_is_counted()
    ensures { PartCheckingIsCounted }
{}

/// States that checking a proof about a branch takes at most one byte more than the limit of a text
/// from the task's source, and at most one more than the limit of a proof from the proof's source,
/// reports each failed call, and writes nothing if it is refused for any reason but a failed write.
pub fn branch_proving_is_counted()
    ensures { BranchProvingIsCounted }
{}

/// States that checking a proof with hints about a branch takes at most one byte more than the
/// limit of a text from the task's source, and at most one more than the limit of a proof from the
/// proof's source, reports each failed call, and writes nothing if it is refused for any reason but
/// a failed write.
pub fn hinted_branch_proving_is_counted()
    ensures { HintedBranchProvingIsCounted }
{}

/// States that the joined report is true, whatever the bytes of the parts are: the task's source
/// gave the bytes of a task, and the sink got a report of the whole question. Its map is a decision
/// map, and the least one if it comes with lines; a report without a map means that there is none.
pub fn joins_are_true()
    ensures { JoinsAreTrue }
{}

/// States that the joined report is accepted if it is within the limit of bytes of a text, unless
/// memory runs out.
pub fn joins_are_accepted()
    ensures { JoinsAreAccepted }
{}

/// States that joining parts takes at most one byte more than the limit of a text from the task's
/// source, and at most one more than the limit of all parts from theirs, reports each failed call,
/// and writes nothing if it is refused for any reason but a failed write.
pub fn joining_is_counted()
    ensures { JoiningIsCounted }
{}

/// States that joining the parts that branch searches wrote, all in the full or all in the least
/// form and in the order of the branches, gives byte for byte the report that a search of the whole
/// question writes in that form. If a branch has a map, anything may follow the first part with a
/// map.
pub fn parts_of_searches_join_to_the_whole()
    ensures { PartsOfSearchesJoinToTheWhole }
{}

/// States that a run which joined the parts that branch searches wrote, all in the full or all in
/// the least form, got the bytes of a task and of the parts from its sources, and wrote the report
/// that a search of the whole question writes in that form.
pub fn joins_of_searches_are_whole()
    ensures { JoinsOfSearchesAreWhole }
{}

/// States that the parts that branch searches wrote are joined, unless memory runs out, the report
/// of the whole question has too many values and lines to be numbered, or the report in a part has
/// more bytes than a text may have.
pub fn parts_of_searches_are_joined()
    ensures { PartsOfSearchesAreJoined }
{}

/// States that the report which a search of a task writes in the full or the least form is
/// accepted, if it is within the limit of bytes and memory doesn't run out. The check reports the
/// same outcome as the search, and a map in the least form as the least one.
pub fn solved_reports_are_accepted()
    ensures { SolvedReportsAreAccepted }
{}
