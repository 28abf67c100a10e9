//! Writes the question of one branch as a formula.

ghost use Rattle.wf_sat_formula.specs.Branches.{branch_text};
ghost use Rattle.wf_run_branches.specs.Branches.{AnswersBranch, IsBranchTextOf};

use crate::branch::branch_of;
use std::alloc::Global;
use std::io::Write;
use wf_base::streams::Sink;
use wf_complex::Protocol;
use wf_run::{LongText, Written};
use wf_sat_cnf::{Branch, CnfFormula};
use wf_task::Task;

/// The question whether a decision map of a task lies in one branch, as a formula in DIMACS format.
/// The formula has a model exactly if a decision map lies in the branch.
///
/// If the task's question has no branch of this index, the run is refused with
/// [`NoBranch`](wf_run::RunFault::NoBranch), which carries the number of branches.
#[derive(Clone, Copy)]
pub struct BranchFormula {
    /// The number of rounds.
    pub rounds: u32,
    /// The 0-based index of the branch.
    pub branch: u32,
}

impl LongText for BranchFormula {
    ghost answers = { λ question t. AnswersBranch (IsBranchTextOf branch_text) t question.rounds
        question.branch };

    fn write_about<W: Write>(&self, alloc: Global, task: &Task, sink: &mut Sink<W>) -> Written {
        let protocol = Protocol::build(alloc, task, self.rounds)?;
        let found = branch_of(alloc, task, &protocol, self.branch)?;
        let branch = Branch {
            number: found.number,
            count: found.count,
            sets: &found.sets,
        };
        let question = CnfFormula::of_branch(alloc, task, &protocol, branch)?;
        question.write(sink)?;
        Ok(())
    }
}
