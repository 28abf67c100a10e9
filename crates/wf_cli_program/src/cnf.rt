//! Writes the question of a task as a formula.

ghost use Rattle.wf_sat_formula.specs.Dimacs.{question_text};
ghost use Rattle.wf_run.specs.Run.{Answers};
ghost use Rattle.wf_run.specs.Texts.{IsTextOf};

use std::alloc::Global;
use std::io::Write;
use wf_base::streams::Sink;
use wf_complex::Protocol;
use wf_run::{LongText, Written};
use wf_sat_cnf::CnfFormula;
use wf_task::Task;

/// The question whether a task has a decision map, as a formula in DIMACS format. The formula has a
/// model exactly if the task has one after `rounds` rounds.
#[derive(Clone, Copy)]
pub struct FormulaText {
    /// The number of rounds.
    pub rounds: u32,
}

impl LongText for FormulaText {
    ghost answers = { λ question t. Answers (IsTextOf question_text) t question.rounds };

    fn write_about<W: Write>(&self, alloc: Global, task: &Task, sink: &mut Sink<W>) -> Written {
        let protocol = Protocol::build(alloc, task, self.rounds)?;
        let question = CnfFormula::of(alloc, task, &protocol)?;
        question.write(sink)?;
        Ok(())
    }
}
