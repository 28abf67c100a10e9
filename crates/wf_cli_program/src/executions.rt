//! Lists the executions of a task.

ghost use Rattle.wf_report_explain.specs.Words.Listing.{executions_text};
ghost use Rattle.wf_run.specs.Run.{Answers};
ghost use Rattle.wf_run.specs.Texts.{IsTextOf};

use std::alloc::Global;
use std::io::Write;
use wf_base::streams::{Page, Sink};
use wf_complex::Protocol;
use wf_report_explain::words::{Executions, write_executions};
use wf_run::{LongText, Written};
use wf_task::Task;

/// The list of a task's executions. It has a line for each: its index, the execution in words, and
/// its points by ascending process.
#[derive(Clone, Copy)]
pub(crate) struct ExecutionList {
    /// The number of rounds.
    pub(crate) rounds: u32,
}

impl LongText for ExecutionList {
    ghost answers = { λ list t. Answers (IsTextOf executions_text) t list.rounds };

    fn write_about<W: Write>(&self, alloc: Global, task: &Task, sink: &mut Sink<W>) -> Written {
        let protocol = Protocol::build(alloc, task, self.rounds)?;
        let table = Executions::of(alloc, task, self.rounds)?;
        let page = Page::new(alloc)?;
        write_executions(page, sink, &table, task, &protocol)?;
        Ok(())
    }
}
