//! Frames of runs over one source, which has a task.

ghost use Rattle.std.specs.Prelude.{ℕ, List};
ghost use Rattle.wf_model.specs.Task as model;
ghost use Rattle.wf_base.specs.Streams.Ends.{CanCount, CanWrite};
ghost use Rattle.wf_run.specs.Run.{Answers, Asks, AsksOfTask, Ran, answered};

use crate::fault::RunFault;
use crate::steps::{Answered, Written, read_task, write_answer};
use std::alloc::Global;
use std::io::{Read, Write};
use wf_base::streams::{Sink, Source};
use wf_task::Task;

/// A question about a task and a number of rounds, answered with a text that [`run_over_task`]
/// writes.
pub trait TaskAnswer {
    /// The answer that the run returns.
    type Answer: Drop;

    // the relation between a task, a number of rounds, an answer and its text
    ghost is_text: { Self → model.Task → ℕ → Self.Answer → List ℕ → Type 0 };

    /// Returns the answer for `task` after `rounds` rounds, with its text.
    ///
    /// # Errors
    ///
    /// Returns `Build` if there are too many rounds or executions, and `OutOfMemory` if memory runs
    /// out.
    fn of_task(&self, alloc: Global, task: &Task, rounds: u32) -> Answered<Self::Answer>
        ensures { Answers (is_text self.now) task.now rounds (answered result) };
}

/// Reads a task from `source` to its end, answers `asked` for it after `rounds` rounds, and writes
/// the answer's text to `sink`. Returns the answer.
///
/// The text is complete before any of it is written.
///
/// # Errors
///
/// Returns the errors of [`read_task`], of [`TaskAnswer::of_task`] and of [`write_answer`]. Nothing
/// is written, except that a beginning of the text may be if a write fails.
pub fn run_over_task<A: TaskAnswer, R: Read, W: Write>(
    alloc: Global,
    source: &mut Source<R>,
    sink: &mut Sink<W>,
    rounds: u32,
    asked: &A,
) -> Result<A::Answer, RunFault>
    requires { CanCount source.old sink.old }
    ensures { Ran (Asks (A.is_text asked.now) rounds source.old source.new)
        sink.old sink.new result }
{
    let task = read_task(alloc, source)?;
    let answer = asked.of_task(alloc, &task, rounds);
    write_answer(sink, answer)
}

/// A text about a task that is written in pieces, so it may be longer than memory.
pub trait LongText {
    ghost use Rattle.std.specs.Prelude.{Result};
    ghost use Rattle.wf_run.specs.declared.fault.RunFault.{RunFault};

    // the relation between a task and the text, or the reason for refusing it
    ghost answers: { Self → model.Task → Result (Unit {0} × List ℕ) RunFault → Type 0 };

    /// Writes the text about `task` to `sink` in pieces.
    ///
    /// # Errors
    ///
    /// Returns `Write` if a write fails; a beginning of the text may then have been written. With
    /// any other error nothing was written.
    fn write_about<W: Write>(&self, alloc: Global, task: &Task, sink: &mut Sink<W>) -> Written
        requires { CanWrite sink.old }
        ensures { Ran (answers self.now task.now) sink.old sink.new result };
}

/// Reads a task from `source` to its end, and writes `text` about it to `sink` in pieces.
///
/// # Errors
///
/// Returns the errors of [`read_task`] and of [`LongText::write_about`]. Nothing is written, except
/// that a beginning of the text may be if a write fails.
pub fn run_in_pieces<T: LongText, R: Read, W: Write>(
    alloc: Global,
    source: &mut Source<R>,
    sink: &mut Sink<W>,
    text: &T,
) -> Result<(), RunFault>
    requires { CanCount source.old sink.old }
    ensures { Ran (AsksOfTask (T.answers text.now) source.old source.new)
        sink.old sink.new result }
{
    let task = read_task(alloc, source)?;
    text.write_about(alloc, &task, sink)
}
