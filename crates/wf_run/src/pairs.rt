//! Runs over two sources: reads a task from one, and a text about the task from the other.

ghost use Rattle.std.specs.Prelude.{ℕ, List, Ok, Result};
ghost use Rattle.wf_model.specs.Task as model;
ghost use Rattle.wf_base.specs.Streams.Ends.{CanRead};
ghost use Rattle.wf_base.specs.Streams.Seen.{Reading};
ghost use Rattle.wf_complex.specs.Protocol.{Builds};
ghost use Rattle.wf_run.specs.Run.{Ran, answered};
ghost use Rattle.wf_run.specs.Sources.{AsksBoth, AsksPair, AsksWithin, CanReadBoth};

use crate::fault::RunFault;
use crate::steps::{Answered, read_task, write_answer};
use std::alloc::Global;
use std::io::{Read, Write};
use wf_base::streams::{Sink, Source};
use wf_complex::Protocol;
use wf_task::Task;

/// Computes an answer from a task and a text about it. [`run_over_pair`] reads the task, calls
/// [`of_pair`](PairAnswer::of_pair), and writes the answer's text.
pub trait PairAnswer {
    ghost use Rattle.wf_run.specs.declared.fault.RunFault.{RunFault};

    /// The answer that the run returns.
    type Answer: Drop;

    // the relation between the task, what is read of the second source, and the answer with its
    // text
    ghost asks: { Self → model.Task → Reading → Reading
        → Result (Self.Answer × List ℕ) RunFault → Type 0 };

    // the condition for calling `of_pair`
    ghost is_ready: { Self → Type 0 } = { λ _. Unit {0} };

    /// Reads `source` and returns the answer for `task` and the text that was read, with the
    /// answer's own text.
    ///
    /// # Errors
    ///
    /// Returns the reason if there is no answer, as each implementation says.
    fn of_pair<C: Read>(
        &self,
        alloc: Global,
        task: &Task,
        source: &mut Source<C>,
    ) -> Answered<Self::Answer>
        requires ready { is_ready self.now }
        requires source { CanRead source.old }
        ensures { asks self.now task.now source.old source.new (answered result) };
}

/// Reads a task to the end of `task_source`, lets `asked` answer for the task and the text in
/// `source`, and writes the answer's text to `sink`. Returns the answer.
///
/// The text is complete before any of it is written. If `task_source` has no task, nothing is read
/// from `source`.
///
/// # Errors
///
/// Returns the errors of [`read_task`], of [`PairAnswer::of_pair`] and of [`write_answer`]. Nothing
/// is written, except that a failed write may have written the beginning of the text.
pub fn run_over_pair<A: PairAnswer, R: Read, C: Read, W: Write>(
    alloc: Global,
    task_source: &mut Source<R>,
    source: &mut Source<C>,
    sink: &mut Sink<W>,
    asked: &A,
) -> Result<A::Answer, RunFault>
    requires ready { A.is_ready asked.now }
    requires ends { CanReadBoth task_source.old source.old sink.old }
    ensures { Ran (AsksPair (A.asks asked.now) task_source.old task_source.new
        source.old source.new) sink.old sink.new result }
{
    let task = read_task(alloc, task_source)?;
    let answer = asked.of_pair(alloc, &task, source);
    write_answer(sink, answer)
}

/// The task that a text is about, with its protocol complex after some number of rounds, and the
/// allocator to use.
#[derive(Clone, Copy)]
pub struct TaskWithComplex<'a> {
    /// The allocator.
    pub alloc: Global,
    /// The task.
    pub task: &'a Task,
    /// The protocol complex of the task.
    pub protocol: &'a Protocol,
}

/// Computes a text from a task's protocol complex and a text about the task. [`run_over_both`]
/// reads the task, builds the complex, calls [`read_about`](ComplexAnswer::read_about), and writes
/// the result.
pub trait ComplexAnswer {
    ghost use Rattle.wf_run.specs.declared.fault.RunFault.{RunFault};

    // the relation between a task, a number of rounds, what is read of the second source, and the
    // text
    ghost reads: { Self → model.Task → ℕ → Reading → Reading
        → Result (Unit {0} × List ℕ) RunFault → Type 0 };

    // the condition for calling `read_about`
    ghost is_ready: { Self → Type 0 } = { λ _. Unit {0} };

    /// Reads `source` and returns the text about `subject` that is made from it.
    ///
    /// # Errors
    ///
    /// Returns the reason if there is no text, as each implementation says.
    fn read_about<C: Read>(&self, subject: &TaskWithComplex, source: &mut Source<C>) -> Answered<()>
        requires ready { is_ready self.now }
        requires source { CanRead source.old }
        requires protocol { Builds subject.now.task.now subject.now.protocol.now.rounds
            (Ok subject.now.protocol.now) }
        ensures { reads self.now subject.now.task.now subject.now.protocol.now.rounds
            source.old source.new (answered result) };
}

/// Reads a task from `task_source` to its end, builds its protocol complex after `rounds` rounds,
/// reads `source`, and writes the text that `second` makes of both to `sink`.
///
/// # Errors
///
/// Returns the errors of [`read_task`], `Build` if there are too many rounds or executions, and
/// then the errors of [`ComplexAnswer::read_about`] and [`write_answer`]. With `Build`, nothing was
/// read from `source`. Nothing is written, except that a beginning of the text may be if a write
/// fails.
pub fn run_over_both<B: ComplexAnswer, R: Read, C: Read, W: Write>(
    alloc: Global,
    task_source: &mut Source<R>,
    source: &mut Source<C>,
    sink: &mut Sink<W>,
    rounds: u32,
    second: &B,
) -> Result<(), RunFault>
    requires ready { B.is_ready second.now }
    requires ends { CanReadBoth task_source.old source.old sink.old }
    ensures { Ran (AsksBoth (B.reads second.now) rounds task_source.old task_source.new
        source.old source.new) sink.old sink.new result }
{
    let asked = WithComplex { second, rounds };
    run_over_pair(alloc, task_source, source, sink, &asked)
}

/// An adapter from [`ComplexAnswer`] to [`PairAnswer`]: builds the protocol complex of the task
/// after `rounds` rounds, and passes it to `second`.
#[derive(Clone, Copy)]
struct WithComplex<'a, B> {
    second: &'a B,
    rounds: u32,
}

impl<'a, B: ComplexAnswer> PairAnswer for WithComplex<'a, B> {
    type Answer = ();

    ghost asks = { λ on. AsksWithin (B.reads on.second.now) on.rounds };

    ghost is_ready = { λ on. B.is_ready on.second.now };

    fn of_pair<C: Read>(&self, alloc: Global, task: &Task, source: &mut Source<C>) -> Answered<()> {
        let protocol = Protocol::build(alloc, task, self.rounds)?;
        let subject = TaskWithComplex {
            alloc,
            task,
            protocol: &protocol,
        };
        self.second.read_about(&subject, source)
    }
}
