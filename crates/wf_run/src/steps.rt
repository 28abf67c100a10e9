//! The steps that all runs share: reading a task, and writing an answer.

ghost use Rattle.wf_base.specs.Streams.Ends.{CanRead, CanWrite};
ghost use Rattle.wf_run.specs.Run.{Hands, IsTaskOf, Reads, answered};

use crate::fault::RunFault;
use std::alloc::Global;
use std::io::{Read, Write};
use wf_base::streams::{Sink, Source, read_all, write_whole};
use wf_task::{MAX_TEXT_BYTES, Task};

/// An answer with its text, or the reason why there is none.
pub type Answered<A> = Result<(A, Vec<u8>), RunFault>;

/// The result of writing a text.
pub type Written = Result<(), RunFault>;

/// Reads a task from `source` to its end, as the first step of each run.
///
/// # Errors
///
/// Returns `Read` if a read fails, `TooLong` if there are more than 16,777,216 bytes,
/// `OutOfMemory`, or `Task` with the reason of [`Task::read_text`].
pub fn read_task<R: Read>(alloc: Global, source: &mut Source<R>) -> Result<Task, RunFault>
    requires { CanRead source.old }
    ensures { Reads IsTaskOf source.old source.new result }
{
    let text = read_all(alloc, source, MAX_TEXT_BYTES)?;
    task_of_text(alloc, &text)
}

/// Parses `text` as a task.
fn task_of_text(alloc: Global, text: &[u8]) -> Result<Task, RunFault>
    ensures { IsTaskOf text.now result }
{
    Ok(Task::read_text(alloc, text)?)
}

/// Writes the text of `answer` to `sink` and returns the answer itself. An error is passed on, and
/// nothing is written.
///
/// # Errors
///
/// Returns `Write` if a write fails; a beginning of the text may then have been written.
pub fn write_answer<X: Drop, W: Write>(
    sink: &mut Sink<W>,
    answer: Answered<X>,
) -> Result<X, RunFault>
    requires { CanWrite sink.old }
    ensures { Hands sink.old sink.new (answered answer) result }
{
    let (found, text) = answer?;
    write_whole(sink, &text)?;
    Ok(found)
}
