//! Reads tasks and builds their protocol complexes, for tests.

ghost use Rattle.std.specs.Prelude.{IfOk};
ghost use Rattle.wf_complex.specs.Protocol.{IsProtocol};

use std::alloc::Global;
use std::test::Fail;
use wf_complex::Protocol;
use wf_task::Task;

/// Reads the task of `text` and builds its protocol complex after `rounds` rounds.
pub(crate) fn joined(alloc: Global, text: &str, rounds: u32) -> Result<(Task, Protocol), Fail>
    ensures { IfOk result (λ r. IsProtocol r.0 r.1.rounds r.1) }
{
    let task = Task::read_text(alloc, text.as_bytes())?;
    let protocol = Protocol::build(alloc, &task, rounds)?;
    Ok((task, protocol))
}
