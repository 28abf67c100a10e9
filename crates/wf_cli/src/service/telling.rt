//! Writes the end of a run: a refusal, the help or the version.

ghost use Rattle.wf_base.specs.Streams.Ends.{CanWrite};
ghost use Rattle.wf_base.specs.Streams.Texts.{Tells};
ghost use Rattle.wf_cli.specs.Service.Refusals.{Refuses};
ghost use Rattle.wf_cli.specs.Service.Showing.{Declines, Shows};

use crate::service::refusal::{Program, Refusal, RefusalText, as_refusal};
use crate::service::version::VersionLine;
use crate::words::WordsFault;
use clap::error::ErrorKind;
use std::alloc::Global;
use std::fmt::Display;
use std::io::Write;
use wf_base::streams::Sink;
use wf_run::{RunFault, write_answer};

/// Handles words that ask for no job: writes the help or the version to `sink` if they ask for it,
/// and refuses all others.
///
/// # Errors
///
/// Returns the refusal if the words ask for neither the help nor the version, if memory runs out,
/// or if the write fails.
pub fn show_or_refuse<W: Write>(
    alloc: Global,
    sink: &mut Sink<W>,
    fault: WordsFault,
    program: Program,
) -> Result<(), Refusal>
    requires { CanWrite sink.old }
    ensures { Declines program fault sink.old sink.new result }
{
    match fault {
        WordsFault::Clap { error, negative } => match error.kind() {
            ErrorKind::DisplayHelp => show(alloc, sink, &error),
            ErrorKind::DisplayVersion => show(alloc, sink, &VersionLine(program.name)),
            _ => Err(Refusal::Clap {
                error,
                negative,
                program,
            }),
        },
        WordsFault::Words(mistake) => Err(Refusal::Words(mistake)),
        WordsFault::OutOfMemory => Err(Refusal::Run(RunFault::OutOfMemory)),
    }
}

/// Writes `text`, the help or the version, to `sink`.
fn show<W: Write, T: Display>(alloc: Global, sink: &mut Sink<W>, text: &T) -> Result<(), Refusal>
    requires { CanWrite sink.old }
    ensures { Shows (T.output text.now) sink.old sink.new result }
{
    let answer = match format!(in alloc; "{text}") {
        Ok(text) => Ok(((), text.into_bytes())),
        Err(_) => Err(RunFault::OutOfMemory),
    };
    as_refusal(write_answer(sink, answer))
}

/// Writes `refusal` to `errors` under the name `program`, and returns its exit status. A failure of
/// that write is counted by `errors` but otherwise ignored.
pub fn refuse<E: Write>(
    alloc: Global,
    errors: &mut Sink<E>,
    program: &'static str,
    refusal: Refusal,
) -> u8
    requires { CanWrite errors.old }
    ensures { Refuses program.now errors.old errors.new refusal result }
{
    let status = refusal.status();
    write_error_text(alloc, errors, RefusalText { program, refusal });
    status
}

/// Writes `text` to `errors`, with a single call of the writer if there is memory to format the
/// text first, and piece by piece otherwise. A failure is counted by `errors`.
pub fn write_error_text<E: Write, D: Display + Drop>(alloc: Global, errors: &mut Sink<E>, text: D)
    requires { CanWrite errors.old }
    ensures { Tells errors.old errors.new (D.output text) }
{
    match format!(in alloc; "{text}") {
        Ok(whole) => errors.put(whole),
        Err(_) => errors.put(text),
    }
}
