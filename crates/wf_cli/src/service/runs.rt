//! Runs jobs on the task in a file.

ghost use Rattle.std.specs.Prelude.{◌≡◌, Result};
ghost use Rattle.wf_base.specs.Streams.Ends.{CanCount};
ghost use Rattle.wf_base.specs.Streams.Seen.{Reading, Writing};
ghost use Rattle.wf_run.specs.Sources.{CanReadBoth};
ghost use Rattle.wf_cli.specs.Service.Files.{CanAsk};
ghost use Rattle.wf_cli.specs.Service.FileRuns.{WithFile, without_answer};

use crate::service::files::{Files, Opener};
use std::io::{Read, Write};
use wf_base::streams::{Sink, Source};
use wf_run::RunFault;

/// A run that reads a task from one source and a text about it from another.
pub trait TaskRun {
    ghost use Rattle.wf_run.specs.declared.fault.RunFault.{RunFault};

    // the relation between the sources of the task and of the other text, the sink, and the result
    ghost does: { Self → Reading → Reading → Reading → Reading → Writing → Writing
        → Result (Unit {0}) RunFault → Type 0 };

    // what has to hold of the run before it may start
    ghost is_ready: { Self → Type 0 } = { λ _. Unit {0} };

    /// Runs on the task that `task` gives and the text that `source` gives, and writes the answer
    /// to `sink`.
    ///
    /// # Errors
    ///
    /// Returns the reason if the run is refused; the relation `does` says what holds then.
    fn with_task<F: Read, R: Read, W: Write>(
        &self,
        task: &mut Source<F>,
        source: &mut Source<R>,
        sink: &mut Sink<W>,
    ) -> Result<(), RunFault>
        requires ready { is_ready self.now }
        requires ends { CanReadBoth task.old source.old sink.old }
        ensures { does self.now task.old task.new source.old source.new sink.old sink.new result };
}

/// Runs `run` on the task in the file at `path`. The source of the file is stored in `opener`
/// afterwards.
///
/// # Errors
///
/// Returns `RunFault::Read` if the file can't be opened, and otherwise the fault of `run`.
pub fn run_with_file<J: TaskRun, F: Files, R: Read, W: Write>(
    run: &J,
    opener: &mut Opener<F>,
    path: &str,
    source: &mut Source<R>,
    sink: &mut Sink<W>,
) -> Result<(), RunFault>
    requires ready { J.is_ready run.now }
    requires files { CanAsk opener.old }
    requires ends { CanCount source.old sink.old }
    ensures { WithFile (F.opens opener.old.files path.now) (J.does run.now) opener.old opener.new
        source.old source.new sink.old sink.new result }
{
    match opener.open(path) {
        Some(mut file) => {
            let done = run.with_task(&mut file, source, sink);
            opener.keep(file);
            done
        }
        None => Err(RunFault::Read),
    }
}

/// Drops the value of a successful run, and keeps the fault of a refused one.
///
/// # Errors
///
/// Returns the fault if `answer` is one.
pub fn discard_value<X: Drop>(answer: Result<X, RunFault>) -> Result<(), RunFault>
    ensures { result ≡ without_answer answer }
{
    match answer {
        Ok(_) => Ok(()),
        Err(fault) => Err(fault),
    }
}
