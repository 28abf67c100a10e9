//! Runs the checker: from the words of the command line to the exit status.

ghost use Rattle.std.specs.Prelude.{codes};
ghost use Rattle.wf_base.specs.Streams.Ends.{CanCount, CanWrite};
ghost use Rattle.wf_cli.specs.Words.Asked.{IsAsked};
ghost use Rattle.wfverify.specs.Checker.Asked.{job_asked};
ghost use Rattle.wf_cli.specs.Service.Files.{CanAsk};
ghost use Rattle.wfverify.specs.Checker.Checker.{CanCheck, ChecksFile, DoesJob, EndsCheck, ServesCheck};
ghost use Rattle.wf_cli.specs.Service.Showing.{DeclinesAs};

use crate::checker::check::CheckRun;
use crate::checker::job::{CheckJob, read_words};
use std::alloc::Global;
use std::io::{Read, Write};
use std::thread::Threads;
use wf_base::streams::{Sink, Source};
use wf_cli::service::{
    Files, Opener, Program, Refusal, as_file_refusal, refuse, run_with_file, show_or_refuse,
};
use wf_cli::words::WordsFault;

/// The threads and the memory that a check uses.
#[derive(Clone, Copy)]
struct CheckResources<'a, T> {
    rt: &'a T,
    alloc: Global,
}

/// The name of this program, and the hints that it prints about words that it doesn't accept.
const WFVERIFY: Program = Program {
    name: "wfverify",
    usage: "the certificate is read from standard input and the task from its file, as in `wfverify --task FILE < CERTIFICATE`",
    negative_number: "numbers are not negative: rounds are 0 to 8",
};

/// Runs the checker: reads the words, checks the certificate that `source` gives about the task in
/// the file that `--task` names, and returns the exit status. The first of `words` is the program's
/// own name; if `words` is an error, the program refuses with that error.
///
/// - 0: the certificate is accepted, and `sink` got a line that says what was accepted; or `sink`
///   got the help or the version.
/// - 2: the task, the certificate or the words are refused.
/// - 3: memory ran out.
/// - 4: a read or a write failed, or the task's file could not be opened.
///
/// If the status isn't 0, `errors` gets the reason: a line with the number and the name of the
/// refusal, or the error of `clap`. For words that can't be followed a line says which they are,
/// and a line that begins with `note:` may explain the refusal.
pub fn run_checker<T: Threads + Sync, F: Files, R: Read, W: Write, E: Write>(
    rt: &T,
    alloc: Global,
    opener: &mut Opener<F>,
    words: Result<Vec<String>, WordsFault>,
    source: &mut Source<R>,
    sink: &mut Sink<W>,
    errors: &mut Sink<E>,
) -> u8
    requires { CanCheck opener.old source.old sink.old errors.old }
    ensures { ServesCheck (F.opens opener.old.files) words opener.old opener.new source.old
        source.new sink.old sink.new errors.old errors.new result }
{
    let resources = CheckResources { rt, alloc };
    let done = match job_of(alloc, words) {
        Ok(job) => do_job(&resources, opener, &job, source, sink),
        Err(fault) => decline_words(alloc, sink, fault),
    };
    end(alloc, errors, done)
}

/// Returns the job that `words` ask for. If `words` is an error, it is returned.
fn job_of(alloc: Global, words: Result<Vec<String>, WordsFault>) -> Result<CheckJob, WordsFault>
    ensures { IsAsked job_asked words result }
{
    read_words(alloc, &words?)
}

/// Runs the check that `job` describes on the certificate that `source` gives.
fn do_job<T: Threads + Sync, F: Files, R: Read, W: Write>(
    resources: &CheckResources<'_, T>,
    opener: &mut Opener<F>,
    job: &CheckJob,
    source: &mut Source<R>,
    sink: &mut Sink<W>,
) -> Result<(), Refusal>
    requires files { CanAsk opener.old }
    requires ends { CanCount source.old sink.old }
    ensures { DoesJob (F.opens opener.old.files) job.now opener.old opener.new source.old source.new
        sink.old sink.new result }
{
    let CheckResources { rt, alloc } = *resources;
    let run = CheckRun {
        rt,
        alloc,
        check: job.check,
    };
    check_file(&run, opener, &job.task, source, sink)
}

/// Runs the check `run` on the certificate that `source` gives and the task in the file at `path`.
/// An error carries what became of the file.
fn check_file<T: Threads + Sync, F: Files, R: Read, W: Write>(
    run: &CheckRun<'_, T>,
    opener: &mut Opener<F>,
    path: &str,
    source: &mut Source<R>,
    sink: &mut Sink<W>,
) -> Result<(), Refusal>
    requires files { CanAsk opener.old }
    requires ends { CanCount source.old sink.old }
    ensures { ChecksFile (F.opens opener.old.files path.now) run.now.check opener.old opener.new
        source.old source.new sink.old sink.new result }
{
    let found = run_with_file(run, opener, path, source, sink);
    as_file_refusal(found, opener.last())
}

/// Handles words that ask for no job: writes the help or the version to `sink` if they ask for it,
/// and refuses all others.
fn decline_words<W: Write>(
    alloc: Global,
    sink: &mut Sink<W>,
    fault: WordsFault,
) -> Result<(), Refusal>
    requires { CanWrite sink.old }
    ensures { DeclinesAs (codes "wfverify") fault sink.old sink.new result }
{
    show_or_refuse(alloc, sink, fault, WFVERIFY)
}

/// Returns the exit status for the result `done`. A refusal is also written to `errors`; a failure
/// of that write is ignored.
fn end<E: Write>(alloc: Global, errors: &mut Sink<E>, done: Result<(), Refusal>) -> u8
    requires { CanWrite errors.old }
    ensures { EndsCheck errors.old errors.new done result }
{
    match done {
        Ok(()) => 0,
        Err(refusal) => refuse(alloc, errors, WFVERIFY.name, refusal),
    }
}
