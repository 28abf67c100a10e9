//! Runs the program: from the words of the command line to the exit status.

ghost use Rattle.std.specs.Prelude.{◌≡◌, IfOk, codes};
ghost use Rattle.wf_base.specs.Streams.Ends.{CanCount, CanWrite};
ghost use Rattle.wf_cli.specs.Words.Asked.{IsAsked};
ghost use Rattle.wf_cli_args.specs.Asked.{job_asked};
ghost use Rattle.wf_cli_args.specs.Job.{CanBeDone};
ghost use Rattle.wf_cli.specs.Service.Files.{CanAsk};
ghost use Rattle.wf_cli_program.specs.Program.{CanServe, DeclinesWords, Does, Ends, Serves};

use crate::done::{Done, after_doing};
use crate::filed::TaskFileRun;
use crate::lone::Resources;
use std::alloc::Global;
use std::io::{Read, Write};
use std::thread::Threads;
use wf_base::streams::{Sink, Source};
use wf_cli::service::{Files, Opener, Program, Refusal, refuse, show_or_refuse, write_error_text};
use wf_cli::words::WordsFault;
use wf_cli_args::{Job, read_words, usage_of};
use wf_pool::Gate;
use wf_run_verify::ProofProgress;
use wf_tree_finder::FinderProgress;

/// The name of this program.
const WFCHECK: &str = "wfcheck";

/// Runs the program: reads the words, does what they ask for, and returns the exit status. The
/// first of `words` is the program's own name; if `words` is an error, the program refuses with
/// that error.
///
/// - 0: a map or an obstruction was found, a report or a proof was accepted, or a text was written.
/// - 1: there is no map, or no obstruction was found.
/// - 2: the task, the rounds, the report, the proof or the words are refused, or the search for an
///   obstruction gave up.
/// - 3: memory ran out.
/// - 4: a read or a write failed, or the task's file could not be opened.
///
/// `sink` gets the answer. A refusal is written to `errors`: a line with its number and name, or
/// the error of `clap`. For words that can't be followed a line says which they are, and a line
/// that begins with `note:` may explain the refusal. After a run that wasn't refused `errors` gets
/// at most one line: the account of a search if the words ask for it, or the moduli without an
/// obstruction.
///
/// If the words ask for progress, `gate` is notified while a search, the finder of obstructions or
/// the check of a proof goes on. What it writes is not part of `errors`.
pub fn run_program<
    T: Threads + Sync,
    F: Files,
    G: Gate + FinderProgress + ProofProgress,
    R: Read,
    W: Write,
    E: Write,
>(
    rt: &T,
    alloc: Global,
    opener: &mut Opener<F>,
    gate: &G,
    words: Result<Vec<String>, WordsFault>,
    source: &mut Source<R>,
    sink: &mut Sink<W>,
    errors: &mut Sink<E>,
) -> u8
    requires { CanServe opener.old source.old sink.old errors.old }
    ensures { Serves (F.opens opener.old.files) words opener.old opener.new source.old source.new
        sink.old sink.new errors.old errors.new result }
{
    let resources = Resources { rt, alloc, gate };
    let program = program_for(&words);
    let done = match job_of(alloc, words) {
        Ok(job) => do_job(&resources, opener, &job, source, sink),
        Err(fault) => decline_words(alloc, sink, fault, program),
    };
    end(alloc, errors, done)
}

/// Returns the program's name and its hints; the usage hint depends on the command in `words`.
fn program_for(words: &Result<Vec<String>, WordsFault>) -> Program
    ensures { result.name.now ≡ codes "wfcheck" }
{
    let usage = match words {
        Ok(words) => usage_of(words),
        Err(_) => usage_of(&[]),
    };
    Program {
        name: WFCHECK,
        usage,
        negative_number: "numbers are not negative: rounds are 0 to 8, and workers 1 to 64",
    }
}

/// Returns the job that `words` ask for. If `words` is an error, it is returned.
fn job_of(alloc: Global, words: Result<Vec<String>, WordsFault>) -> Result<Job, WordsFault>
    ensures asked { IsAsked job_asked words result }
    ensures limits { IfOk result CanBeDone }
{
    read_words(alloc, &words?)
}

/// Runs `job`.
fn do_job<T: Threads + Sync, F: Files, G: Gate + FinderProgress + ProofProgress, R: Read, W: Write>(
    resources: &Resources<'_, T, G>,
    opener: &mut Opener<F>,
    job: &Job,
    source: &mut Source<R>,
    sink: &mut Sink<W>,
) -> Result<Done, Refusal>
    requires files { CanAsk opener.old }
    requires ends { CanCount source.old sink.old }
    requires limits { CanBeDone job.now }
    ensures { Does (F.opens opener.old.files) job.now opener.old opener.new source.old source.new
        sink.old sink.new result }
{
    match job {
        Job::WithFile { task, job } => {
            let Resources { rt, alloc, gate } = *resources;
            let run = TaskFileRun {
                rt,
                alloc,
                job: *job,
                listener: gate,
            };
            run.run_on_file(opener, task, source, sink)
        }
        Job::Alone(job) => resources.run(*job, source, sink),
    }
}

/// Handles words that ask for no job: writes the help or the version to `sink` if they ask for it,
/// and refuses all others.
fn decline_words<W: Write>(
    alloc: Global,
    sink: &mut Sink<W>,
    fault: WordsFault,
    program: Program,
) -> Result<Done, Refusal>
    requires name { program.name.now ≡ codes "wfcheck" }
    requires ends { CanWrite sink.old }
    ensures { DeclinesWords fault sink.old sink.new result }
{
    after_doing(show_or_refuse(alloc, sink, fault, program))
}

/// Returns the exit status for the result `done`. Its note or refusal is also written to `errors`;
/// a failure of that write is ignored.
fn end<E: Write>(alloc: Global, errors: &mut Sink<E>, done: Result<Done, Refusal>) -> u8
    requires { CanWrite errors.old }
    ensures { Ends errors.old errors.new done result }
{
    match done {
        Ok(done) => {
            if let Some(note) = done.note {
                write_error_text(alloc, errors, note);
            }
            done.status
        }
        Err(refusal) => refuse(alloc, errors, WFCHECK, refusal),
    }
}
