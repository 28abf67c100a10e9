//! Turns the options of each subcommand into its job.

ghost use Rattle.std.specs.Prelude.{◌≡◌, ◌<◌, ◌≤◌, IfOk, IfSome, option_map};
ghost use Rattle.wf_model.specs.Limits.{most_workers};
ghost use Rattle.clap.specs.Words.{found_of, rows_of, subcommand_rows_of};
ghost use Rattle.wf_cli.specs.Words.Asked.{Answers};
ghost use Rattle.wf_cli_args.specs.Job.{CanBeDone, CanBeDoneAlone};
ghost use Rattle.wf_cli_args.specs.Asked.{alone, asked_in, asked_of, branch_job, branches_asked, cnf_asked, executions_asked, join_asked, lift_asked, model_asked, obstruction_asked, points_asked, preset_job_asked, proof_asked, solve_asked, verify_asked, views_asked, with_file, workers_of, writing};

use crate::asked::{Job, ProofJob, SolveJob, StdinJob, TaskFileJob, TextJob};
use crate::forms::form_of;
use crate::presets::Options;
use clap::ArgMatches;
use std::alloc::Global;
use wf_cli::words::found::{flag, number, text};
use wf_cli::words::{ArgName, MAX_WORKERS, UsageError, WordsFault, missing};

/// Returns the number of workers, or `None` if it is missing or not from 1 to [`MAX_WORKERS`].
fn workers(found: &ArgMatches<'_>) -> Option<u32>
    ensures asked { result ≡ workers_of (rows_of (found_of found.now)) }
    ensures limits { IfSome result (λ w. (0 < w) × (w ≤ most_workers)) }
{
    let workers = number(found, "workers")?;
    if 0 < workers && workers <= MAX_WORKERS {
        Some(workers)
    } else {
        None
    }
}

/// Returns the name of the subcommand and its options, or `None` if no subcommand is given.
fn subcommand_job<'b, 'a>(found: &'b ArgMatches<'a>) -> Option<(&'a str, &'b ArgMatches<'a>)>
    ensures { option_map (λ p. (p.0.now, rows_of (found_of p.1.now))) result
        ≡ subcommand_rows_of found.now }
{
    found.subcommand()
}

/// Returns the job for the words in `found`, which `clap` accepted.
pub(crate) fn job_in(alloc: Global, found: &ArgMatches<'_>) -> Result<Job, WordsFault>
    ensures asked { Answers (asked_in (subcommand_rows_of found.now)) result }
    ensures can_be_done { IfOk result CanBeDone }
{
    match subcommand_job(found) {
        Some((name, inner)) => job_of(alloc, name, inner),
        None => Err(missing(ArgName::Command)),
    }
}

/// Returns the job of the subcommand `name` with the options in `found`.
fn job_of(alloc: Global, name: &str, found: &ArgMatches<'_>) -> Result<Job, WordsFault>
    ensures asked { Answers (asked_of name.now (rows_of (found_of found.now))) result }
    ensures can_be_done { IfOk result CanBeDone }
{
    match name {
        "solve" => stdin_result(solve_job(found)),
        "verify" => with_file(alloc, found, verify_job(found)),
        "views" => text_result(views_job(found)),
        "points" => points_job(alloc, found),
        "branches" => text_result(branches_job(found)),
        "join" => with_file(alloc, found, join_job(found)),
        "cnf" => text_result(cnf_job(found)),
        "model" => with_file(alloc, found, model_job(found)),
        "proof" => with_file(alloc, found, proof_job(found)),
        "trim" => with_file(alloc, found, Ok(TaskFileJob::Trim)),
        "explain" => with_file(alloc, found, Ok(TaskFileJob::Explain)),
        "lift" => with_file(alloc, found, Ok(lift_job(found))),
        "executions" => text_result(executions_job(found)),
        "obstruction" => stdin_result(Ok(obstruction_job(found))),
        "preset" => text_result(preset_job(found)),
        _ => Err(missing(ArgName::Command)),
    }
}

/// Wraps a job that needs no task file, or a mistake in its options, as the result of
/// [`read_words`](crate::read_words).
fn stdin_result(asked: Result<StdinJob, UsageError>) -> Result<Job, WordsFault>
    requires { IfOk asked CanBeDoneAlone }
    ensures asked { Answers (alone asked) result }
    ensures can_be_done { IfOk result CanBeDone }
{
    match asked {
        Ok(job) => Ok(Job::Alone(job)),
        Err(mistake) => Err(WordsFault::Words(mistake)),
    }
}

/// Turns a text to be written, or a mistake in its options, into the result of
/// [`read_words`](crate::read_words).
fn text_result(asked: Result<TextJob, UsageError>) -> Result<Job, WordsFault>
    ensures asked { Answers (writing asked) result }
    ensures can_be_done { IfOk result CanBeDone }
{
    match asked {
        Ok(text) => Ok(Job::Alone(StdinJob::Text(text))),
        Err(mistake) => Err(WordsFault::Words(mistake)),
    }
}

/// Turns a job on the task in the file that `--task` names, or a mistake in its options, into the
/// result of [`read_words`](crate::read_words). A missing `--task` is reported before any other
/// mistake.
fn with_file(
    alloc: Global,
    found: &ArgMatches<'_>,
    asked: Result<TaskFileJob, UsageError>,
) -> Result<Job, WordsFault>
    ensures asked { Answers (with_file asked (rows_of (found_of found.now))) result }
    ensures can_be_done { IfOk result CanBeDone }
{
    let Some(task) = text(found, "task") else {
        return Err(missing(ArgName::Task));
    };
    match asked {
        Ok(job) => Ok(Job::WithFile {
            task: String::from_str(alloc, task)?,
            job,
        }),
        Err(mistake) => Err(WordsFault::Words(mistake)),
    }
}

/// Returns the job of the subcommand `solve` with the options in `found`. It is a mistake to give
/// `--verdict` with `--least`, or `--branch` with `--account`.
fn solve_job(found: &ArgMatches<'_>) -> Result<StdinJob, UsageError>
    ensures asked { result ≡ solve_asked (rows_of (found_of found.now)) }
    ensures can_be_done { IfOk result CanBeDoneAlone }
{
    let rounds = number(found, "rounds").ok_or(UsageError::Missing(ArgName::Rounds))?;
    let workers = workers(found).ok_or(UsageError::Workers)?;
    let form = form_of(flag(found, "verdict"), flag(found, "least")).ok_or(UsageError::Conflict(
        ArgName::Verdict,
        ArgName::Least,
    ))?;
    let job = SolveJob {
        rounds,
        workers,
        form,
        account: flag(found, "account"),
        progress: flag(found, "progress"),
    };
    match number(found, "branch") {
        Some(branch) => branch_job(job, branch),
        None => Ok(StdinJob::Solve(job)),
    }
}

/// Returns the job of `solve --branch`, the search of one branch. `--account` is a mistake.
fn branch_job(job: SolveJob, branch: u32) -> Result<StdinJob, UsageError>
    ensures asked { result ≡ branch_job job branch }
    ensures can_be_done { IfOk result CanBeDoneAlone }
{
    if job.account {
        return Err(UsageError::Conflict(ArgName::Branch, ArgName::Account));
    }
    Ok(StdinJob::SolveBranch {
        rounds: job.rounds,
        branch,
        form: job.form,
        progress: job.progress,
    })
}

/// Returns the job of `verify`. `--branch` excludes `--long` and needs `--rounds`.
fn verify_job(found: &ArgMatches<'_>) -> Result<TaskFileJob, UsageError>
    ensures { result ≡ verify_asked (rows_of (found_of found.now)) }
{
    let rounds = number(found, "rounds");
    match (number(found, "branch"), flag(found, "long")) {
        (None, long) => Ok(TaskFileJob::Verify { rounds, long }),
        (Some(branch), false) => Ok(TaskFileJob::VerifyBranch {
            rounds: rounds.ok_or(UsageError::Needs(ArgName::Branch, ArgName::Rounds))?,
            branch,
        }),
        (Some(_), true) => Err(UsageError::Conflict(ArgName::Long, ArgName::Branch)),
    }
}

/// Returns the job of `views`.
fn views_job(found: &ArgMatches<'_>) -> Result<TextJob, UsageError>
    ensures { result ≡ views_asked (rows_of (found_of found.now)) }
{
    let rounds = number(found, "rounds").ok_or(UsageError::Missing(ArgName::Rounds))?;
    Ok(TextJob::Views(rounds))
}

/// Returns the job of `points`. It needs either `--rounds` or `--task`, and both together are a
/// mistake.
fn points_job(alloc: Global, found: &ArgMatches<'_>) -> Result<Job, WordsFault>
    ensures asked { Answers (points_asked (rows_of (found_of found.now))) result }
    ensures can_be_done { IfOk result CanBeDone }
{
    match (number(found, "rounds"), text(found, "task")) {
        (Some(rounds), None) => text_result(Ok(TextJob::Points(rounds))),
        (None, Some(_)) => with_file(alloc, found, Ok(TaskFileJob::Decisions)),
        (Some(_), Some(_)) => Err(WordsFault::Words(UsageError::Conflict(
            ArgName::Rounds,
            ArgName::Task,
        ))),
        (None, None) => Err(WordsFault::Words(UsageError::Neither(ArgName::Rounds, ArgName::Task))),
    }
}

/// Returns the job of `branches`.
fn branches_job(found: &ArgMatches<'_>) -> Result<TextJob, UsageError>
    ensures { result ≡ branches_asked (rows_of (found_of found.now)) }
{
    let rounds = number(found, "rounds").ok_or(UsageError::Missing(ArgName::Rounds))?;
    Ok(TextJob::Branches(rounds))
}

/// Returns the job of `join`.
fn join_job(found: &ArgMatches<'_>) -> Result<TaskFileJob, UsageError>
    ensures { result ≡ join_asked (rows_of (found_of found.now)) }
{
    let rounds = number(found, "rounds").ok_or(UsageError::Missing(ArgName::Rounds))?;
    Ok(TaskFileJob::Join(rounds))
}

/// Returns the job of `cnf`.
fn cnf_job(found: &ArgMatches<'_>) -> Result<TextJob, UsageError>
    ensures { result ≡ cnf_asked (rows_of (found_of found.now)) }
{
    let rounds = number(found, "rounds").ok_or(UsageError::Missing(ArgName::Rounds))?;
    Ok(TextJob::Cnf {
        rounds,
        branch: number(found, "branch"),
    })
}

/// Returns the job of `model`.
fn model_job(found: &ArgMatches<'_>) -> Result<TaskFileJob, UsageError>
    ensures { result ≡ model_asked (rows_of (found_of found.now)) }
{
    let rounds = number(found, "rounds").ok_or(UsageError::Missing(ArgName::Rounds))?;
    Ok(TaskFileJob::Model(rounds))
}

/// Returns the job of `proof`.
fn proof_job(found: &ArgMatches<'_>) -> Result<TaskFileJob, UsageError>
    ensures { result ≡ proof_asked (rows_of (found_of found.now)) }
{
    let rounds = number(found, "rounds").ok_or(UsageError::Missing(ArgName::Rounds))?;
    Ok(TaskFileJob::Proof(ProofJob {
        rounds,
        branch: number(found, "branch"),
        hints: flag(found, "lrat"),
        progress: flag(found, "progress"),
    }))
}

/// Returns the job of `lift`.
fn lift_job(found: &ArgMatches<'_>) -> TaskFileJob
    ensures { result ≡ lift_asked (rows_of (found_of found.now)) }
{
    TaskFileJob::Lift(number(found, "rounds"))
}

/// Returns the job of `executions`.
fn executions_job(found: &ArgMatches<'_>) -> Result<TextJob, UsageError>
    ensures { result ≡ executions_asked (rows_of (found_of found.now)) }
{
    let rounds = number(found, "rounds").ok_or(UsageError::Missing(ArgName::Rounds))?;
    Ok(TextJob::Executions(rounds))
}

/// Returns the job of `obstruction`. Without `--covers` no covers are tried.
fn obstruction_job(found: &ArgMatches<'_>) -> StdinJob
    ensures asked { result ≡ obstruction_asked (rows_of (found_of found.now)) }
    ensures can_be_done { CanBeDoneAlone result }
{
    StdinJob::Obstruction {
        modulus: number(found, "modulus"),
        covers: number(found, "covers").unwrap_or(0),
        progress: flag(found, "progress"),
    }
}

/// Returns the job of `preset`.
fn preset_job(found: &ArgMatches<'_>) -> Result<TextJob, UsageError>
    ensures { result ≡ preset_job_asked (rows_of (found_of found.now)) }
{
    let kind = text(found, "kind").ok_or(UsageError::Missing(ArgName::Kind))?;
    let options = Options {
        processes: number(found, "processes").ok_or(UsageError::Missing(ArgName::Processes))?,
        k: number(found, "k"),
        values: number(found, "values"),
        names: number(found, "names"),
    };
    Ok(TextJob::Preset(options.preset(kind)?))
}
