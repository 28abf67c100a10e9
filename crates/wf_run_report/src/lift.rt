//! Lifting the map of a report to more rounds.

ghost use Rattle.std.specs.Prelude.{◌≡◌, ◌≤◌, Ok};
ghost use Rattle.std.specs.Thread.{IsSync};
ghost use Rattle.wf_model.specs.Limits.{most_rounds};
ghost use Rattle.wf_model.specs.Report.{a_map};
ghost use Rattle.wf_complex.specs.Protocol.{Builds};
ghost use Rattle.wf_report.specs.Reports.{AreNumbered, body_length, body_of, report_seen};
ghost use Rattle.wf_report_check.specs.Truth.{HoldsOf};
ghost use Rattle.wf_run.specs.Run.{answered};
ghost use Rattle.wf_run_report.specs.Lifting.{LiftsBody, LiftsChecked, LiftsFor, LiftsMap, ReadsToLift, rounds_asked};

use std::alloc::Global;
use std::io::Read;
use std::thread::Threads;
use wf_base::streams::Source;
use wf_complex::Protocol;
use wf_report::{Body, Header, Report, write_report};
use wf_report_trim::lift_values;
use wf_run::{Answered, PairAnswer, RunFault};
use wf_run_verify::{check_report, read_report_from};
use wf_task::Task;

/// A request to lift the map of a report to a given number of rounds, or to one round more.
///
/// Each point of the lifted map decides what the map decides at the process's own view of the
/// earlier round. The text is the report of the lifted map. It has no lines even if the map was the
/// least, since the lifted map need not be the least.
///
/// A report for more rounds than requested is refused first (`36 OtherRounds`). Then the report is
/// checked as [`run_verify`](wf_run_verify::run_verify) checks it. An accepted report without a
/// map is refused next (`43 NoMap`), and last the limits of the requested rounds are judged (16,
/// 17), before anything is lifted.
#[derive(Clone, Copy)]
pub struct LiftMap<'a, T> {
    /// The runtime that starts threads.
    pub rt: &'a T,
    /// The requested number of rounds. `None` stands for one more than the report's.
    pub rounds: Option<u32>,
}

impl<'a, T: Threads + Sync> PairAnswer for LiftMap<'a, T> {
    type Answer = ();

    ghost is_ready = { λ _. IsSync T.row };

    ghost asks = { λ lifted. ReadsToLift lifted.rounds };

    fn of_pair<C: Read>(&self, alloc: Global, task: &Task, source: &mut Source<C>) -> Answered<()> {
        let report = read_report_from(alloc, source)?;
        lift(self.rt, alloc, task, &report, self.rounds)
    }
}

/// Returns the report of the map of `report`, lifted to `rounds` or to one round more. Fails with
/// `OtherRounds` if `report` is about more rounds than requested.
fn lift<T: Threads + Sync>(
    rt: &T,
    alloc: Global,
    task: &Task,
    report: &Report,
    rounds: Option<u32>,
) -> Answered<()>
    requires { AreNumbered (body_length report.now.body) }
    ensures { LiftsFor rounds task.now (report_seen report.now) (answered result) }
{
    match rounds {
        Some(asked) if asked < report.header.rounds => Err(RunFault::OtherRounds),
        _ => lift_checked(rt, alloc, task, report, rounds),
    }
}

/// Checks `report`, and returns the report of its map lifted to the requested rounds.
fn lift_checked<T: Threads + Sync>(
    rt: &T,
    alloc: Global,
    task: &Task,
    report: &Report,
    rounds: Option<u32>,
) -> Answered<()>
    requires few { AreNumbered (body_length report.now.body) }
    requires more { report.now.header.rounds ≤ rounds_asked rounds report.now.header.rounds }
    ensures { LiftsChecked (rounds_asked rounds report.now.header.rounds)
        task.now (report_seen report.now) (answered result) }
{
    let protocol = check_report(rt, alloc, task, report)?;
    let asked = rounds_asked(rounds, protocol.rounds());
    lift_body(alloc, task, &protocol, &report.body, asked)
}

/// Returns the requested number of rounds, or one more than `own` if there is no request.
fn rounds_asked(rounds: Option<u32>, own: u32) -> u32
    requires { own ≤ most_rounds }
    ensures { result ≡ rounds_asked rounds own }
{
    match rounds {
        Some(asked) => asked,
        None => own + 1,
    }
}

/// Returns the report of the map in `body`, lifted to `rounds`. Fails with `NoMap` if the answer is
/// that there is no map.
fn lift_body(
    alloc: Global,
    task: &Task,
    protocol: &Protocol,
    body: &Body,
    rounds: u32,
) -> Answered<()>
    requires protocol { Builds task.now protocol.now.rounds (Ok protocol.now) }
    requires more { protocol.now.rounds ≤ rounds }
    requires holds { HoldsOf task.now protocol.now.rounds (body_of body.now) }
    ensures { LiftsBody task.now protocol.now.rounds rounds (body_of body.now) (answered result) }
{
    match body {
        Body::Map(values) | Body::Least(values, _) => {
            lift_map(alloc, task, protocol, values, rounds)
        }
        Body::Nothing(_) => Err(RunFault::NoMap),
    }
}

/// Returns the report of the map `values` of the complex `protocol`, lifted to `rounds`, which are
/// at least as many.
fn lift_map(
    alloc: Global,
    task: &Task,
    protocol: &Protocol,
    values: &[u8],
    rounds: u32,
) -> Answered<()>
    requires protocol { Builds task.now protocol.now.rounds (Ok protocol.now) }
    requires more { protocol.now.rounds ≤ rounds }
    requires map { HoldsOf task.now protocol.now.rounds (a_map values.now) }
    ensures { LiftsMap task.now protocol.now.rounds rounds values.now (answered result) }
{
    let after = Protocol::build(alloc, task, rounds)?;
    let lifted = lift_values(alloc, task, protocol, &after, values)?;
    let report = Report {
        header: Header::about(task, &after),
        body: Body::Map(lifted),
    };
    Ok(((), write_report(alloc, &report)?))
}
