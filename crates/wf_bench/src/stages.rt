//! The processor time of each stage of a search.

ghost use Rattle.std.specs.Prelude.{◌≤◌};
ghost use Rattle.wf_complex.specs.Protocol.{IsProtocol};

use anyhow::{Result, anyhow};
use std::io;
use std::time::{CpuClock, Duration};
use wf_box::{Box0, Problem, close};
use wf_complex::Protocol;
use wf_search::{Never, search};
use wf_task::Task;

/// The last stage to run.
#[derive(Clone, Copy, Debug, PartialEq, Eq)]
pub(crate) enum LastStage {
    Join,
    Close,
    Search,
}

/// Nanoseconds of processor time of each stage.
#[derive(Clone, Copy, Debug)]
struct StageTimes {
    read: u128,
    build: u128,
    join: u128,
    close: u128,
    search: u128,
}

impl StageTimes {
    const NONE: StageTimes = StageTimes {
        read: 0,
        build: 0,
        join: 0,
        close: 0,
        search: 0,
    };

    /// Returns the sum of both times, stage by stage.
    fn plus(self, more: StageTimes) -> StageTimes {
        StageTimes {
            read: self.read.saturating_add(more.read),
            build: self.build.saturating_add(more.build),
            join: self.join.saturating_add(more.join),
            close: self.close.saturating_add(more.close),
            search: self.search.saturating_add(more.search),
        }
    }

    /// Returns each time divided by `repeats`.
    fn shared(self, repeats: u128) -> StageTimes
        requires { 1 ≤ repeats }
    {
        StageTimes {
            read: self.read / repeats,
            build: self.build / repeats,
            join: self.join / repeats,
            close: self.close / repeats,
            search: self.search / repeats,
        }
    }
}

/// A stopwatch that measures the processor time since it was last read.
#[derive(Drop)]
struct Stopwatch<'a, R> {
    rt: &'a R,
    last: Duration,
}

impl<'a, R: CpuClock> Stopwatch<'a, R> {
    /// Creates a stopwatch that starts now.
    fn start(rt: &'a R) -> io::Result<Stopwatch<'a, R>> {
        Ok(Stopwatch {
            rt,
            last: rt.process_cpu_time()?,
        })
    }

    /// Returns the nanoseconds of processor time since the last call, or since the start.
    fn lap(&mut self) -> io::Result<u128> {
        let now = self.rt.process_cpu_time()?;
        let spent = now.checked_sub(self.last).unwrap_or_default();
        self.last = now;
        Ok(spent.as_nanos())
    }
}

/// Runs the stages of a search of the task `text` `repeats` times, up to the stage `last`, and
/// prints the mean time of each.
pub(crate) fn time_stages(
    rt: &(impl Print + CpuClock + AllocGlobal),
    text: &str,
    rounds: u32,
    repeats: u32,
    last: LastStage,
) -> Result<()> {
    let mut spent = StageTimes::NONE;
    for _ in 0..repeats {
        spent = spent.plus(run_stages(rt, text, rounds, last)?);
    }
    let StageTimes {
        read,
        build,
        join,
        close,
        search,
    } = spent.shared(u128::from(repeats).max(1));
    println!(rt; "read {read} build {build} join {join} close {close} search {search}")?;
    Ok(())
}

/// Runs the stages up to the stage `last` once, and returns the time of each.
fn run_stages<R: CpuClock + AllocGlobal>(
    rt: &R,
    text: &str,
    rounds: u32,
    last: LastStage,
) -> Result<StageTimes> {
    let mut spent = StageTimes::NONE;
    let problem = read(rt, text, rounds, &mut spent)?;
    if last != LastStage::Join {
        close_root(rt, &problem, last, &mut spent)?;
    }
    Ok(spent)
}

/// Reads the task `text`, builds its protocol complex after `rounds` rounds and its constraint
/// problem, and stores the time of each of these stages in `spent`.
fn read<R: CpuClock + AllocGlobal>(
    rt: &R,
    text: &str,
    rounds: u32,
    spent: &mut StageTimes,
) -> Result<Problem> {
    let mut watch = Stopwatch::start(rt)?;
    let task = Task::read_text(rt.alloc(), text.as_bytes())?;
    spent.read = watch.lap()?;
    build(rt, &task, rounds, spent)
}

/// Builds the protocol complex of a task and its problem, and stores the times in `spent`.
fn build<R: CpuClock + AllocGlobal>(
    rt: &R,
    task: &Task,
    rounds: u32,
    spent: &mut StageTimes,
) -> Result<Problem> {
    let mut watch = Stopwatch::start(rt)?;
    let protocol = Protocol::build(rt.alloc(), task, rounds).map_err(|fault| anyhow!("{fault}"))?;
    spent.build = watch.lap()?;
    join(rt, task, &protocol, spent)
}

/// Builds the problem of a task on its protocol complex, and stores the time in `spent`.
fn join<R: CpuClock + AllocGlobal>(
    rt: &R,
    task: &Task,
    protocol: &Protocol,
    spent: &mut StageTimes,
) -> Result<Problem>
    requires { IsProtocol task.now protocol.now.rounds protocol.now }
{
    let mut watch = Stopwatch::start(rt)?;
    let problem = Problem::join(rt.alloc(), task, protocol)?;
    spent.join = watch.lap()?;
    Ok(problem)
}

/// Closes the root of a problem, searches it if that is the stage `last`, and stores the times in
/// `spent`.
fn close_root<R: CpuClock + AllocGlobal>(
    rt: &R,
    problem: &Problem,
    last: LastStage,
    spent: &mut StageTimes,
) -> Result<()> {
    let mut watch = Stopwatch::start(rt)?;
    let mut root = Box0::root(rt.alloc(), problem)?;
    let mut lines = Vec::new(rt.alloc());
    close(rt.alloc(), problem, &mut root, &mut lines)?;
    spent.close = watch.lap()?;
    if last == LastStage::Search {
        let _found = search(rt.alloc(), problem, root, &mut Never)?;
        spent.search = watch.lap()?;
    }
    Ok(())
}
