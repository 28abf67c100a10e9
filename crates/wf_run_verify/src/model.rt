//! Reporting the map that a SAT solver's model gives.

ghost use Rattle.std.specs.Prelude.{◌≤◌, length};
ghost use Rattle.std.specs.Thread.{IsSync};
ghost use Rattle.wf_model.specs.Limits.{most_bytes};
ghost use Rattle.wf_base.specs.Streams.Ends.{CanRead};
ghost use Rattle.wf_complex.specs.Protocol.{IsProtocol};
ghost use Rattle.wf_report.specs.Reports.{AreNumbered};
ghost use Rattle.wf_run.specs.Run.{HasComplex, Reads, answered};
ghost use Rattle.wf_run_verify.specs.Models.{IsMapOf, ReadsMap, ReportsMap, map_read};

use std::alloc::Global;
use std::io::Read;
use std::thread::Threads;
use wf_base::streams::{Source, read_all};
use wf_complex::Protocol;
use wf_report::{Body, Header, Report, write_report};
use wf_report_check::check;
use wf_run::{Answered, ComplexAnswer, RunFault, TaskWithComplex};
use wf_sat_cnf::read_map;
use wf_task::{MAX_TEXT_BYTES, Task};

/// A request to turn a SAT solver's model into a report, for
/// [`run_over_both`](wf_run::run_over_both). The second source is the output of the solver. The map
/// has at each point of the protocol complex the least value whose variable is true in the model.
///
/// The solver is not trusted: the map is checked as [`run_verify`](crate::run_verify) checks that
/// of a report, and only a report that passes is written.
#[derive(Clone, Copy)]
pub struct ReadModel<'a, T> {
    /// The runtime that starts threads.
    pub rt: &'a T,
}

impl<'a, T: Threads + Sync> ComplexAnswer for ReadModel<'a, T> {
    ghost is_ready = { λ _. IsSync T.row };

    ghost reads = { λ map. ReadsMap };

    fn read_about<C: Read>(
        &self,
        subject: &TaskWithComplex,
        source: &mut Source<C>,
    ) -> Answered<()> {
        let TaskWithComplex {
            alloc,
            task,
            protocol,
        } = *subject;
        let map = read_model(alloc, task, protocol, source)?;
        report_map(self.rt, alloc, task, protocol, map)
    }
}

/// Reads a solver's output from `source`, and returns the map that its model gives for `task` over
/// `protocol`. The map is not checked.
fn read_model<C: Read>(
    alloc: Global,
    task: &Task,
    protocol: &Protocol,
    source: &mut Source<C>,
) -> Result<Vec<u8>, RunFault>
    requires source { CanRead source.old }
    requires protocol { IsProtocol task.now protocol.now.rounds protocol.now }
    ensures { Reads (IsMapOf task.now protocol.now.rounds) source.old source.new
        (map_read result) }
{
    let text = read_all(alloc, source, MAX_TEXT_BYTES)?;
    map_of(alloc, task, protocol, &text)
}

/// Returns the map of the model in `text`, a solver's output.
fn map_of(alloc: Global, task: &Task, protocol: &Protocol, text: &[u8]) -> Result<Vec<u8>, RunFault>
    requires protocol { IsProtocol task.now protocol.now.rounds protocol.now }
    requires short { length text.now ≤ most_bytes }
    ensures { IsMapOf task.now protocol.now.rounds text.now (map_read result) }
{
    Ok(read_map(alloc, task, protocol, text)?)
}

/// Checks that `map` is a decision map of `task` over `protocol`, and returns the text of a report
/// of it.
fn report_map<T: Threads + Sync>(
    rt: &T,
    alloc: Global,
    task: &Task,
    protocol: &Protocol,
    map: Vec<u8>,
) -> Answered<()>
    requires complex { HasComplex task.now protocol.now.rounds }
    requires protocol { IsProtocol task.now protocol.now.rounds protocol.now }
    requires few { AreNumbered (length map.items) }
    ensures { ReportsMap task.now protocol.now.rounds map.items (answered result) }
{
    let header = Header::about(task, protocol);
    let report = Report {
        header,
        body: Body::Map(map),
    };
    check(rt, alloc, task, protocol, &report)?;
    Ok(((), write_report(alloc, &report)?))
}
