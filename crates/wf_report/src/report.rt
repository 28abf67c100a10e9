//! The parts of a report.

ghost use Rattle.wf_complex.specs.Protocol.{IsProtocol};
ghost use Rattle.wf_report.specs.Reports.{IsHeaderOf};

use wf_base::lines::Lines;
use wf_complex::Protocol;
use wf_task::Task;

/// The header of a report: four counts that identify the task and its protocol complex.
#[derive(Clone, Copy, Debug, PartialEq, Eq)]
pub struct Header {
    /// The number of processes of the task.
    pub processes: u32,
    /// The number of rounds.
    pub rounds: u32,
    /// The number of points of the protocol complex.
    pub points: u32,
    /// The number of executions of the protocol complex.
    pub executions: u32,
}

/// The answer of a report, with the values and lines that show it.
#[derive(Debug, Drop)]
pub enum Body {
    /// A decision map: the value of each point, in the order of the points.
    Map(Vec<u8>),
    /// No decision map exists, by the lines of a refutation. There are no lines in the verdict
    /// form.
    Nothing(Lines),
    /// The least decision map, and the lines of a search from the root to the map, in which all
    /// smaller candidates are refuted.
    Least(Vec<u8>, Lines),
}

/// A report about a task and a number of rounds.
#[derive(Debug, Drop)]
pub struct Report {
    /// The counts of the task and its protocol complex.
    pub header: Header,
    /// The answer, with the values and lines that show it.
    pub body: Body,
}

impl Header {
    /// Returns the header of any report about `task` and its `protocol` complex.
    pub fn about(task: &Task, protocol: &Protocol) -> Header
        requires { IsProtocol task.now protocol.now.rounds protocol.now }
        ensures { IsHeaderOf task.now protocol.now.rounds result }
    {
        Header {
            processes: u32::from(task.processes()),
            rounds: protocol.rounds(),
            points: protocol.points(),
            executions: protocol.executions(),
        }
    }
}
