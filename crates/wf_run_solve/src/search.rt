//! The specification of a search: the report to write, the workers, and the gate.

use wf_base::lines::Form;
use wf_pool::{Gate, Moment};

/// A specification of the report to write.
#[derive(Clone, Copy, Debug, PartialEq, Eq)]
pub struct ReportSpec {
    /// The number of rounds of iterated immediate snapshot.
    pub rounds: u32,
    /// The form of the report, which says how much of the answer is written.
    pub form: Form,
}

/// A specification of a search. The gate, if given, is told the size of the complex, the number of
/// branches, and each worker's moments.
#[derive(Drop)]
pub struct Search<'a, G> {
    /// The report to write.
    pub wanted: ReportSpec,
    /// The number of workers that share the branches. If there are several, each is a thread where
    /// possible.
    pub workers: u32,
    /// The gate that watches the workers and may hold them, if any.
    pub gate: Option<&'a G>,
}

/// A gate that forwards to another one, or without one holds no worker.
#[derive(Drop)]
pub struct OptionalGate<'a, G> {
    /// The gate to forward to, if any.
    pub gate: Option<&'a G>,
}

impl<'a, G: Gate> Gate for OptionalGate<'a, G> {
    fn complex(&self, points: u32, executions: u32) {
        if let Some(gate) = self.gate {
            gate.complex(points, executions);
        }
    }

    fn branches(&self, count: u32) {
        if let Some(gate) = self.gate {
            gate.branches(count);
        }
    }

    fn at(&self, worker: u32, moment: Moment) {
        if let Some(gate) = self.gate {
            gate.at(worker, moment);
        }
    }

    fn may_start(&self, worker: u32) -> bool {
        match self.gate {
            Some(gate) => gate.may_start(worker),
            None => true,
        }
    }
}
