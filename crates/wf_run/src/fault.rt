//! The reasons why a run is refused.

ghost use Rattle.std.specs.Prelude.{◌≡◌, Some};
ghost use Rattle.wf_run.specs.Faults.{of_read, of_task, of_build, of_report_fault, of_model, of_proof, of_hints, fault_text, hints_text, model_text, part_fault_text, printed_text, proof_text};
ghost use Rattle.wf_run.specs.declared.fault.RunFault.TheVariants.{OutOfMemory, Write};

use crate::obstruction::ObstructionFault;
use std::alloc::AllocError;
use std::fmt;
use wf_base::streams::{ReadFault, WriteFault};
use wf_complex::BuildFault;
use wf_report::CertFault;
use wf_sat_check::lrat::LratFault;
use wf_sat_check::rup::ProofFault;
use wf_sat_cnf::ModelFault;
use wf_task::TaskFault;

/// A reason why a run is refused. Each has a number and a name, which are displayed.
#[derive(Clone, Copy, Debug, PartialEq, Eq)]
pub enum RunFault {
    /// 1: a text has more bytes or lines than allowed.
    TooLong,
    /// 2 to 14, 18: the text is no task.
    Task(TaskFault),
    /// 16, 17: there are too many rounds or executions.
    Build(BuildFault),
    /// 20 to 29, 34, 35: the text is no report, or the report is not accepted.
    Cert(CertFault),
    /// 37 to 39: the solver's text has no model of the task's formula.
    Model(ModelFault),
    /// 38 to 42: the text is no clausal proof that the task has no decision map.
    Proof(ProofFault),
    /// 38, 39, 41, 42, 61 to 64: the text is no proof with hints that the task has no decision map.
    Hints(LratFault),
    /// 36: the report is about another number of rounds than requested, or in a lift about more
    /// rounds.
    OtherRounds,
    /// 43: the report is accepted, but has no map to lift.
    NoMap,
    /// 44: the requested branch doesn't exist.
    NoBranch {
        /// The number of branches of the question; they are numbered from 0.
        branches: u32,
    },
    /// 45: the text doesn't begin with the lines of a part about the requested branch.
    OtherPart,
    /// 46: the map of a part is a decision map, but lies in another branch.
    NotInBranch,
    /// 47: the next lines of a text of parts are no part about the next branch.
    NoPart {
        /// The index of the branch that should come next.
        branch: u32,
    },
    /// 48: one of the parts of all branches is refused.
    InPart {
        /// The index of the part's branch.
        branch: u32,
        /// The reason why the part is refused.
        fault: PartFault,
    },
    /// 49: a text of parts continues after the parts of all branches.
    TooManyParts {
        /// The number of branches of the question.
        branches: u32,
    },
    /// 50 to 59, 65 to 69: the text is no obstruction of the task.
    Obstruction(ObstructionFault),
    /// 15: memory ran out.
    OutOfMemory,
    /// 30: a read failed.
    Read,
    /// 31: a write failed, or the writer took no byte.
    Write,
}

/// A reason why the part about a branch is refused.
#[derive(Clone, Copy, Debug, PartialEq, Eq)]
pub enum PartFault {
    /// 1, 20 to 29, 34, 35: the part has no report, or the report is not accepted as one about the
    /// branch.
    Report(CertFault),
    /// 46: the map of the part is a decision map, but lies in another branch.
    NotInBranch,
}

impl fmt::Display for PartFault {
    ghost output = { λ f. Some (part_fault_text f) };

    fn fmt<W: fmt::Write>(&self, f: &mut fmt::Formatter<W>) -> fmt::Result {
        match self {
            PartFault::Report(fault) => write!(f, "{fault}"),
            PartFault::NotInBranch => write!(f, "46 NotInBranch"),
        }
    }
}

/// The display of a refusal: that of the fault which it carries, or a name and the number after it.
enum Printed {
    Task(TaskFault),
    Build(BuildFault),
    Cert(CertFault),
    Obstruction(ObstructionFault),
    InPart(u32, PartFault),
    Words(&'static str, Option<u64>),
}

impl RunFault {
    /// Returns what is displayed.
    fn printed(&self) -> Printed
        ensures { printed_text result ≡ fault_text self.now }
    {
        match *self {
            RunFault::Task(fault) => Printed::Task(fault),
            RunFault::Build(fault) => Printed::Build(fault),
            RunFault::Cert(fault) => Printed::Cert(fault),
            RunFault::InPart { branch, fault } => Printed::InPart(branch, fault),
            RunFault::Model(fault) => printed_model(fault),
            RunFault::Proof(fault) => printed_proof(fault),
            RunFault::Hints(fault) => printed_hints(fault),
            RunFault::Obstruction(fault) => Printed::Obstruction(fault),
            RunFault::OtherRounds => Printed::Words("36 OtherRounds", None),
            RunFault::NoMap => Printed::Words("43 NoMap", None),
            RunFault::NoBranch { branches } => Printed::Words(
                "44 NoBranch",
                Some(u64::from(branches)),
            ),
            RunFault::OtherPart => Printed::Words("45 OtherPart", None),
            RunFault::NotInBranch => Printed::Words("46 NotInBranch", None),
            RunFault::NoPart { branch } => Printed::Words("47 NoPart", Some(u64::from(branch))),
            RunFault::TooManyParts { branches } => Printed::Words(
                "49 TooManyParts",
                Some(u64::from(branches)),
            ),
            RunFault::TooLong => Printed::Task(TaskFault::TooLong),
            RunFault::OutOfMemory => Printed::Task(TaskFault::OutOfMemory),
            RunFault::Read => Printed::Words("30 Read", None),
            RunFault::Write => Printed::Words("31 Write", None),
        }
    }
}

/// Returns the display of a fault in a solver's model.
fn printed_model(fault: ModelFault) -> Printed
    ensures { printed_text result ≡ model_text fault }
{
    match fault {
        ModelFault::NoModel { line } => Printed::Words("37 NoModel", Some(u64::from(line))),
        ModelFault::NotALiteral { line } => Printed::Words("38 NotALiteral", Some(u64::from(line))),
        ModelFault::NoSuchVariable { line } => Printed::Words(
            "39 NoSuchVariable",
            Some(u64::from(line)),
        ),
        ModelFault::OutOfMemory => Printed::Task(TaskFault::OutOfMemory),
    }
}

/// Returns the display of a fault in a clausal proof.
fn printed_proof(fault: ProofFault) -> Printed
    ensures { printed_text result ≡ proof_text fault }
{
    match fault {
        ProofFault::NotALiteral { line } => Printed::Words("38 NotALiteral", Some(line)),
        ProofFault::NoSuchVariable { line } => Printed::Words("39 NoSuchVariable", Some(line)),
        ProofFault::NotImplied { line } => Printed::Words("40 NotImplied", Some(line)),
        ProofFault::NoContradiction { line } => Printed::Words("41 NoContradiction", Some(line)),
        ProofFault::Binary => {
            Printed::Words("42 Binary: ask the solver for text by --no-binary", None)
        }
        ProofFault::OutOfMemory => Printed::Task(TaskFault::OutOfMemory),
    }
}

/// Returns the display of a fault in a proof with hints.
fn printed_hints(fault: LratFault) -> Printed
    ensures { printed_text result ≡ hints_text fault }
{
    match fault {
        LratFault::NotALiteral { line } => Printed::Words("38 NotALiteral", Some(line)),
        LratFault::NoSuchVariable { line } => Printed::Words("39 NoSuchVariable", Some(line)),
        LratFault::ClauseLeftOut { line } => Printed::Words("61 ClauseLeftOut", Some(line)),
        LratFault::NoConflict { line } => Printed::Words("62 NoConflict", Some(line)),
        LratFault::UnknownHint { line } => Printed::Words("63 UnknownHint", Some(line)),
        LratFault::IdOutOfRange { line } => Printed::Words("64 IdOutOfRange", Some(line)),
        LratFault::NoContradiction { line } => Printed::Words("41 NoContradiction", Some(line)),
        LratFault::Binary => Printed::Words(
            "42 Binary: ask the solver for text by --no-binary",
            None,
        ),
        LratFault::OutOfMemory => Printed::Task(TaskFault::OutOfMemory),
    }
}

impl fmt::Display for RunFault {
    ghost output = { λ f. Some (fault_text f) };

    fn fmt<W: fmt::Write>(&self, f: &mut fmt::Formatter<W>) -> fmt::Result {
        match self.printed() {
            Printed::Task(fault) => write!(f, "{fault}"),
            Printed::Build(fault) => write!(f, "{fault}"),
            Printed::Cert(fault) => write!(f, "{fault}"),
            Printed::Obstruction(fault) => write!(f, "{fault}"),
            Printed::InPart(branch, fault) => write!(f, "48 InPart {branch}: {fault}"),
            Printed::Words(name, Some(number)) => write!(f, "{name} {number}"),
            Printed::Words(name, None) => write!(f, "{name}"),
        }
    }
}

impl std::error::Error for RunFault {}

impl From<ReadFault> for RunFault {
    ghost from_gives = { λ x e. e ≡ of_read x };

    fn from(fault: ReadFault) -> RunFault {
        match fault {
            ReadFault::TooLong => RunFault::TooLong,
            ReadFault::OutOfMemory => RunFault::OutOfMemory,
            ReadFault::Read => RunFault::Read,
        }
    }
}

impl From<TaskFault> for RunFault {
    ghost from_gives = { λ x e. e ≡ of_task x };

    fn from(fault: TaskFault) -> RunFault {
        match fault {
            TaskFault::TooLong => RunFault::TooLong,
            TaskFault::OutOfMemory => RunFault::OutOfMemory,
            fault => RunFault::Task(fault),
        }
    }
}

impl From<BuildFault> for RunFault {
    ghost from_gives = { λ x e. e ≡ of_build x };

    fn from(fault: BuildFault) -> RunFault {
        match fault {
            BuildFault::OutOfMemory => RunFault::OutOfMemory,
            fault => RunFault::Build(fault),
        }
    }
}

impl From<CertFault> for RunFault {
    ghost from_gives = { λ x e. e ≡ of_report_fault x };

    fn from(fault: CertFault) -> RunFault {
        match fault {
            CertFault::TooLong => RunFault::TooLong,
            CertFault::OutOfMemory => RunFault::OutOfMemory,
            fault => RunFault::Cert(fault),
        }
    }
}

impl From<ModelFault> for RunFault {
    ghost from_gives = { λ x e. e ≡ of_model x };

    fn from(fault: ModelFault) -> RunFault {
        match fault {
            ModelFault::OutOfMemory => RunFault::OutOfMemory,
            fault => RunFault::Model(fault),
        }
    }
}

impl From<ProofFault> for RunFault {
    ghost from_gives = { λ x e. e ≡ of_proof x };

    fn from(fault: ProofFault) -> RunFault {
        match fault {
            ProofFault::OutOfMemory => RunFault::OutOfMemory,
            fault => RunFault::Proof(fault),
        }
    }
}

impl From<LratFault> for RunFault {
    ghost from_gives = { λ x e. e ≡ of_hints x };

    fn from(fault: LratFault) -> RunFault {
        match fault {
            LratFault::OutOfMemory => RunFault::OutOfMemory,
            fault => RunFault::Hints(fault),
        }
    }
}

impl From<AllocError> for RunFault {
    ghost from_gives = { λ _ e. e ≡ OutOfMemory };

    fn from(_refused: AllocError) -> RunFault {
        RunFault::OutOfMemory
    }
}

impl From<WriteFault> for RunFault {
    ghost from_gives = { λ _ e. e ≡ Write };

    fn from(_failed: WriteFault) -> RunFault {
        RunFault::Write
    }
}
