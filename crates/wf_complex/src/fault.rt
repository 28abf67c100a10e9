//! The reasons why a protocol complex can't be built.

ghost use Rattle.std.specs.Prelude.{◌≡◌, Some};
ghost use Rattle.wf_complex.specs.Faults.{fault_text};
ghost use Rattle.wf_complex.specs.declared.fault.BuildFault.TheVariants.{OutOfMemory};

use std::alloc::AllocError;
use std::fmt;
use wf_task::TaskFault;

/// The reason why a protocol complex can't be built, with the number with which it is printed.
#[derive(Clone, Copy, Debug, PartialEq, Eq)]
pub enum BuildFault {
    /// 16: there are more than 8 rounds.
    Rounds,
    /// 17: there are more than 500,000 executions.
    TooManyExecutions,
    /// 15: memory ran out. The number is that of the same fault of a task's text.
    OutOfMemory,
}

impl fmt::Display for BuildFault {
    ghost output = { λ f. Some (fault_text f) };

    fn fmt<W: fmt::Write>(&self, f: &mut fmt::Formatter<W>) -> fmt::Result {
        match self {
            BuildFault::Rounds => write!(f, "16 Rounds"),
            BuildFault::TooManyExecutions => write!(f, "17 TooManyExecutions"),
            BuildFault::OutOfMemory => write!(f, "{}", TaskFault::OutOfMemory),
        }
    }
}

impl From<AllocError> for BuildFault {
    ghost from_gives = { λ _ e. e ≡ OutOfMemory };

    fn from(_refused: AllocError) -> BuildFault {
        BuildFault::OutOfMemory
    }
}
