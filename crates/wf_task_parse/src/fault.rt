//! The reasons why a text is not a task.

ghost use Rattle.std.specs.Prelude.{◌≡◌, Some};
ghost use Rattle.wf_task_parse.specs.declared.fault.TaskFault.TheVariants.{OutOfMemory};

use std::alloc::{AllocError, AllocFailed};
use std::fmt;

/// A key of a task text at which the text has a wrong shape.
#[derive(Clone, Copy, Debug, PartialEq, Eq)]
pub enum Key {
    /// The JSON value as a whole, which is not an object.
    Whole,
    /// The key `version`.
    Version,
    /// The key `first_block`.
    FirstBlock,
    /// The key `processes`.
    Processes,
    /// The key `symmetric`.
    Symmetric,
    /// The key `inputs`.
    Inputs,
    /// The key `outputs`.
    Outputs,
    /// The key `delta`.
    Delta,
    /// Any key that a task text must not have.
    Other,
}

impl fmt::Display for Key {
    ghost use Rattle.std.specs.Prelude.{Some};
    ghost use Rattle.wf_task_parse.specs.FaultText.{key_text};

    ghost output = { λ key. Some (key_text key) };

    fn fmt<W: fmt::Write>(&self, f: &mut fmt::Formatter<W>) -> fmt::Result {
        let name = match self {
            Key::Whole => "whole",
            Key::Version => "version",
            Key::FirstBlock => "first_block",
            Key::Processes => "processes",
            Key::Symmetric => "symmetric",
            Key::Inputs => "inputs",
            Key::Outputs => "outputs",
            Key::Delta => "delta",
            Key::Other => "other",
        };
        write!(f, "{name}")
    }
}

/// A size limit that a task exceeds.
#[derive(Clone, Copy, Debug, PartialEq, Eq)]
pub enum TaskLimit {
    /// The input complex has more than 64 vertices.
    Vertices,
    /// The input complex has more than 4,096 simplices.
    Simplices,
    /// More than 65,536 output simplices are listed.
    Outputs,
    /// All entries of `delta` together have more than 65,536 value lists.
    Tuples,
}

impl fmt::Display for TaskLimit {
    ghost use Rattle.std.specs.Prelude.{Some};
    ghost use Rattle.wf_task_parse.specs.FaultText.{limit_text};

    ghost output = { λ limit. Some (limit_text limit) };

    fn fmt<W: fmt::Write>(&self, f: &mut fmt::Formatter<W>) -> fmt::Result {
        let name = match self {
            TaskLimit::Vertices => "vertices",
            TaskLimit::Simplices => "simplices",
            TaskLimit::Outputs => "outputs",
            TaskLimit::Tuples => "tuples",
        };
        write!(f, "{name}")
    }
}

/// The reason why a text is not a task, with the number with which it is printed. If several hold,
/// the first in the order of the checks is reported: 1 to 14 and then 18. Memory can run out (15)
/// at any of them.
#[derive(Clone, Copy, Debug, PartialEq, Eq)]
pub enum TaskFault {
    /// 1: the text has more than 16,777,216 bytes.
    TooLong,
    /// 2: the text is not UTF-8, not JSON, or nested deeper than 127 levels.
    NotJson,
    /// 3: a key is missing, has a value of the wrong shape, or is not a key of a task. The number
    /// is the index of the first item of the wrong shape in the key's list, and 0 if there is no
    /// list.
    Shape(Key, u32),
    /// 4: the version is neither 1 nor 2.
    Version,
    /// 5: the number of processes is not 1 to 4.
    Processes,
    /// 6: some value is above 63 in version 1, or above 255 in version 2.
    Value,
    /// 7: in some simplex the processes do not strictly ascend, or one is not below the number of
    /// processes.
    Colours,
    /// 8: the task exceeds a size limit.
    TooMany(TaskLimit),
    /// 9: the input simplex of this index has no entry in `delta`.
    DeltaMissing(u32),
    /// 10: the input simplex of this index has more than one entry in `delta`.
    DeltaTwice(u32),
    /// 11: the entry of this index in `delta` is not for an input simplex.
    DeltaStray(u32),
    /// 12: at the input simplex of the first index, the value list of the second index has not as
    /// many values as the simplex has processes.
    OutLength(u32, u32),
    /// 13: at the input simplex of the first index, the value list of the second index is not an
    /// output simplex.
    OutStray(u32, u32),
    /// 14: no input simplex is listed.
    NoInput,
    /// 15: memory ran out.
    OutOfMemory,
    /// 18: the value of `first_block` is not 1 to 4. This is checked after 14.
    FirstBlock,
}

impl fmt::Display for TaskFault {
    ghost use Rattle.std.specs.Prelude.{Some};
    ghost use Rattle.wf_task_parse.specs.FaultText.{fault_text};

    ghost output = { λ fault. Some (fault_text fault) };

    fn fmt<W: fmt::Write>(&self, f: &mut fmt::Formatter<W>) -> fmt::Result {
        match self {
            TaskFault::TooLong => write!(f, "1 TooLong"),
            TaskFault::NotJson => write!(f, "2 NotJson"),
            TaskFault::Shape(key, place) => write!(f, "3 Shape {key} {place}"),
            TaskFault::Version => write!(f, "4 Version"),
            TaskFault::Processes => write!(f, "5 Processes"),
            TaskFault::Value => write!(f, "6 Value"),
            TaskFault::Colours => write!(f, "7 Colours"),
            TaskFault::TooMany(limit) => write!(f, "8 TooMany {limit}"),
            TaskFault::DeltaMissing(simplex) => write!(f, "9 DeltaMissing {simplex}"),
            TaskFault::DeltaTwice(simplex) => write!(f, "10 DeltaTwice {simplex}"),
            TaskFault::DeltaStray(place) => write!(f, "11 DeltaStray {place}"),
            TaskFault::OutLength(simplex, place) => write!(f, "12 OutLength {simplex} {place}"),
            TaskFault::OutStray(simplex, place) => write!(f, "13 OutStray {simplex} {place}"),
            TaskFault::NoInput => write!(f, "14 NoInput"),
            TaskFault::OutOfMemory => write!(f, "15 OutOfMemory"),
            TaskFault::FirstBlock => write!(f, "18 FirstBlock"),
        }
    }
}

impl std::error::Error for TaskFault {}

impl From<AllocError> for TaskFault {
    ghost from_gives = { λ _ e. e ≡ OutOfMemory };

    fn from(_refused: AllocError) -> TaskFault {
        TaskFault::OutOfMemory
    }
}

impl<T: Drop> From<AllocFailed<T>> for TaskFault {
    ghost from_gives = { λ _ e. e ≡ OutOfMemory };

    fn from(_refused: AllocFailed<T>) -> TaskFault {
        TaskFault::OutOfMemory
    }
}
