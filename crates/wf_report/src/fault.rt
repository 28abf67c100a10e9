//! The reasons for refusing a report.

ghost use Rattle.std.specs.Prelude.{◌≡◌, Some};
ghost use Rattle.wf_report.specs.Faults.{fault_text, printed};
ghost use Rattle.wf_report.specs.declared.fault.CertFault.TheVariants.{OutOfMemory};

use std::alloc::AllocError;
use std::fmt;

/// A reason why a text is no report, or why a report is not accepted.
///
/// It is displayed as its number and its name, followed by the line number or execution that it
/// carries: `25 Unsound 12`.
#[derive(Clone, Copy, Debug, Drop, PartialEq, Eq)]
pub enum CertFault {
    /// 1: the text has more bytes or lines than its reader allows.
    ///
    /// [`read_report`](crate::read_report) allows 16,777,216 bytes. In a [`Window`](crate::Window),
    /// it is the limit of 2,147,483,647 lines.
    TooLong,
    /// 20: the line with this number, counted from 1, is malformed, missing, or not allowed in its
    /// section of the report.
    Syntax(u32),
    /// 21: the number in this line of the header differs from that of the task or its protocol
    /// complex.
    Header(u32),
    /// 22: the map doesn't have exactly one value for each point.
    MapLength,
    /// 23: in the execution with this index, the values of the map are no tuple that the task
    /// allows.
    Violates(u32),
    /// 24: the line with this number names an execution or a point that doesn't exist, or a process
    /// that takes no part in the execution.
    NoSuch(u32),
    /// 25: the line with this number removes a value that is still supported.
    Unsound(u32),
    /// 26: the line with this number closes a block at a point that still has a candidate.
    NotEmpty(u32),
    /// 27: the line with this number branches at a point with fewer than two candidates.
    NotOpen(u32),
    /// 28: the lines end before the last block is closed, or before they lead to the claimed map.
    Unfinished,
    /// 29: the line with this number comes after the last block was closed, or after the map was
    /// reached.
    Trailing(u32),
    /// 34: in a report of a least map, the line with this number branches at a point that isn't the
    /// first with two candidates or more.
    NotFirst(u32),
    /// 35: the line with this number ends the search, but the remaining candidates are not exactly
    /// the map's values.
    NotTheMap(u32),
    /// 15: memory ran out.
    OutOfMemory,
}

impl CertFault {
    /// Returns the number and name of the reason, and the line number or execution that it carries,
    /// if any.
    fn words(self) -> (&'static str, Option<u32>)
        ensures { printed result.0.now result.1 ≡ fault_text self }
    {
        match self {
            CertFault::TooLong => ("1 TooLong", None),
            CertFault::Syntax(line) => ("20 Syntax", Some(line)),
            CertFault::Header(line) => ("21 Header", Some(line)),
            CertFault::MapLength => ("22 MapLength", None),
            CertFault::Violates(execution) => ("23 Violates", Some(execution)),
            CertFault::NoSuch(line) => ("24 NoSuch", Some(line)),
            CertFault::Unsound(line) => ("25 Unsound", Some(line)),
            CertFault::NotEmpty(line) => ("26 NotEmpty", Some(line)),
            CertFault::NotOpen(line) => ("27 NotOpen", Some(line)),
            CertFault::Unfinished => ("28 Unfinished", None),
            CertFault::Trailing(line) => ("29 Trailing", Some(line)),
            CertFault::NotFirst(line) => ("34 NotFirst", Some(line)),
            CertFault::NotTheMap(line) => ("35 NotTheMap", Some(line)),
            CertFault::OutOfMemory => ("15 OutOfMemory", None),
        }
    }
}

impl fmt::Display for CertFault {
    ghost output = { λ f. Some (fault_text f) };

    fn fmt<W: fmt::Write>(&self, f: &mut fmt::Formatter<W>) -> fmt::Result {
        match self.words() {
            (name, Some(place)) => write!(f, "{name} {place}"),
            (name, None) => write!(f, "{name}"),
        }
    }
}

impl From<AllocError> for CertFault {
    ghost from_gives = { λ _ e. e ≡ OutOfMemory };

    fn from(_refused: AllocError) -> CertFault {
        CertFault::OutOfMemory
    }
}
