//! The reasons why reading a report stops early.

ghost use Rattle.std.specs.Prelude.{◌≡◌};
ghost use Rattle.wf_base.specs.declared.streams.source.ReadFault.TheVariants.{OutOfMemory};
ghost use Rattle.wf_report.specs.declared.halt.ReadStop.TheVariants.{SourceFailed};

use crate::fault::CertFault;
use std::alloc::AllocError;
use wf_base::streams::ReadFault;

/// A reason why the lines of a report are not read any further.
#[derive(Clone, Copy, Debug)]
pub enum ReadStop {
    /// The text is no report, whatever follows: a line is malformed, or there are too many. The
    /// rest of the text was not read; see [`Window::drain`](crate::Window::drain).
    BadReport(CertFault),
    /// The text can't be read to its end: a read failed, the text is too long, or memory ran out.
    SourceFailed(ReadFault),
}

impl From<ReadFault> for ReadStop {
    ghost from_gives = { λ fault stop. stop ≡ SourceFailed fault };

    fn from(fault: ReadFault) -> ReadStop {
        ReadStop::SourceFailed(fault)
    }
}

impl From<AllocError> for ReadStop {
    ghost from_gives = { λ _ stop. stop ≡ SourceFailed OutOfMemory };

    fn from(_refused: AllocError) -> ReadStop {
        ReadStop::SourceFailed(ReadFault::OutOfMemory)
    }
}
