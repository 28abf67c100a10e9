//! Laws: theorems about every run with the task in a file, and about words that ask for no job.
//! Their functions do nothing.

ghost use Rattle.wf_cli.specs.Service.FileLaws.{FileRunsAreCounted};
ghost use Rattle.wf_cli.specs.Service.Laws.{DecliningIsCounted};

use crate::service::files::{Files, Opener};
use crate::service::runs::TaskRun;

/// States what holds of every run with the task in a file, if the run itself reports its failed
/// calls and keeps to the limits of its texts. Exactly one file is requested, and each failed call
/// is reported: of the opener, the file, the source or the sink. At most one byte more than the
/// limit of a text is taken from the file, and at most one byte more than the limit of its text
/// from the source. The sink is unchanged if the run is refused for any reason but a failed write.
pub fn file_runs_are_counted<F: Files, J: TaskRun>(_folder: &Opener<F>, _run: &J)
    ensures { FileRunsAreCounted (F.opens _folder.now.files) (J.does _run.now) _folder.now }
{}

/// States that for words that ask for no job each failed call of the sink gives exit status 4, that
/// the sink is unchanged after any other refusal, and that a refusal has status 2, 3 or 4.
pub fn declining_is_counted()
    ensures { DecliningIsCounted }
{}
