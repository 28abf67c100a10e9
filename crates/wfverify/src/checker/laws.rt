//! Laws: theorems about every run of the checker, whatever its words are. Their functions do
//! nothing.

ghost use Rattle.wfverify.specs.Checker.Headline.{ChecksAreTrue};
ghost use Rattle.wfverify.specs.Checker.Laws.{CheckingIsCounted};

use wf_cli::service::{Files, Opener};

/// States what exit status 0 means: the task's file was opened, and what the certificate says about
/// its task is true.
///
/// - A report's map is a decision map, and the least one if the report says so.
/// - If a report without a map or a clausal proof is accepted, no function on the views is a
///   decision map for the task and its rounds.
/// - If an obstruction is accepted, the task has no decision map after any number of rounds.
/// - If the words ask for no job, no file was opened and nothing was read.
pub fn checks_are_true<F: Files>(_folder: &Opener<F>)
    ensures { ChecksAreTrue (F.opens _folder.now.files) _folder.now }
{}

/// States what every run leaves behind. The status is 0, 2, 3 or 4, and 4 exactly if one call of
/// the source, the sink, the opener or the opened file failed. Exactly one file is requested if the
/// words ask for a check, and none otherwise. At most one byte more than the limit of a text is
/// taken from the file, and at most one byte more than the limit of the certificate from the
/// source. Nothing is written to the error stream at 0, or to the sink at 2 and 3.
pub fn checking_is_counted<F: Files>(_folder: &Opener<F>)
    ensures { CheckingIsCounted (F.opens _folder.now.files) _folder.now }
{}
