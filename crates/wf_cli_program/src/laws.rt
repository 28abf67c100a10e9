//! Laws: theorems about every run of the program, whatever its words are, and about the runs that
//! only list or write. Their functions do nothing.

ghost use Rattle.wf_cli_program.specs.Laws.{ListingIsCounted, PresetsAreCounted, ServingIsCounted};

use wf_cli::service::{Files, Opener};

/// States what every run leaves behind. The status is at most 4, and 4 exactly if one call of the
/// source, the sink, the opener or the opened file failed. A file is requested if the words name
/// one, and no other. At most one byte more than its limit is taken from each text; proofs, parts
/// and long reports have larger limits than other texts. At status 0 and 1 the error stream gets at
/// most a note, and nothing is written to the sink at 2 and 3.
pub fn serving_is_counted<F: Files>(_folder: &Opener<F>)
    ensures { ServingIsCounted (F.opens _folder.now.files) _folder.now }
{}

/// States that a listing takes at most one byte more than the limit of a text from the source,
/// reports each failed call, and writes nothing if it is refused for any reason but a failed write.
pub fn listing_is_counted()
    ensures { ListingIsCounted }
{}

/// States that writing a preset reports a failed write, never reports a failed read, and writes
/// nothing if it is refused for any reason but a failed write.
pub fn presets_are_counted()
    ensures { PresetsAreCounted }
{}
