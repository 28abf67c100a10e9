//! The laws of reading and writing obstructions.

ghost use Rattle.wf_tree_text.specs.Laws.{ObstructionsAreReadAsWritten, ObstructionsAreWrittenAsRead};

/// States that reading the text of an obstruction returns that obstruction, for all obstructions in
/// the grammar.
pub fn obstructions_are_read_as_written()
    ensures { ObstructionsAreReadAsWritten }
{}

/// States that a text that is read as an obstruction is the very text of that obstruction, which is
/// in the grammar.
pub fn obstructions_are_written_as_read()
    ensures { ObstructionsAreWrittenAsRead }
{}
