//! Laws that relate reports and their texts, each proved as the contract of an empty function.

ghost use Rattle.std.specs.Prelude.{◌≡◌, ℕ, List, Ok};
ghost use Rattle.wf_model.specs.Report.{Report, report_of, report_text};
ghost use Rattle.wf_report.specs.Grammar.{IsInGrammar, IsTextOf};

/// States that reading the text of a report that is in the grammar returns the same report.
pub fn reports_are_read_as_written()
    ensures { (r : Report) → IsInGrammar r → report_of (report_text r) ≡ Ok r }
{}

/// States that a text which is read as a report is exactly the text of that report, and that the
/// report is in the grammar.
pub fn reports_are_written_as_read()
    ensures { (text : List ℕ) (r : Report) → report_of text ≡ Ok r → IsTextOf r text }
{}
