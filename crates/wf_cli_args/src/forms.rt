//! Chooses the form of a report by the flags of the command line.

ghost use Rattle.std.specs.Prelude.{◌≡◌};
ghost use Rattle.wf_cli_args.specs.Forms.{form_asked};

use wf_base::lines::Form;

/// Returns the form of a report for the flags `--verdict` and `--least`, or `None` if both are
/// given: a verdict has no lines.
pub(crate) fn form_of(verdict: bool, least: bool) -> Option<Form>
    ensures { result ≡ form_asked verdict least }
{
    match (verdict, least) {
        (false, false) => Some(Form::Full),
        (true, false) => Some(Form::Verdict),
        (false, true) => Some(Form::Least),
        (true, true) => None,
    }
}
