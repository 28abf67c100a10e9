//! Judging the lines of a report while they are read.

ghost use Rattle.std.specs.Prelude.{◌≡◌, OnOk, length, true};
ghost use Rattle.wf_report_check.specs.Rules.{AreMatched, problem_in};
ghost use Rattle.wf_report_check.specs.Judged.{AreJudged, part_of};
ghost use Rattle.wf_report.specs.Parts.{ReadsSteps};
ghost use Rattle.wf_report.specs.Windows.{CanGive};

use crate::judge::{LineChecker, LineContext, ReportClaim};
use std::io::Read;
use wf_base::streams::Source;
use wf_report::{CertFault, ReadStop, Section, Window, next_step, skim_steps};

/// Reads the lines up to `end` and judges them by `rules`. Returns `Ok(Err(fault))` with the first
/// fault; the lines after it are read but not judged.
pub(crate) fn judge_steps<C: Read>(
    window: &mut Window,
    source: &mut Source<C>,
    rules: &LineContext,
    mut checker: LineChecker,
) -> Result<Result<(), CertFault>, ReadStop>
    requires can { CanGive source.old window.old }
    requires rules { AreMatched rules.now }
    requires long { checker.points ≡ length rules.now.protocol.now.points }
    requires number { checker.line ≡ window.old.number }
    ensures read { ReadsSteps (part_of rules.now.claim)
        (AreJudged (problem_in rules.now) rules.now.claim checker)
        source.old source.new window.old window.new result }
    ensures ended { OnOk result (window.new.ended ≡ true) }
    ensures can { OnOk result (CanGive source.new window.new) }
{
    let part = part_of(rules.claim);
    'steps: while let Some(step) = next_step(window, source, part)? {
        match checker.take(rules, step) {
            Ok(()) => {}
            Err(fault) => {
                skim_steps(window, source, part)?;
                return Ok(Err(fault));
            }
        }
    }
    Ok(checker.finish(rules.claim))
}

/// Returns the section of a report whose lines show `claim`.
fn part_of(claim: ReportClaim) -> Section
    ensures { result ≡ part_of claim.entry }
{
    match claim {
        ReportClaim::Nothing => Section::Refutation,
        ReportClaim::Least(_) => Section::Search,
    }
}
