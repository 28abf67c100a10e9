//! Notes: the explanations that stand below the line of a refusal.

ghost use Rattle.std.specs.Prelude.{◌≡◌, Some, option_map};
ghost use Rattle.wf_cli.specs.Service.Notes.{build_note, clausal_note, file_note, hinted_note, model_note, note_line, note_of, report_note, task_note};

use crate::service::files::FileState;
use std::fmt;
use wf_complex::BuildFault;
use wf_report::CertFault;
use wf_run::RunFault;
use wf_sat_check::lrat::LratFault;
use wf_sat_check::rup::ProofFault;
use wf_sat_cnf::ModelFault;
use wf_task_parse::{Key, TaskFault};

/// The note that says where the reasons for refusing a task are explained in words.
const LINT: &str =
    "`wfcheck-lint FILE` (in the repository tools/lint.py) says in words why a file is no task";

/// The note that says what a solver's proof has to be about.
const PROOF: &str =
    "a proof is about what `wfcheck cnf` writes for the same task, rounds and branch; --lrat is for proofs with hints alone";

/// An optional note below a refusal. It is printed as a line of its own, or as nothing.
#[derive(Clone, Copy)]
pub(crate) struct NoteLine(pub(crate) Option<&'static str>);

impl fmt::Display for NoteLine {
    ghost output = { λ line. Some (note_line (option_map (λ s. s.now) line.0)) };

    fn fmt<W: fmt::Write>(&self, f: &mut fmt::Formatter<W>) -> fmt::Result {
        match self.0 {
            Some(note) => writeln!(f, "  note: {note}"),
            None => Ok(()),
        }
    }
}

/// Returns the note that says which of the two texts, the task's file or standard input, `fault` is
/// about. There is one for failed reads and for a task that isn't JSON. `file` is what became of
/// the task's file.
pub(crate) fn file_note(fault: &RunFault, file: FileState) -> Option<&'static str>
    ensures { option_map (λ s. s.now) result ≡ file_note fault.now file }
{
    match (*fault, file) {
        (RunFault::Read, FileState::Unopened) => {
            Some("the file that --task names can't be opened")
        }
        (RunFault::Read, FileState::Unread) => Some("the file that --task names can't be read"),
        (RunFault::Read, FileState::Sound) => Some("standard input can't be read"),
        (RunFault::Task(TaskFault::NotJson), _) => {
            Some("this is about the file that --task names")
        }
        _ => None,
    }
}

/// Returns the note that explains `fault` to somebody who meets it for the first time, if there is
/// one.
pub(crate) fn note_of(fault: &RunFault) -> Option<&'static str>
    ensures { option_map (λ s. s.now) result ≡ note_of fault.now }
{
    match *fault {
        RunFault::Task(fault) => task_note(fault),
        RunFault::Build(fault) => build_note(fault),
        RunFault::Cert(fault) => report_note(fault),
        RunFault::Model(fault) => model_note(fault),
        RunFault::Proof(fault) => clausal_note(fault),
        RunFault::Hints(fault) => hinted_note(fault),
        RunFault::OtherRounds => Some(
            "the third line of a report tells its rounds, and a map is lifted to as many rounds or more",
        ),
        RunFault::NoBranch { .. } => {
            Some("branches are numbered from 0, and `wfcheck branches` lists them")
        }
        _ => None,
    }
}

/// Returns the note for a text that is no task.
fn task_note(fault: TaskFault) -> Option<&'static str>
    ensures { option_map (λ s. s.now) result ≡ task_note fault }
{
    match fault {
        TaskFault::NotJson => Some(
            "a task file is JSON text; `wfcheck-lint FILE` (in the repository tools/lint.py) says in words why a file is no task",
        ),
        TaskFault::Shape(Key::Version, _) => Some(
            "a task file has the key \"version\", which is 1 or 2; `wfcheck-lint FILE` (in the repository tools/lint.py) says in words why a file is no task",
        ),
        TaskFault::Processes => Some("a task has 1 to 4 processes"),
        TaskFault::TooLong | TaskFault::Value | TaskFault::TooMany(_) | TaskFault::OutOfMemory =>
            None,
        _ => Some(LINT),
    }
}

/// Returns the note for a task whose protocol complex can't be built because it exceeds a limit.
fn build_note(fault: BuildFault) -> Option<&'static str>
    ensures { option_map (λ s. s.now) result ≡ build_note fault }
{
    match fault {
        BuildFault::Rounds => Some("the number of rounds is 0 to 8"),
        BuildFault::TooManyExecutions => Some(
            "after so many rounds the task has more than 500000 executions",
        ),
        BuildFault::OutOfMemory => None,
    }
}

/// Returns the note for a text that is no report, a report about something else, a map that the
/// task doesn't allow, or a report without its lines.
fn report_note(fault: CertFault) -> Option<&'static str>
    ensures { option_map (λ s. s.now) result ≡ report_note fault }
{
    match fault {
        CertFault::Syntax(1) => Some(
            "standard input has no report; a task goes behind --task, a solver's proof to `wfcheck proof` or `wfverify --proof`, an obstruction to verify or explain",
        ),
        CertFault::Header(_) => Some(
            "the number in this line is not that of the task: the text may be about another task or other rounds",
        ),
        CertFault::Violates(_) => Some(
            "the map breaks the task's rule in this execution: the report may be about another task",
        ),
        CertFault::Unfinished => Some(
            "the lines of the report end too soon; `wfcheck solve --verdict` leaves them out",
        ),
        _ => None,
    }
}

/// Returns the note for a solver's output from which no model can be read.
fn model_note(fault: ModelFault) -> Option<&'static str>
    ensures { option_map (λ s. s.now) result ≡ model_note fault }
{
    match fault {
        ModelFault::OutOfMemory => None,
        ModelFault::NoModel { .. } => Some(
            "the text has no model; `wfcheck proof` checks a solver's proof that there is none",
        ),
        ModelFault::NotALiteral { .. } | ModelFault::NoSuchVariable { .. } => Some(
            "a model is what a SAT solver prints of the question that `wfcheck cnf` writes for the same task and rounds",
        ),
    }
}

/// Returns the note for a clausal proof that is refused.
fn clausal_note(fault: ProofFault) -> Option<&'static str>
    ensures { option_map (λ s. s.now) result ≡ clausal_note fault }
{
    match fault {
        ProofFault::Binary | ProofFault::OutOfMemory => None,
        _ => Some(PROOF),
    }
}

/// Returns the note for a proof with hints that is refused.
fn hinted_note(fault: LratFault) -> Option<&'static str>
    ensures { option_map (λ s. s.now) result ≡ hinted_note fault }
{
    match fault {
        LratFault::Binary | LratFault::OutOfMemory => None,
        _ => Some(PROOF),
    }
}
