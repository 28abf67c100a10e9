//! The jobs that a command line may ask for.

use wf_base::lines::Form;
use wf_task_presets::Preset;

/// What a command line asks for: a command with its options.
#[derive(Debug, Drop)]
pub enum Job {
    /// A job on the task in a file and on the text that standard input gives about it.
    WithFile {
        /// The path of the file with the task.
        task: String,
        /// The command with its other options.
        job: TaskFileJob,
    },
    /// A job without a file.
    Alone(StdinJob),
}

/// A command that reads the task from a file, and a text about it from standard input.
#[derive(Clone, Copy, Debug)]
pub enum TaskFileJob {
    /// `verify`: the check of a report or an obstruction.
    Verify {
        /// The number of rounds that a report has to be about. With `None` any number is accepted.
        rounds: Option<u32>,
        /// Whether a report may have up to 2^62 bytes, instead of 16,777,216.
        long: bool,
    },
    /// `verify --branch`: the check of a part, which is the answer about one branch of the task's
    /// question.
    VerifyBranch {
        /// The number of rounds.
        rounds: u32,
        /// The 0-based index of the branch.
        branch: u32,
    },
    /// `join`, with the number of rounds: the parts of all branches of the task's question are
    /// checked and joined into the report of the whole question.
    Join(u32),
    /// `model`, with the number of rounds: the model that a SAT solver found of the question is
    /// checked, and its decision map is reported.
    Model(u32),
    /// `proof`: the check of a SAT solver's clausal proof that there is no decision map.
    Proof(ProofJob),
    /// `points --task`: the points in words, with what the map of a report decides at each.
    Decisions,
    /// `trim`: an accepted report is written with only those lines that are needed.
    Trim,
    /// `explain`: an accepted report or obstruction is put into words: why there is no decision
    /// map, or what the map decides.
    Explain,
    /// `lift`: the map of an accepted report is written for the given number of rounds, or with
    /// `None` for one round more than the report's.
    Lift(Option<u32>),
}

/// The options of `proof`, the check of a clausal proof that there is no decision map.
#[derive(Clone, Copy, Debug)]
pub struct ProofJob {
    /// The number of rounds.
    pub rounds: u32,
    /// The 0-based index of the branch that the proof is about, or `None` for the whole question.
    pub branch: Option<u32>,
    /// Whether the proof has hints (LRAT), instead of none (DRAT).
    pub hints: bool,
    /// Whether the progress of the check is reported.
    pub progress: bool,
}

/// A command that reads at most one text, the task on standard input.
#[derive(Clone, Copy, Debug)]
pub enum StdinJob {
    /// `solve`: the search of the whole question of the task.
    Solve(SolveJob),
    /// `solve --branch`: the search of one branch of the task's question.
    SolveBranch {
        /// The number of rounds.
        rounds: u32,
        /// The 0-based index of the branch.
        branch: u32,
        /// How much of the answer the report has.
        form: Form,
        /// Whether the progress of the search is reported.
        progress: bool,
    },
    /// `obstruction`: the search for an obstruction, a certificate that the task has no decision
    /// map after any number of rounds.
    Obstruction {
        /// The modulus of the balances. With `None` several moduli are tried in turn.
        modulus: Option<u32>,
        /// The largest number of covers that may stand above one another in the obstruction's tree.
        covers: u32,
        /// Whether the progress of the finder is reported.
        progress: bool,
    },
    /// A text that is written without a search.
    Text(TextJob),
}

/// The options of `solve`, the search of a task's whole question.
#[derive(Clone, Copy, Debug)]
pub struct SolveJob {
    /// The number of rounds.
    pub rounds: u32,
    /// The number of workers that share the search, from 1 to 64.
    pub workers: u32,
    /// How much of the answer the report has.
    pub form: Form,
    /// Whether the account is printed: how many branches were searched, and how many were cut.
    pub account: bool,
    /// Whether the progress of the search is reported.
    pub progress: bool,
}

/// A text about the task on standard input, or about a preset, that takes no search.
#[derive(Clone, Copy, Debug)]
pub enum TextJob {
    /// `views`, with the number of rounds: the list of the points of the task's protocol complex.
    Views(u32),
    /// `points --rounds`, with the number of rounds: the points of the task's protocol complex in
    /// words.
    Points(u32),
    /// `branches`, with the number of rounds: the list of the branches into which the task's
    /// question is cut.
    Branches(u32),
    /// `cnf`: the question whether the task has a decision map, as a formula for SAT solvers.
    Cnf {
        /// The number of rounds.
        rounds: u32,
        /// The 0-based index of the branch that the formula is about, or `None` for the whole
        /// question.
        branch: Option<u32>,
    },
    /// `executions`, with the number of rounds: the list of the task's executions in words.
    Executions(u32),
    /// `preset`: the canonical text of a task that belongs to a named family.
    Preset(Preset),
}
