//! The command line of `wfcheck`, as it is parsed and as its help shows it.

ghost use Rattle.std.specs.Prelude.{◌≡◌, [], IfOk};
ghost use Rattle.clap.specs.Words.{app_of};
ghost use Rattle.wf_cli.specs.Words.Building.{IsLeaf, IsOption};
ghost use Rattle.wf_cli.specs.Words.Options.{required};
ghost use Rattle.wf_cli_args.specs.CommandLine as line;
ghost use Rattle.wf_cli_args.specs.Building.{Adds, with_first};

use crate::limits::{MAX_COVER_LEVELS, MAX_MODULUS, MIN_MODULUS};
use clap::{Arg, ArgAction, Command, value_parser};
use std::alloc::{AllocError, Global};
use wf_cli::words::options::{flag, number, optional, task, task_file, with_arg};
use wf_cli::words::{MAX_WORKERS, VERSION};

/// The end of the help of `preset`: the kinds, and an example.
const KINDS: &str =
    "Kinds:\n  set-agreement  Each process decides the input of some participant, and at most K different values are\n                 decided (k-set agreement: Chaudhuri 1993)\n  renaming       The processes decide different names (Attiya, Bar-Noy, Dolev, Peleg and Reischuk 1990)\n\nExample: wfcheck preset renaming --processes 3 --names 5 > mine.json";

/// The end of the help of `proof`: the formats, what a proof has to show, and an example.
const PROOFS: &str =
    "The proof is DRAT as text, as CaDiCaL and Kissat write it with --no-binary: lemmas and deletions. Each lemma has to\nfollow by unit propagation from the formula and the lemmas before it, or be RAT on its first literal, and the\ncontradiction has to follow at last. Then the task has no decision map after these rounds, whatever the solver did,\nand the answer is: accepted none at R rounds. A proof is refused if a lemma is neither, or if it ends too soon.\nWith --lrat the proof is LRAT as text: the hints of each lemma have to show that it follows or is RAT.\nExample: wfcheck proof --task gallery/tasks/loop-hollow.json --rounds 2 < gallery/answers/loop-hollow-2.drat";

/// The end of the help of `obstruction`: what the exit statuses mean, and an example.
const OBSTRUCTIONS: &str =
    "Status 0: an obstruction is written; verify accepts it, and explain writes it in words.\nStatus 1: none was found, and standard error says what was tried. The task may still have no decision map.\nExample: wfcheck obstruction < gallery/tasks/consensus-2.json > never.txt";

/// The end of the help of `solve`: a pointer to `wfcheck-ask`, and an example.
const SOLVING: &str =
    "wfcheck-ask decides much that solve alone doesn't end on (tools/ask).\nExample: wfcheck solve --rounds 1 --workers 2 < examples/path-3.json > map.txt";

/// The end of the program's help: where refusals are explained, and an example.
const MORE: &str =
    "docs/FORMAT.md says what each refusal means. tools/lint.py FILE says in words why a task is refused.\nExample: wfcheck solve --rounds 1 --workers 2 < examples/path-3.json > map.txt";

/// Creates the required option `--rounds`.
fn rounds<'a>(alloc: Global) -> Arg<'a>
    ensures { IsOption line.rounds result }
{
    number(
        alloc,
        "rounds",
        "How many rounds of immediate snapshots, 0 to 8",
    )
}

/// Creates the required option `--workers`, which takes a number from 1 to [`MAX_WORKERS`].
fn workers<'a>(alloc: Global) -> Arg<'a>
    ensures { IsOption (required line.workers_option) result }
{
    let most = MAX_WORKERS as i64;
    number(
        alloc,
        "workers",
        "How many workers share the search, 1 to 64",
    )
    .value_parser(value_parser!(u32).range(1..=most))
}

/// Creates the subcommand `name` without options. `about` describes it in the help, and `behind`
/// ends its own help.
fn subcommand<'a>(alloc: Global, name: &'a str, about: &'a str, behind: &'a str) -> Command<'a>
    ensures { IsLeaf (line.subcommand name.now []) result }
{
    Command::new(alloc, name).about(about).after_help(behind)
}

/// Creates the subcommand `solve`.
fn solve_command<'a>(alloc: Global) -> Result<Command<'a>, AllocError>
    ensures { IfOk result (IsLeaf line.solve) }
{
    let command = subcommand(
        alloc,
        "solve",
        "Read a task on standard input, and write its least decision map, or a refutation that there is none",
        SOLVING,
    )
    .arg(rounds(alloc));
    let command = with_arg(command, workers(alloc));
    let command = with_arg(
        command,
        flag(
            alloc,
            "verdict",
            "Leave out the lines of a refutation; not with --least",
        ),
    );
    let command = with_arg(
        command,
        flag(
            alloc,
            "least",
            "With a map, write the lines that show that no decision map is smaller; not with --verdict",
        ),
    );
    let command = with_arg(
        command,
        flag(
            alloc,
            "account",
            "Print on standard error how many branches were searched, and how many were cut; not with --branch",
        ),
    );
    let command = with_arg(
        command,
        flag(
            alloc,
            "progress",
            "Print on standard error how the search goes on, and how many branches are settled",
        ),
    );
    with_arg(command, branch(alloc))
}

/// Creates the subcommand `verify`.
fn verify_command<'a>(alloc: Global) -> Result<Command<'a>, AllocError>
    ensures { IfOk result (IsLeaf line.verify) }
{
    let command = subcommand(
        alloc,
        "verify",
        "Read a report or an obstruction on standard input, and check it without a search",
        "Example: wfcheck verify --task examples/path-3.json < map.txt",
    )
    .arg(task(alloc));
    let command = with_arg(
        command,
        optional(
            alloc,
            "rounds",
            "Accept a report only if it is about this many rounds, and name them in the answer. An obstruction fits every number",
        ),
    );
    let command = with_arg(command, branch(alloc));
    with_arg(
        command,
        flag(
            alloc,
            "long",
            "A report may have 2^62 bytes, in place of 16,777,216; not with --branch",
        ),
    )
}

/// Creates the subcommand `views`.
fn views_command<'a>(alloc: Global) -> Result<Command<'a>, AllocError>
    ensures { IfOk result (IsLeaf line.views) }
{
    subcommand(
        alloc,
        "views",
        "Read a task on standard input, and list the points of its protocol complex by first appearance",
        "Example: wfcheck views --rounds 1 < examples/path-3.json",
    )
    .arg(rounds(alloc))
}

/// Creates the subcommand `points`.
fn points_command<'a>(alloc: Global) -> Result<Command<'a>, AllocError>
    ensures { IfOk result (IsLeaf line.points) }
{
    let command = subcommand(
        alloc,
        "points",
        "Print in words who saw what at each point of a task's protocol complex, with --rounds, or with --task also what a report decides there",
        "Example: wfcheck points --task examples/path-3.json < map.txt",
    )
    .arg(optional(
        alloc,
        "rounds",
        "How many rounds of immediate snapshots, 0 to 8, if the task is on standard input",
    ));
    with_arg(
        command,
        task_file(
            alloc,
            "The file that has the task, if a report about it is on standard input; not with --rounds",
        ),
    )
}

/// Creates the optional option `--branch`.
fn branch<'a>(alloc: Global) -> Arg<'a>
    ensures { IsOption line.branch_option result }
{
    optional(
        alloc,
        "branch",
        "One branch of the question alone: its number in the list that branches writes, from 0",
    )
}

/// Creates the subcommand `branches`.
fn branches_command<'a>(alloc: Global) -> Result<Command<'a>, AllocError>
    ensures { IfOk result (IsLeaf line.branches) }
{
    subcommand(
        alloc,
        "branches",
        "Read a task on standard input, and list the branches into which its question is cut, each of which can be decided by itself",
        "Example: wfcheck branches --rounds 1 < examples/path-3.json",
    )
    .arg(rounds(alloc))
}

/// Creates the subcommand `join`.
fn join_command<'a>(alloc: Global) -> Result<Command<'a>, AllocError>
    ensures { IfOk result (IsLeaf line.join) }
{
    let command = subcommand(
        alloc,
        "join",
        "Read the parts of an answer on standard input, one behind another in the order of the branches, check them, and write the report of the whole question",
        "Example: wfcheck solve --rounds 1 --workers 1 --branch 0 < examples/path-3.json | wfcheck join --task examples/path-3.json --rounds 1",
    )
    .arg(task(alloc));
    with_arg(command, rounds(alloc))
}

/// Creates the subcommand `cnf`.
fn cnf_command<'a>(alloc: Global) -> Result<Command<'a>, AllocError>
    ensures { IfOk result (IsLeaf line.cnf) }
{
    let command = subcommand(
        alloc,
        "cnf",
        "Read a task on standard input, and write for SAT solvers the question whether it has a decision map",
        "Example: wfcheck cnf --rounds 1 < examples/path-3.json > question.cnf",
    )
    .arg(rounds(alloc));
    with_arg(command, branch(alloc))
}

/// Creates the subcommand `model`.
fn model_command<'a>(alloc: Global) -> Result<Command<'a>, AllocError>
    ensures { IfOk result (IsLeaf line.model) }
{
    let command = subcommand(
        alloc,
        "model",
        "Read what a SAT solver says of the question that cnf writes, and report the decision map of its model",
        "Example: wfcheck model --task gallery/tasks/loop-sock.json --rounds 2 < gallery/answers/loop-sock-2.model",
    )
    .arg(task(alloc));
    with_arg(command, rounds(alloc))
}

/// Creates the subcommand `proof`.
fn proof_command<'a>(alloc: Global) -> Result<Command<'a>, AllocError>
    ensures { IfOk result (IsLeaf line.proof) }
{
    let command = subcommand(
        alloc,
        "proof",
        "Read a SAT solver's proof that the question that cnf writes has no model, and check it: there is no decision map",
        PROOFS,
    )
    .arg(task(alloc));
    let command = with_arg(command, rounds(alloc));
    let command = with_arg(command, branch(alloc));
    let command = with_arg(
        command,
        flag(
            alloc,
            "lrat",
            "The proof has hints (LRAT), as CaDiCaL writes it with --lrat --no-binary",
        ),
    );
    with_arg(
        command,
        flag(
            alloc,
            "progress",
            "Print on standard error now and then which line of the proof is reached",
        ),
    )
}

/// Creates the subcommand `trim`.
fn trim_command<'a>(alloc: Global) -> Result<Command<'a>, AllocError>
    ensures { IfOk result (IsLeaf line.trim) }
{
    subcommand(
        alloc,
        "trim",
        "Read a report on standard input, check it, and write it with the lines that are needed",
        "Example: wfcheck solve --rounds 1 --workers 1 < gallery/tasks/consensus-2.json | wfcheck trim --task gallery/tasks/consensus-2.json",
    )
    .arg(task(alloc))
}

/// Creates the subcommand `explain`.
fn explain_command<'a>(alloc: Global) -> Result<Command<'a>, AllocError>
    ensures { IfOk result (IsLeaf line.explain) }
{
    subcommand(
        alloc,
        "explain",
        "Read a report or an obstruction on standard input, check it, and write in words why there is no decision map, or what its map decides",
        "Example: wfcheck explain --task gallery/tasks/consensus-2.json < gallery/answers/consensus-2.obstruction",
    )
    .arg(task(alloc))
}

/// Creates the subcommand `lift`.
fn lift_command<'a>(alloc: Global) -> Result<Command<'a>, AllocError>
    ensures { IfOk result (IsLeaf line.lift) }
{
    let command = subcommand(
        alloc,
        "lift",
        "Read a report of a map on standard input, check it, and write the map for one round more, or for R rounds",
        "Example: wfcheck lift --task examples/path-3.json < map.txt",
    )
    .arg(task(alloc));
    with_arg(
        command,
        optional(
            alloc,
            "rounds",
            "How many rounds the map is to be for, at least as many as the report's; one more if not given",
        ),
    )
}

/// Creates the subcommand `executions`.
fn executions_command<'a>(alloc: Global) -> Result<Command<'a>, AllocError>
    ensures { IfOk result (IsLeaf line.executions) }
{
    subcommand(
        alloc,
        "executions",
        "Read a task on standard input, and list the executions of its protocol complex: who went in which block, round by round, and which points stand there",
        "Example: wfcheck executions --rounds 1 < examples/path-3.json",
    )
    .arg(rounds(alloc))
}

/// Creates the optional option `--modulus`, which takes a number from [`MIN_MODULUS`] to
/// [`MAX_MODULUS`].
fn modulus<'a>(alloc: Global) -> Arg<'a>
    ensures { IsOption line.modulus_option result }
{
    let least = MIN_MODULUS as i64;
    let largest = MAX_MODULUS as i64;
    optional(
        alloc,
        "modulus",
        "The modulus to count by, 2 to 2147483647; without it 2, 3, 4, 5, 7, 8, 9 and 2147483647 are tried in turn",
    )
    .value_parser(value_parser!(u32).range(least..=largest))
}

/// Creates the optional option `--covers`, which takes a number from 0 to [`MAX_COVER_LEVELS`].
fn covers<'a>(alloc: Global) -> Arg<'a>
    ensures { IsOption line.covers_option result }
{
    let most = MAX_COVER_LEVELS as i64;
    optional(
        alloc,
        "covers",
        "How many covers may stand above one another, 0 to 8; without it none",
    )
    .value_parser(value_parser!(u32).range(0..=most))
}

/// Creates the subcommand `obstruction`.
fn obstruction_command<'a>(alloc: Global) -> Result<Command<'a>, AllocError>
    ensures { IfOk result (IsLeaf line.obstruction) }
{
    let command = subcommand(
        alloc,
        "obstruction",
        "Read a task on standard input, and look for an obstruction: a short certificate that it has no decision map after any number of rounds",
        OBSTRUCTIONS,
    )
    .arg(modulus(alloc));
    let command = with_arg(command, covers(alloc));
    with_arg(
        command,
        flag(
            alloc,
            "progress",
            "Print on standard error how many unknowns and equations there are, and which nodes are tried",
        ),
    )
}

/// Creates the positional argument `KIND` of `preset`, which is required.
fn kind<'a>(alloc: Global) -> Arg<'a>
    ensures { IsOption (required line.kind_word) result }
{
    Arg::new(alloc, "kind")
        .value_name("KIND")
        .help("set-agreement, with --k and perhaps --values, or renaming, with --names")
        .required(true)
        .action(ArgAction::Set)
}

/// Creates the subcommand `preset`.
fn preset_command<'a>(alloc: Global) -> Result<Command<'a>, AllocError>
    ensures { IfOk result (IsLeaf line.preset) }
{
    let command = subcommand(
        alloc,
        "preset",
        "Write the text of a task that has a name",
        KINDS,
    )
    .arg(kind(alloc));
    let command = with_arg(
        command,
        number(alloc, "processes", "How many processes there are, 1 to 4"),
    );
    let command = with_arg(
        command,
        optional(
            alloc,
            "k",
            "How many different values may be decided, at least 1",
        ),
    );
    let command = with_arg(
        command,
        optional(
            alloc,
            "values",
            "How many values each process may have as input, 1 to 64, as far as the task's limits allow: with four processes at most 7; each has its own number if not given",
        ),
    );
    with_arg(
        command,
        optional(alloc, "names", "How many names there are, 1 to 64"),
    )
}

/// Returns `command` with the subcommand `sub`, or the error of either.
fn with_subcommand<'a>(
    command: Result<Command<'a>, AllocError>,
    sub: Result<Command<'a>, AllocError>,
) -> Result<Command<'a>, AllocError>
    ensures { Adds command.entry sub.entry result }
{
    command?.subcommand(sub?)
}

/// Creates the command `wfcheck` with the subcommands `solve`, `verify`, `views`, `points` and
/// `branches`.
fn with_search_subcommands<'a>(alloc: Global) -> Result<Command<'a>, AllocError>
    ensures { IfOk result (λ c. app_of c ≡ with_first 5) }
{
    let command = Command::new(alloc, "wfcheck")
        .about(
            "Decide whether a task can be solved wait-free in r rounds of iterated immediate snapshots",
        )
        .after_help(MORE)
        .version(VERSION)
        .subcommand_required(true);
    let command = with_subcommand(Ok(command), solve_command(alloc));
    let command = with_subcommand(command, verify_command(alloc));
    let command = with_subcommand(command, views_command(alloc));
    let command = with_subcommand(command, points_command(alloc));
    with_subcommand(command, branches_command(alloc))
}

/// Creates the command `wfcheck` with the five subcommands of [`with_search_subcommands`], and
/// `join`, `cnf`, `model`, `proof` and `trim`.
fn with_sat_subcommands<'a>(alloc: Global) -> Result<Command<'a>, AllocError>
    ensures { IfOk result (λ c. app_of c ≡ with_first 10) }
{
    let command = with_search_subcommands(alloc);
    let command = with_subcommand(command, join_command(alloc));
    let command = with_subcommand(command, cnf_command(alloc));
    let command = with_subcommand(command, model_command(alloc));
    let command = with_subcommand(command, proof_command(alloc));
    with_subcommand(command, trim_command(alloc))
}

/// Creates the command line with all its subcommands.
pub(crate) fn whole_command<'a>(alloc: Global) -> Result<Command<'a>, AllocError>
    ensures { IfOk result (λ c. app_of c ≡ line.command_line) }
{
    let command = with_sat_subcommands(alloc);
    let command = with_subcommand(command, explain_command(alloc));
    let command = with_subcommand(command, lift_command(alloc));
    let command = with_subcommand(command, executions_command(alloc));
    let command = with_subcommand(command, obstruction_command(alloc));
    with_subcommand(command, preset_command(alloc))
}
