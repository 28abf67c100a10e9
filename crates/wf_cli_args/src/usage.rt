//! Usage hints, which are printed after a refused command line and show how the command is called.

ghost use Rattle.std.specs.Prelude.{◌≡◌, map, option_map, string_bytes};
ghost use Rattle.wf_cli_args.specs.Usage.{task_file_usages, line_in, line_of, other_lines, task_lines, usage_of};

/// The hint for a first word that is no command, or for a missing one.
const FIRST: &str =
    "the first word is a command, as in `wfcheck solve --rounds 1 --workers 1 < FILE`";

/// Returns the usage hint for the command in `words[1]`. For a command of another program, such as
/// `ask`, the hint names that program. There is no full stop at the end; `words[0]` is the
/// program's own name.
pub fn usage_of(words: &[String]) -> &'static str
    ensures { result.now ≡ usage_of (map string_bytes words.now) }
{
    match words {
        [_, name, ..] => line_of(name),
        _ => FIRST,
    }
}

/// Returns the usage hint for the command `name`.
fn line_of(name: &str) -> &'static str
    ensures { result.now ≡ line_of name.now }
{
    match (
        stdin_task_usage(name),
        task_file_usage(name),
        other_usage(name),
    ) {
        (Some(line), _, _) => line,
        (None, Some(line), _) => line,
        (None, None, Some(line)) => line,
        (None, None, None) => FIRST,
    }
}

/// Returns the usage hint for a command that reads a task from standard input, or `None` if `name`
/// is no such command.
fn stdin_task_usage(name: &str) -> Option<&'static str>
    ensures { option_map (λ s. s.now) result ≡ line_in task_lines name.now }
{
    let line = match name {
        "solve" =>
            "the task is read from standard input, as in `wfcheck solve --rounds 1 --workers 1 < FILE`; `wfcheck-ask FILE 1` asks SAT solvers too",
        "views" => "the task is read from standard input, as in `wfcheck views --rounds 1 < FILE`",
        "points" =>
            "the task is read from standard input, as in `wfcheck points --rounds 1 < FILE`",
        "branches" =>
            "the task is read from standard input, as in `wfcheck branches --rounds 1 < FILE`",
        "cnf" => "the task is read from standard input, as in `wfcheck cnf --rounds 1 < FILE`",
        "executions" =>
            "the task is read from standard input, as in `wfcheck executions --rounds 1 < FILE`",
        "obstruction" => "the task is read from standard input, as in `wfcheck obstruction < FILE`",
        _ => return None,
    };
    Some(line)
}

/// Returns the usage hint for a command that reads the task from a file, or `None` if `name` is no
/// such command.
fn task_file_usage(name: &str) -> Option<&'static str>
    ensures { option_map (λ s. s.now) result ≡ line_in task_file_usages name.now }
{
    let line = match name {
        "verify" =>
            "the report is read from standard input and the task from its file, as in `wfcheck verify --task FILE < REPORT`",
        "join" =>
            "the parts are read from standard input and the task from its file, as in `wfcheck join --task FILE --rounds 1 < PARTS`",
        "model" =>
            "the model is read from standard input and the task from its file, as in `wfcheck model --task FILE --rounds 1 < MODEL`",
        "proof" =>
            "the proof is read from standard input and the task from its file, as in `wfcheck proof --task FILE --rounds 1 < PROOF`",
        "trim" =>
            "the report is read from standard input and the task from its file, as in `wfcheck trim --task FILE < REPORT`",
        "explain" =>
            "the report is read from standard input and the task from its file, as in `wfcheck explain --task FILE < REPORT`",
        "lift" =>
            "the report is read from standard input and the task from its file, as in `wfcheck lift --task FILE < REPORT`",
        _ => return None,
    };
    Some(line)
}

/// Returns the hint for a command that reads nothing or that is a program of its own, or `None` if
/// `name` is no such command.
fn other_usage(name: &str) -> Option<&'static str>
    ensures { option_map (λ s. s.now) result ≡ line_in other_lines name.now }
{
    let line = match name {
        "preset" =>
            "nothing is read, as in `wfcheck preset renaming --processes 3 --names 5 > FILE`",
        "ask" =>
            "`wfcheck-ask FILE ROUNDS` is a command of its own, which `make install` installs; in the repository it is tools/ask",
        "lint" =>
            "`wfcheck-lint FILE` is a command of its own, which `make install` installs; in the repository it is tools/lint.py",
        "task" =>
            "`wfcheck-task NAME` is a command of its own, which `make install` installs; in the repository it is tools/tasks.py",
        "draw" => "`wfcheck-draw` is a command of its own, which `make install` installs",
        "names" => "`wfcheck-names` is a command of its own, which `make install` installs",
        "rules" => "`wfcheck-rules` is a command of its own, which `make install` installs",
        _ => return None,
    };
    Some(line)
}
