//! Builds the options of a command line, as `clap` parses them and shows them in its help.

ghost use Rattle.wf_cli.specs.Words.Options as options;
ghost use Rattle.wf_cli.specs.Words.Building.{IsOption, Takes};

use clap::{Arg, ArgAction, Command, value_parser};
use std::alloc::{AllocError, Global};

/// Creates the required option `--NAME N`, where `NAME` is `name` and `N` is a whole number below
/// 2^32.
pub fn number<'a>(alloc: Global, name: &'a str, help: &'a str) -> Arg<'a>
    ensures { IsOption (options.required (options.number_option name.now)) result }
{
    optional(alloc, name, help).required(true)
}

/// Creates the optional option `--NAME N`, where `NAME` is `name` and `N` is a whole number below
/// 2^32.
pub fn optional<'a>(alloc: Global, name: &'a str, help: &'a str) -> Arg<'a>
    ensures { IsOption (options.number_option name.now) result }
{
    Arg::new(alloc, name)
        .long(name)
        .help(help)
        .action(ArgAction::Set)
        .value_parser(value_parser!(u32))
}

/// Creates the flag `--NAME`, where `NAME` is `name`. It takes no value.
pub fn flag<'a>(alloc: Global, name: &'a str, help: &'a str) -> Arg<'a>
    ensures { IsOption (options.flag_option name.now) result }
{
    Arg::new(alloc, name)
        .long(name)
        .help(help)
        .action(ArgAction::SetTrue)
}

/// Creates the optional option `--task FILE`.
pub fn task_file<'a>(alloc: Global, help: &'a str) -> Arg<'a>
    ensures { IsOption options.task_option result }
{
    Arg::new(alloc, "task")
        .long("task")
        .value_name("FILE")
        .help(help)
        .action(ArgAction::Set)
}

/// Creates the required option `--task FILE`.
pub fn task<'a>(alloc: Global) -> Arg<'a>
    ensures { IsOption (options.required options.task_option) result }
{
    task_file(alloc, "The file that has the task").required(true)
}

/// Adds `option` to `command`.
///
/// # Errors
///
/// Returns `AllocError` if memory runs out, or if `command` is an error already.
pub fn with_arg<'a>(
    command: Result<Command<'a>, AllocError>,
    option: Arg<'a>,
) -> Result<Command<'a>, AllocError>
    ensures { Takes command.entry option.entry result }
{
    command?.arg(option)
}
