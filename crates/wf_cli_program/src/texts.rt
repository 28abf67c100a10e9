//! Runs the commands that write a text without a search.

ghost use Rattle.wf_base.specs.Streams.Ends.{CanCount};
ghost use Rattle.wf_cli_program.specs.Program.{ListsQuestion, WritesTextOf};

use crate::cnf::FormulaText;
use crate::executions::ExecutionList;
use crate::points::DescribePoints;
use crate::preset::run_preset;
use crate::views::run_views;
use std::alloc::Global;
use std::io::{Read, Write};
use wf_base::streams::{Sink, Source};
use wf_cli_args::TextJob;
use wf_run::{RunFault, run_in_pieces, run_over_task};
use wf_run_branches::{BranchFormula, BranchList};

/// Writes the text `what`, about the task that `source` gives or about a preset.
pub(crate) fn write_text<R: Read, W: Write>(
    alloc: Global,
    source: &mut Source<R>,
    sink: &mut Sink<W>,
    what: TextJob,
) -> Result<(), RunFault>
    requires { CanCount source.old sink.old }
    ensures { WritesTextOf what source.old source.new sink.old sink.new result }
{
    match what {
        TextJob::Views(rounds) => run_views(alloc, source, sink, rounds),
        TextJob::Points(rounds) => run_over_task(alloc, source, sink, rounds, &DescribePoints),
        TextJob::Branches(rounds) => run_over_task(alloc, source, sink, rounds, &BranchList),
        TextJob::Cnf { rounds, branch } => write_question(alloc, source, sink, rounds, branch),
        TextJob::Executions(rounds) => {
            run_in_pieces(alloc, source, sink, &ExecutionList { rounds })
        }
        TextJob::Preset(preset) => run_preset(alloc, sink, preset),
    }
}

/// Writes the question of the task that `source` gives, or that of branch `branch` if one is given.
fn write_question<R: Read, W: Write>(
    alloc: Global,
    source: &mut Source<R>,
    sink: &mut Sink<W>,
    rounds: u32,
    branch: Option<u32>,
) -> Result<(), RunFault>
    requires { CanCount source.old sink.old }
    ensures { ListsQuestion branch rounds source.old source.new sink.old sink.new result }
{
    match branch {
        Some(branch) => run_in_pieces(alloc, source, sink, &BranchFormula { rounds, branch }),
        None => run_in_pieces(alloc, source, sink, &FormulaText { rounds }),
    }
}
