//! The run, from the reader of a task to the writer of an obstruction.

ghost use Rattle.std.specs.Prelude.{◌≡◌, OnOk};
ghost use Rattle.std.specs.List.{list_all};
ghost use Rattle.wf_base.specs.Streams.Ends.{CanCount, CanRead};
ghost use Rattle.wf_run.specs.Run.{answered};
ghost use Rattle.wf_tree_text.specs.Seen.{node_seen, nodes_seen};
ghost use Rattle.wf_run_obstruction.specs.Finding.{Answers, FindsObstruction, IsAnswer, IsWritten, SeeksIn, is_tried, is_tried_at};

use crate::finding::{Finding, GaveUp, SearchLimit};
use crate::search::{FinderResult, MODULI, ObstructionSpec, SearchError, run_finder, tried};
use std::alloc::Global;
use std::io::{Read, Write};
use wf_base::streams::{Sink, Source};
use wf_run::{Answered, ObstructionFault, RunFault, read_task, write_answer};
use wf_run_verify::{judge_obstruction, obstruction_of};
use wf_task::Task;
use wf_tree_finder::FinderProgress;
use wf_tree_text::{Obstruction, TreeNode, write_obstruction};

/// Reads a task up to the end of `source`, looks for an obstruction of it, and writes the
/// obstruction to `sink`. Writes nothing if none is found or the search gives up.
///
/// The balances have the modulus of `wanted`, or else the first of [`MODULI`] for which one is
/// found. Covers are tried only if `wanted` allows them. If an obstruction is written, the task has
/// no decision map after any number of rounds; otherwise nothing is known about the task.
///
/// # Errors
///
/// - `50 FirstBlock`: the task has a first block above 1. Obstructions are for other tasks.
/// - Other errors: the text is too long or is not that of a task, memory ran out, or a call of the
///   reader or the writer failed.
pub fn run_obstruction<L: FinderProgress, R: Read, W: Write>(
    alloc: Global,
    source: &mut Source<R>,
    sink: &mut Sink<W>,
    wanted: ObstructionSpec,
    listener: &L,
) -> Result<Finding, RunFault>
    requires { CanCount source.old sink.old }
    ensures { FindsObstruction wanted source.old source.new sink.old sink.new result }
{
    match find_in_source(alloc, source, wanted, listener) {
        Ok((Finding::GaveUp(gave_up), _)) => Ok(Finding::GaveUp(gave_up)),
        answer => write_answer(sink, answer),
    }
}

/// Reads the task and looks for an obstruction. Returns the result, with the text of an obstruction
/// that was found.
fn find_in_source<L: FinderProgress, R: Read>(
    alloc: Global,
    source: &mut Source<R>,
    wanted: ObstructionSpec,
    listener: &L,
) -> Answered<Finding>
    requires { CanRead source.old }
    ensures { SeeksIn wanted source.old source.new (answered result) }
{
    let task = read_task(alloc, source)?;
    find_in_task(alloc, &task, wanted, listener)
}

/// Looks for an obstruction of `task`. Returns the result, with the text of an obstruction that was
/// found. Fails if the task has a first block above 1.
fn find_in_task<L: FinderProgress>(
    alloc: Global,
    task: &Task,
    wanted: ObstructionSpec,
    listener: &L,
) -> Answered<Finding>
    ensures { Answers wanted task.now (answered result) }
{
    if task.first_block() != 1 {
        return Err(RunFault::Obstruction(ObstructionFault::FirstBlock));
    }
    match run_finder(alloc, task, wanted, listener) {
        Ok(FinderResult::Found(found)) => checked_finding(alloc, task, wanted, &found),
        Ok(FinderResult::NotFound { integers }) => {
            let tried = tried(wanted, integers);
            Ok((Finding::NotFound(tried), Vec::new(alloc)))
        }
        Err(SearchError::GaveUp(gave_up)) => Ok((Finding::GaveUp(gave_up), Vec::new(alloc))),
        Err(SearchError::OutOfMemory) => Err(RunFault::OutOfMemory),
    }
}

/// Returns the result `Found` with the text of the obstruction `found`, if the check accepts it;
/// otherwise returns a `GaveUp` with the limit that was met. Fails if memory runs out.
fn checked_finding(
    alloc: Global,
    task: &Task,
    wanted: ObstructionSpec,
    found: &Obstruction,
) -> Answered<Finding>
    ensures { IsAnswer wanted task.now (answered result) }
{
    let text = write_obstruction(alloc, found)?;
    match check_found(alloc, task, wanted, &text) {
        Ok(()) => Ok((Finding::Found, text)),
        Err(fault) => match limit_of(fault) {
            None => Err(RunFault::OutOfMemory),
            Some(limit) => {
                let modulus = None;
                Ok((Finding::GaveUp(GaveUp { modulus, limit }), Vec::new(alloc)))
            }
        },
    }
}

/// Checks that `text` is an obstruction of `task`, as `verify` does, and that the options `wanted`
/// allow each of its nodes. Fails with `FirstBlock` if one is not allowed, which the caller reports
/// as an internal error.
fn check_found(
    alloc: Global,
    task: &Task,
    wanted: ObstructionSpec,
    text: &[u8],
) -> Result<(), RunFault>
    ensures { OnOk result (IsWritten wanted task.now text.now) }
{
    let obstruction = obstruction_of(alloc, text)?;
    if !are_allowed(wanted, &obstruction.nodes) {
        return Err(RunFault::Obstruction(ObstructionFault::FirstBlock));
    }
    judge_obstruction(alloc, task, &obstruction)
}

/// Returns whether each of `nodes` is one that `wanted` asks for.
fn are_allowed(wanted: ObstructionSpec, nodes: &[TreeNode]) -> bool
    ensures { result ≡ list_all (is_tried_at wanted) (nodes_seen nodes.now) }
{
    'nodes: for node in nodes {
        if !is_allowed_at(wanted, node) {
            return false;
        }
    }
    true
}

/// Returns whether `wanted` asks for a node such as `node`: a balance has to have a modulus that is
/// tried, and a cover has to be allowed.
fn is_allowed_at(wanted: ObstructionSpec, node: &TreeNode) -> bool
    ensures { result ≡ is_tried_at wanted (node_seen node.now) }
{
    match node {
        TreeNode::Balance(balance) => is_tried(wanted.modulus, balance.modulus),
        TreeNode::Cover(_) => 0 < wanted.covers,
        _ => true,
    }
}

/// Returns whether `modulus` is the only one that is tried, or one of [`MODULI`] if `wanted` is
/// `None`.
fn is_tried(wanted: Option<u32>, modulus: u32) -> bool
    ensures { result ≡ is_tried wanted modulus }
{
    match wanted {
        Some(only) => modulus == only,
        None => MODULI.contains(&modulus),
    }
}

/// Returns the limit to report if the check refused an obstruction that the finder had found, with
/// the error `fault`: `Length` if its text is too long, otherwise `Internal`. Returns `None` if
/// memory ran out.
fn limit_of(fault: RunFault) -> Option<SearchLimit> {
    match fault {
        RunFault::OutOfMemory => None,
        RunFault::TooLong => Some(SearchLimit::Length),
        _ => Some(SearchLimit::Internal),
    }
}
