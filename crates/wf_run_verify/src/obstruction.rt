//! Checking an obstruction of a task.

ghost use Rattle.std.specs.Prelude.{◌≡◌, ◌≤◌, IfOk, length};
ghost use Rattle.wf_model.specs.Limits.{most_bytes};
ghost use Rattle.wf_tree_text.specs.Seen.{nodes_seen, obstruction_seen};
ghost use Rattle.wf_tree_text.specs.Text.{lines_of_nodes};
ghost use Rattle.wf_run_verify.specs.Obstructions.{IsObstructionOf, IsSoundOrRefused, balance_told, cover_told, entry_at, entry_of, entry_of_balance, limit_told, node_of, read_as_obstruction, told, told_at};

use std::alloc::Global;
use wf_report::CertFault;
use wf_run::{CheckerLimit, ObstructionFault, RunFault};
use wf_task::{MAX_TEXT_BYTES, Task};
use wf_tree_check::{Limit, TreeFault, is_obstruction};
use wf_tree_steps::balance::BalanceFault;
use wf_tree_steps::cover::CoverFault;
use wf_tree_text::{Obstruction, TreeNode, line_of, read_obstruction};

/// Parses the text of an obstruction. The result has few enough lines for [`judge_obstruction`].
///
/// # Errors
///
/// Returns `TooLong` if `text` has more than 16,777,216 bytes, `Syntax` with the first line that
/// breaks the grammar, or that memory ran out.
pub fn obstruction_of(alloc: Global, text: &[u8]) -> Result<Obstruction, RunFault>
    ensures read { IsObstructionOf text.now (read_as_obstruction result) }
    ensures few { IfOk result (λ o.
        length (lines_of_nodes (nodes_seen o.nodes.items)) ≤ most_bytes) }
{
    Ok(read_obstruction(alloc, text)?)
}

/// Checks that `obstruction` is an obstruction of `task`, which then has no decision map after any
/// number of rounds.
///
/// # Errors
///
/// Returns `Header` if the obstruction is about a task with another number of processes or input
/// simplices, else its first fault (one with a number from 50 to 59 or from 65 to 69), or that
/// memory ran out.
pub fn judge_obstruction(
    alloc: Global,
    task: &Task,
    obstruction: &Obstruction,
) -> Result<(), RunFault>
    requires few { length (lines_of_nodes (nodes_seen obstruction.now.nodes.items)) ≤ most_bytes }
    ensures { IsSoundOrRefused task.now (obstruction_seen obstruction.now) result }
{
    if obstruction.processes != u32::from(task.processes()) {
        return Err(RunFault::Cert(CertFault::Header(2)));
    }
    if obstruction.simplices as usize != task.inputs().simplices().len() {
        return Err(RunFault::Cert(CertFault::Header(3)));
    }
    match is_obstruction(alloc, task, &obstruction.nodes) {
        Ok(()) => Ok(()),
        Err(fault) => Err(with_text(&obstruction.nodes, fault)),
    }
}

/// Converts a fault of nodes, which names a node, to one that names a line of their text.
fn with_text(nodes: &[TreeNode], fault: TreeFault) -> RunFault
    requires few { length (lines_of_nodes (nodes_seen nodes.now)) ≤ most_bytes }
    ensures { result ≡ told (nodes_seen nodes.now) fault }
{
    fault_at_line(
        line_of(nodes, node_of(fault) as usize, entry_of(fault)),
        fault,
    )
}

/// Returns the index of the node that `fault` is about, or 0 if it is about none.
fn node_of(fault: TreeFault) -> u64
    ensures { result ≡ node_of fault }
{
    match fault {
        TreeFault::FirstBlock | TreeFault::OutOfMemory => 0,
        TreeFault::NoNode { node }
        | TreeFault::Behind { node }
        | TreeFault::NoSimplex { node }
        | TreeFault::Symmetric { node }
        | TreeFault::NoCover { node, .. }
        | TreeFault::NoBalance { node, .. }
        | TreeFault::TooLarge { node, .. } => node,
    }
}

/// Returns the number, from 1, of the node's multiplier that `fault` is about, or 0 if it is about
/// the node itself.
fn entry_of(fault: TreeFault) -> u32
    ensures same { result ≡ entry_of fault }
    ensures few { result ≤ most_bytes }
{
    match fault {
        TreeFault::NoBalance { fault, .. } => entry_of_balance(fault),
        _ => 0,
    }
}

/// Returns the number, from 1, of the multiplier that `fault` is about, or 0 if it is about the
/// balance itself.
fn entry_of_balance(fault: BalanceFault) -> u32
    ensures same { result ≡ entry_of_balance fault }
    ensures few { result ≤ most_bytes }
{
    match fault {
        BalanceFault::NoSimplex { multiplier }
        | BalanceFault::NoPlace { multiplier }
        | BalanceFault::OthersLength { multiplier }
        | BalanceFault::WeightRange { multiplier } => entry_at(multiplier),
        _ => 0,
    }
}

/// Returns the number, from 1, of the multiplier with the index `place`, or 0 if `place` is
/// 16,777,216 or more. No text is long enough for so many multipliers.
fn entry_at(place: u64) -> u32
    ensures same { result ≡ entry_at place }
    ensures few { result ≤ most_bytes }
{
    if place < MAX_TEXT_BYTES as u64 {
        place as u32 + 1
    } else {
        0
    }
}

/// Converts `fault`, a fault of an obstruction's nodes, to the fault of a run that names the line
/// `line`.
fn fault_at_line(line: u32, fault: TreeFault) -> RunFault
    ensures { result ≡ told_at line fault }
{
    RunFault::Obstruction(match fault {
        TreeFault::OutOfMemory => return RunFault::OutOfMemory,
        TreeFault::NoBalance { fault, .. } => return balance_fault_at(line, fault),
        TreeFault::NoCover { fault, .. } => cover_fault_at(line, fault),
        TreeFault::FirstBlock => ObstructionFault::FirstBlock,
        TreeFault::NoNode { .. } => ObstructionFault::NoTree { line },
        TreeFault::Behind { .. } => ObstructionFault::Behind { line },
        TreeFault::NoSimplex { .. } => ObstructionFault::NoSimplex { line },
        TreeFault::Symmetric { .. } => ObstructionFault::Symmetric { line },
        TreeFault::TooLarge { limit, .. } => ObstructionFault::TooLarge {
            line,
            limit: reported_limit(limit),
        },
    })
}

/// Converts a fault of a balance to one that names the line `line`.
fn balance_fault_at(line: u32, fault: BalanceFault) -> RunFault
    ensures { result ≡ balance_told line fault }
{
    RunFault::Obstruction(match fault {
        BalanceFault::OutOfMemory => return RunFault::OutOfMemory,
        BalanceFault::SumRange => ObstructionFault::SumRange { line },
        BalanceFault::NoSimplex { .. } => ObstructionFault::NoSimplex { line },
        BalanceFault::NoPlace { .. } => ObstructionFault::NoPlace { line },
        BalanceFault::OthersLength { .. } => ObstructionFault::OthersLength { line },
        BalanceFault::WeightRange { .. } => ObstructionFault::WeightRange { line },
        BalanceFault::OtherSum => ObstructionFault::OtherSum { line },
        BalanceFault::NotBalanced { simplex, tuple } => ObstructionFault::NotBalanced {
            line,
            simplex,
            tuple,
        },
    })
}

/// Converts a fault of a cover to one that names the line `line`.
fn cover_fault_at(line: u32, fault: CoverFault) -> ObstructionFault
    ensures { result ≡ cover_told line fault }
{
    match fault {
        CoverFault::OneParticipant => ObstructionFault::OneParticipant { line },
        CoverFault::NoCorner => ObstructionFault::NoPlace { line },
        CoverFault::NoSheet => ObstructionFault::NoSheet { line },
        CoverFault::NotFlat { tuple } => ObstructionFault::NotFlat { line, tuple },
    }
}

/// Converts a limit of the obstruction checker to the form in which it is reported.
fn reported_limit(limit: Limit) -> CheckerLimit
    ensures { result ≡ limit_told limit }
{
    match limit {
        Limit::Depth => CheckerLimit::Levels,
        Limit::Nodes => CheckerLimit::Nodes,
        Limit::Names => CheckerLimit::Names,
        Limit::Tuples => CheckerLimit::Tuples,
    }
}
