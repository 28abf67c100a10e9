//! The reader of an obstruction's text.

ghost use Rattle.std.specs.Prelude.{◌≡◌, ◌+◌, ◌≤◌, ◌++◌, ◌∷◌, [], true, IfOk, length};
ghost use Rattle.wf_model.specs.Report.{lines_of};
ghost use Rattle.wf_report.specs.Reading.{Gives, lacks};
ghost use Rattle.wf_tree_text.specs.Seen.{IsRead, nodes_seen};
ghost use Rattle.wf_tree_text.specs.Steps.{changed, next_in};
ghost use Rattle.wf_tree_text.specs.Text.{end_at, first_line, lines_of_nodes, nodes_from};

use crate::front::{read_first, read_number};
use crate::line::line_of_numbers;
use crate::nodes::add_line;
use crate::numbers::read_numbers;
use crate::obstruction::{Obstruction, TreeNode};
use std::alloc::{AllocError, Global};
use wf_report::{CertFault, split_once};
use wf_task::MAX_TEXT_BYTES;

/// The line number of the first node.
pub(crate) const FIRST_NODE_LINE: u32 = 4;

/// Reads an obstruction from its text.
///
/// The nodes that it returns have few enough lines for [`line_of`](crate::line_of).
///
/// # Errors
///
/// - [`CertFault::TooLong`]: the text has more than 16,777,216 bytes. It is not read then.
/// - [`CertFault::Syntax`]: the text is not that of an obstruction; the number is that of the first
///   wrong line, from 1 on.
/// - [`CertFault::OutOfMemory`]: memory ran out.
pub fn read_obstruction(alloc: Global, text: &[u8]) -> Result<Obstruction, CertFault>
    ensures read { IsRead result text.now }
    ensures few { IfOk result (λ o.
        length (lines_of_nodes (nodes_seen o.nodes.items)) ≤ MAX_TEXT_BYTES) }
{
    if text.len() > MAX_TEXT_BYTES {
        return Err(CertFault::TooLong);
    }
    let rest = read_first(text)?;
    let (processes, rest) = read_number(rest, 2, b"processes")?;
    let (simplices, rest) = read_number(rest, 3, b"simplices")?;
    let nodes = read_nodes(alloc, rest)?;
    Ok(Obstruction {
        processes,
        simplices,
        nodes,
    })
}

/// Reads the lines of the nodes and the line `end`, which has to be the last one.
fn read_nodes(alloc: Global, text: &[u8]) -> Result<Vec<TreeNode>, CertFault>
    requires { length text.now ≤ MAX_TEXT_BYTES }
    ensures nodes { let read = nodes_from first_line [] (lines_of text.now) in
        Gives (λ nodes. nodes_seen nodes.items) result read }
    ensures few { IfOk result (λ nodes.
        length (lines_of_nodes (nodes_seen nodes.items)) ≤ length text.now) }
{
    let mut nodes = Vec::new(alloc);
    let mut numbers = Vec::new(alloc);
    let mut rest = text;
    let mut at = FIRST_NODE_LINE;
    'lines: while let Some((found, others)) = split_once(rest, b'\n') {
        if found == b"end".as_slice() {
            check_end(others, at)?;
            return Ok(nodes);
        }
        if !add_text_line(alloc, &mut nodes, &mut numbers, found)? {
            return Err(CertFault::Syntax(at));
        }
        rest = others;
        at += 1;
    }
    Err(CertFault::Syntax(at))
}

/// Parses `line` and adds it to the nodes. Returns `false` if it is not a line of a node, or must
/// not come after the lines before. `numbers` is a buffer; what it holds is lost.
fn add_text_line(
    alloc: Global,
    nodes: &mut Vec<TreeNode>,
    numbers: &mut Vec<u32>,
    line: &[u8],
) -> Result<bool, AllocError>
    requires { lacks 10 line.now ≡ true }
    ensures { IfOk result (λ taken. changed taken (nodes_seen nodes.new.items)
        ≡ next_in (nodes_seen nodes.old.items) (line.now ++ 10 ∷ [])) }
{
    let Some((name, rest)) = split_once(line, b' ') else {
        return Ok(false);
    };
    if !read_numbers(rest, numbers)? {
        return Ok(false);
    }
    let Some(said) = line_of_numbers(alloc, name, numbers)? else {
        return Ok(false);
    };
    add_line(alloc, nodes, said)
}

/// Fails if there is text after the line `end`, which has the line number `at`.
fn check_end(behind: &[u8], at: u32) -> Result<(), CertFault>
    requires { at ≤ FIRST_NODE_LINE + MAX_TEXT_BYTES }
    ensures { Gives (λ nothing_more. []) result (end_at at [] (lines_of behind.now)) }
{
    if !behind.is_empty() {
        return Err(CertFault::Syntax(at + 1));
    }
    Ok(())
}
