//! The line numbers of nodes, moves and multipliers.

ghost use Rattle.std.specs.Prelude.{◌≡◌, ◌≤◌, length};
ghost use Rattle.wf_tree_text.specs.Seen.{node_seen, nodes_seen};
ghost use Rattle.wf_tree_text.specs.Text.{line_of, lines_of_node, lines_of_nodes};

use crate::obstruction::TreeNode;
use crate::reading::FIRST_NODE_LINE;
use wf_task::MAX_TEXT_BYTES;

/// Returns the line number of node `node`, or of one of its moves or multipliers.
///
/// Line numbers begin with 1, and nodes with 0. An `entry` of 0 means the node's own line, `k` that
/// of its `k`-th move or multiplier. If there is no such node, it is the line number of `end`, plus
/// `entry`. The nodes must be those of a text that was read, or have at most `MAX_TEXT_BYTES`
/// lines.
pub fn line_of(nodes: &[TreeNode], node: usize, entry: u32) -> u32
    requires few { length (lines_of_nodes (nodes_seen nodes.now)) ≤ MAX_TEXT_BYTES }
    requires entry { entry ≤ MAX_TEXT_BYTES }
    ensures { result ≡ line_of (nodes_seen nodes.now) node entry }
{
    let mut lines = 0;
    for before in &nodes[..node.min(nodes.len())] {
        lines += line_count(before);
    }
    FIRST_NODE_LINE + lines as u32 + entry
}

/// Returns the number of lines of `node`.
fn line_count(node: &TreeNode) -> usize
    requires { length (lines_of_node (node_seen node.now)) ≤ MAX_TEXT_BYTES }
    ensures { result ≡ length (lines_of_node (node_seen node.now)) }
{
    match node {
        TreeNode::Case { .. } | TreeNode::Split { .. } => 1,
        TreeNode::Cover(cover) => 1 + cover.moves.len(),
        TreeNode::Balance(balance) => 1 + balance.multipliers.len(),
    }
}
