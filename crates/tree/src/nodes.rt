//! Writes to the nodes of the caller's table.
ghost use Rattle.std.specs.Prelude.{◌≡◌, ◌<◌, ◌≤◌, length, slice_set};
ghost use Rattle.orderings.specs.Table.{entries};
ghost use Rattle.tree.specs.Nodes.{node_at, shut as shut_node};

use crate::node::Node;
use orderings::Table;

/// Writes the node of a number.
// Past `set_entry`, whose tests for main's number and for one with no node are not needed here.
pub(crate) fn set_node(nodes: &mut Table<'_, Node>, n: u32, node: Node)
    requires { (0 < n) × (n ≤ length nodes.old.lent.now) }
    ensures { entries nodes.new ≡ slice_set (entries nodes.old) n node }
{
    nodes.lent[n as usize - 1] = node;
}

/// Closes the node of a number: one flag is cleared.
pub(crate) fn shut(nodes: &mut Table<'_, Node>, n: u32)
    requires { (0 < n) × (n ≤ length nodes.old.lent.now) }
    ensures { entries nodes.new ≡ slice_set (entries nodes.old) n (shut_node (node_at (entries nodes.old) n)) }
{
    nodes.lent[n as usize - 1].live = false;
}
