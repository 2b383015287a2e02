//! The program structure tree: an ordering on a table lent by the caller.
#![tactic(auto)]

ghost use Rattle.std.specs.Prelude.{◌≡◌, min, length};
ghost use Rattle.orderings.specs.Table.{entries};
ghost use Rattle.tree.specs.Nodes.{shape, marks, SoundTree};

use orderings::{Scopes, Table};

mod calls;
mod node;
mod nodes;
mod ordering;

pub use node::Node;

/// The dynamic program structure tree. Each scope is a node, and its parent is the scope it was opened in. The open scopes are
/// the innermost one and its ancestors.
#[derive(Drop)]
pub struct Tree<'t> {
    nodes: Table<'t, Node>,
    scopes: Scopes,
    ghost numbers: { scopes.numbers ≡ min (length nodes.lent.now) 65535 },
    ghost sound: { ∥ SoundTree (shape (entries nodes)) (marks (entries nodes)) scopes.begun scopes.inner scopes.count ∥₁ },
}
