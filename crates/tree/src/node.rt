//! The nodes of the tree.
use orderings::Kind;

/// One entry of the table lent to [`Tree`](crate::Tree): a scope. All but `live` is set when the scope is opened, and never changed.
// Nodes name one another by number: the table is fixed memory that the caller lends, and nothing is allocated.
#[derive(Clone, Copy)]
pub struct Node {
    pub(crate) kind: Kind,
    /// Whether the scope is open.
    pub(crate) live: bool,
    pub(crate) parent: u32,
    /// The innermost task at the scope or above it.
    pub(crate) within: u32,
    /// How many scopes lie above it.
    pub(crate) depth: u32,
    /// An ancestor further up, which a search tries ahead of the parent.
    pub(crate) jump: u32,
}

impl Node {
    /// A node that holds no scope yet.
    pub const EMPTY: Node = Node {
        kind: Kind::Task,
        live: false,
        parent: 0,
        within: 0,
        depth: 0,
        jump: 0,
    };
}
