//! The calls of the tree.
ghost use Rattle.std.specs.Prelude.{◌≡◌, ◌<◌, min, length, Ok};
ghost use Rattle.orderings.specs.Meaning.{new as fresh, asked};
ghost use Rattle.orderings.specs.Table.{entries};
ghost use Rattle.tree.specs.Nodes.{node_at, marks, jump_under};
ghost use Rattle.tree.specs.ProgramTree.{meaning as meaning_of, Closed, side_of, Query, OpenAbove, Within48, Within3Log};

use crate::Tree;
use crate::node::Node;
use orderings::{Fault, Kind, Scopes, Table, Word};

impl<'t> Tree<'t> {
    /// Main alone is begun. A table of n entries leaves the smaller of n and 65,535 numbers beyond main.
    pub fn new(table: &'t mut [Node]) -> Tree<'t>
        ensures { meaning_of result ≡ fresh (min (length table.old) 65535) }
    {
        let main = Node {
            live: true,
            ..Node::EMPTY
        };
        let scopes = Scopes::new(table.len());
        Tree {
            nodes: Table::new(main, table),
            scopes,
        }
    }
}

impl Tree<'_> {
    /// The word of a task, by the tree. An open task is before. A closed one is unordered if, at its least common ancestor with the
    /// innermost open scope, the child on its side is a task. A search for that child by jumps and parents ends within three times
    /// log2 n turns among n scopes begun, so within 48; the loop here has no more.
    pub fn word_of(&self, task: u32) -> Result<Word, Fault>
        ensures answer { result ≡ asked (meaning_of self.now).begun task }
        ensures query { (w : Word) → result ≡ Ok w → Query self.now task w }
        ensures scopes { OpenAbove self.now }
        ensures turns { Within48 self.now }
        ensures logarithmic { Within3Log self.now }
    {
        if task >= self.scopes.begun() {
            return Err(Fault::NoSuchTask);
        }
        let node = self.node(task);
        match node.kind {
            Kind::Finish => Err(Fault::NoSuchTask),
            Kind::Task => {
                if node.live {
                    return Ok(Word::Before);
                }
                let side = self.side(task);
                match self.node(side).kind {
                    Kind::Task => Ok(Word::Unordered),
                    Kind::Finish => Ok(Word::Before),
                }
            }
        }
    }

    // The node of a scope begun. As `at` of the bags' table: one for both would be public, and no public function has a `requires`.
    pub(crate) fn node(&self, n: u32) -> Node
        requires { n < self.now.scopes.begun }
        ensures { result ≡ node_at (entries self.now.nodes) n }
    {
        // Read past `entry`, whose test for a number with no node is not needed here.
        if n == 0 {
            self.nodes.main
        } else {
            self.nodes.lent[n as usize - 1]
        }
    }

    // The child, on the side of the closed scope x, of its least common ancestor with the innermost open scope. The search goes up
    // by the jump while that leads to a closed scope, else to the parent.
    fn side(&self, x: u32) -> u32
        requires { Closed self.now x }
        ensures { result ≡ side_of self.now x }
    {
        let mut at = x;
        for _ in 0..48u32 {
            let node = self.node(at);
            let above = self.node(node.parent);
            if above.live {
                return at;
            }
            let far = self.node(node.jump);
            at = if far.live { node.parent } else { node.jump };
        }
        unreachable()
    }

    // The jump of a new child of the innermost scope: past two jumps of one length, else to that scope.
    pub(crate) fn next_jump(&self) -> u32
        ensures { result ≡ jump_under (marks (entries self.now.nodes)) self.now.scopes.inner }
    {
        let inner = self.scopes.innermost();
        let parent = self.node(inner);
        let far = self.node(parent.jump);
        let farther = self.node(far.jump);
        if parent.depth - far.depth == far.depth - farther.depth {
            far.jump
        } else {
            inner
        }
    }
}
