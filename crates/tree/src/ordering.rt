//! The tree is an ordering.
ghost use Rattle.tree.specs.Formation.{formed_tree};
ghost use Rattle.tree.specs.ProgramTree.{meaning as meaning_of};

use crate::Tree;
use crate::node::Node;
use crate::nodes::{set_node, shut};
use orderings::{Fault, Kind, Ordering, Word};

impl<'t> Ordering for Tree<'t> {
    ghost meaning = { meaning_of };

    ghost sound = { λ _. Unit {0} };

    ghost formed = { λ x _. formed_tree x };

    fn open(&mut self, kind: Kind) -> Result<u32, Fault> {
        let parent = self.scopes.innermost();
        let scopes = self.scopes.opened()?;
        let number = scopes.innermost();
        let above = self.node(parent);
        let within = scopes.within(kind, above.within);
        let jump = self.next_jump();
        set_node(
            &mut self.nodes,
            number,
            Node {
                kind,
                live: true,
                parent,
                within,
                depth: above.depth + 1,
                jump,
            },
        );
        self.scopes = scopes;
        Ok(number)
    }

    fn close(&mut self) -> Result<u32, Fault> {
        let number = self.scopes.innermost();
        let node = self.node(number);
        let scopes = self.scopes.closed(node.parent)?;
        shut(&mut self.nodes, number);
        self.scopes = scopes;
        Ok(number)
    }

    // What only hands on is alike in bags and tree: the trait has no fields to hand on to.
    fn ask(&mut self, task: u32) -> Result<Word, Fault> {
        self.word_of(task)
    }

    fn innermost_task(&self) -> u32 {
        // In bags and tree alike, since the table knows no entry's tasks.
        self.node(self.scopes.innermost()).within
    }

    fn open_count(&self) -> u32 {
        self.scopes.open_count()
    }

    fn kind_of(&self, number: u32) -> Option<Kind> {
        // In bags and tree alike, since the table knows no entry's kind.
        // Not by `then_some`, which reads the node of any number.
        if number < self.scopes.begun() {
            Some(self.nodes.entry(number).kind)
        } else {
            None
        }
    }

    fn begun(&self) -> u32 {
        self.scopes.begun()
    }

    fn left(&self) -> u32 {
        self.scopes.left()
    }
}
