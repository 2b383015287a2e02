//! The bags are an ordering.
ghost use Rattle.orderings.specs.Bags.{meaning as meaning_of};
ghost use Rattle.orderings.specs.Formation.{formed_bags};

use crate::bags::Bags;
use crate::bags::entry::Entry;
use crate::ordering::Ordering;
use crate::words::{Fault, Kind, Word};

impl<'t> Ordering for Bags<'t> {
    ghost meaning = { meaning_of };

    ghost sound = { λ _. Unit {0} };

    ghost formed = { λ x _. formed_bags x };

    fn open(&mut self, kind: Kind) -> Result<u32, Fault> {
        let outward = self.scopes.innermost();
        let scopes = self.scopes.opened()?;
        let number = scopes.innermost();
        let within = self.store.innermost_task(kind, number, outward);
        self.store.set_at(
            number,
            Entry {
                kind,
                rank: 0,
                parent: number,
                bag: 2 * number,
                outward,
                within,
                serial: number,
                parallel: 0,
            },
        );
        self.scopes = scopes;
        Ok(number)
    }

    fn close(&mut self) -> Result<u32, Fault> {
        let number = self.scopes.innermost();
        let outward = self.store.at(number).outward;
        let scopes = self.scopes.closed(outward)?;
        self.store.pour_out(number);
        self.scopes = scopes;
        Ok(number)
    }

    // What only hands on is alike in bags and tree: the trait has no fields to hand on to.
    fn ask(&mut self, task: u32) -> Result<Word, Fault> {
        self.word_of(task)
    }

    fn innermost_task(&self) -> u32 {
        // In bags and tree alike, since the table knows no entry's tasks.
        self.store.at(self.scopes.innermost()).within
    }

    fn open_count(&self) -> u32 {
        self.scopes.open_count()
    }

    fn kind_of(&self, number: u32) -> Option<Kind> {
        // In bags and tree alike, since the table knows no entry's kind.
        // Not by `then_some`, which reads the entry of any number.
        if number < self.scopes.begun() {
            Some(self.store.entry(number).kind)
        } else {
            None
        }
    }

    fn begun(&self) -> u32 {
        self.scopes.begun()
    }

    fn left(&self) -> u32 {
        self.scopes.left()
    }
}
