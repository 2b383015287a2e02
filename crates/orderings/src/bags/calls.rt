//! The calls of the bags.
ghost use Rattle.std.specs.Prelude.{◌≡◌, ◌<◌, min, length};
ghost use Rattle.orderings.specs.Forest.{root as root_of, Shallow};
ghost use Rattle.orderings.specs.Meaning.{new as fresh, asked};
ghost use Rattle.orderings.specs.Store.{forest};
ghost use Rattle.orderings.specs.Table.{entries};
ghost use Rattle.orderings.specs.Bags.{meaning as meaning_of};

use crate::bags::Bags;
use crate::bags::entry::Entry;
use crate::scopes::Scopes;
use crate::table::Table;
use crate::words::{Fault, Kind, Word};

impl<'t> Bags<'t> {
    /// Main alone is begun. A table of n entries leaves the smaller of n and 65,535 numbers beyond main.
    pub fn new(table: &'t mut [Entry]) -> Bags<'t>
        ensures { meaning_of result ≡ fresh (min (length table.old) 65535) }
    {
        let scopes = Scopes::new(table.len());
        Bags {
            store: Table::new(Entry::EMPTY, table),
            scopes,
        }
    }
}

impl Bags<'_> {
    /// The word of a task, found by a search from its element up to the root. An element lies at most log2 n
    /// steps below its root among n scopes begun.
    pub fn word_of(&self, task: u32) -> Result<Word, Fault>
        ensures answer { result ≡ asked (meaning_of self.now).begun task }
        ensures steps { Shallow (forest (entries self.now.store)) self.now.scopes.begun }
    {
        if task >= self.scopes.begun() {
            return Err(Fault::NoSuchTask);
        }
        if task == 0 {
            return Ok(Word::Before);
        }
        // The search reads the table itself: by `entry`, a question took more than twice the instructions.
        let kind = self.store.lent[task as usize - 1].kind;
        match kind {
            Kind::Finish => Err(Fault::NoSuchTask),
            Kind::Task => {
                let root = self.root(task);
                if self.store.lent[root as usize - 1].bag % 2 == 0 {
                    Ok(Word::Before)
                } else {
                    Ok(Word::Unordered)
                }
            }
        }
    }

    // The root above the element x. Each turn goes up to a higher rank, and among 65,536 elements every rank is below sixteen.
    fn root(&self, x: u32) -> u32
        requires { (0 < x) × (x < self.now.scopes.begun) }
        ensures { result ≡ root_of (forest (entries self.now.store)) x }
    {
        let mut at = x;
        for _ in 0..16u32 {
            // Read from the table itself, as in `word_of`.
            let parent = self.store.lent[at as usize - 1].parent;
            if parent == at {
                return at;
            }
            at = parent;
        }
        unreachable()
    }
}
