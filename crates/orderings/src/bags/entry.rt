//! The entries of the table that bags are kept in.
ghost use Rattle.std.specs.Prelude.{◌≡◌};

use crate::words::Kind;

/// One entry of the table lent to [`Bags`](crate::Bags): a scope, and the element of its own number in the forest of bags.
/// The bags of scope s have the numbers 2 s, its S bag, and 2 s + 1, its P bag.
// Entries name one another by number: the table is fixed memory that the caller lends, and nothing is allocated. 0 is none, and a bag is one
// number, since an `Option` or a pair would make each entry longer.
#[derive(Clone, Copy)]
pub struct Entry {
    pub(crate) kind: Kind,
    pub(crate) rank: u8,
    pub(crate) parent: u32,
    /// Of a root, the number of its bag.
    pub(crate) bag: u32,
    /// The scope next outward.
    pub(crate) outward: u32,
    /// The innermost task at the scope or outward of it.
    pub(crate) within: u32,
    /// The root of the S bag, 0 if it is empty.
    pub(crate) serial: u32,
    /// The root of the P bag, 0 if it is empty.
    pub(crate) parallel: u32,
}

impl Entry {
    ghost use Rattle.orderings.specs.Store.{head_of, with_head};

    /// An entry that holds no scope yet.
    pub const EMPTY: Entry = Entry {
        kind: Kind::Task,
        rank: 0,
        parent: 0,
        bag: 0,
        outward: 0,
        within: 0,
        serial: 0,
        parallel: 0,
    };

    /// The root of the bag of that number, one of the scope's two.
    pub(crate) fn head(&self, bag: u32) -> u32
        ensures { result ≡ head_of self.now bag }
    {
        if bag % 2 == 0 {
            self.serial
        } else {
            self.parallel
        }
    }

    pub(crate) fn set_head(&mut self, bag: u32, root: u32)
        ensures { self.new ≡ with_head bag root self.old }
    {
        if bag % 2 == 0 {
            self.serial = root;
        } else {
            self.parallel = root;
        }
    }
}
