//! A table lent by the caller, with main's entry ahead of it.
ghost use Rattle.std.specs.Prelude.{◌≡◌, ◌∷◌, slice_index_or, slice_set};

/// Main's entry, which is number 0, and those of the caller's table, whose numbers go on from there.
// Its parts are public: an ordering that knows that a number has an entry goes past the tests of `entry` and `set_entry`.
#[derive(Drop)]
pub struct Table<'t, E> {
    pub main: E,
    pub lent: &'t mut [E],
}

impl<'t, E: Copy> Table<'t, E> {
    ghost use Rattle.orderings.specs.Table.{entries};

    pub fn new(main: E, lent: &'t mut [E]) -> Table<'t, E>
        ensures { entries result ≡ main ∷ lent.old }
    {
        Table { main, lent }
    }

    /// The entry of a number, main's where the table has none.
    pub fn entry(&self, n: u32) -> E
        ensures { result ≡ slice_index_or (entries self.now) n self.now.main }
    {
        if n == 0 || n as usize > self.lent.len() {
            self.main
        } else {
            self.lent[n as usize - 1]
        }
    }

    /// Writes the entry of a number, and nothing where the table has none.
    pub fn set_entry(&mut self, n: u32, entry: E)
        ensures { entries self.new ≡ slice_set (entries self.old) n entry }
    {
        if n == 0 {
            self.main = entry;
        } else if n as usize <= self.lent.len() {
            self.lent[n as usize - 1] = entry;
        }
    }
}
