//! The forest of bags in a table.
ghost use Rattle.std.specs.Prelude.{◌≡◌, ◌/◌, ◌<◌, ◌≤◌, length, slice_set};
ghost use Rattle.orderings.specs.Forest.{winner};
ghost use Rattle.orderings.specs.Table.{entries};
ghost use Rattle.orderings.specs.Store.{entry_at, frames, contents, forest, with_head, joined, poured, poured_by, Linkable};
ghost use Rattle.orderings.specs.Scopes.{task_within};
ghost use Rattle.orderings.specs.Sound.{Closable};

use crate::bags::entry::Entry;
use crate::table::Table;
use crate::words::Kind;

// What a call leaves as it was, frames and length, relates two tables: no invariant of one can say it.
impl Table<'_, Entry> {
    /// The entry of a number that has one.
    // As `Tree::node`: one for both would be public, and no public function has a `requires`.
    pub(crate) fn at(&self, n: u32) -> Entry
        requires { n ≤ length self.now.lent.now }
        ensures { result ≡ entry_at (entries self.now) n }
    {
        // Read past `entry`, whose test for a number with no entry is not needed here.
        if n == 0 {
            self.main
        } else {
            self.lent[n as usize - 1]
        }
    }

    /// The innermost task at a new scope, which is of that kind and number and lies within the scope `outward`.
    // As `Scopes::within`, but a task's scope reads no entry.
    pub(crate) fn innermost_task(&self, kind: Kind, number: u32, outward: u32) -> u32
        requires { outward ≤ length self.now.lent.now }
        ensures { result ≡ task_within kind number (entry_at (entries self.now) outward).within }
    {
        match kind {
            Kind::Task => number,
            Kind::Finish => self.at(outward).within,
        }
    }

    /// Writes an entry of the lent table, past `set_entry` as in `at`.
    pub(crate) fn set_at(&mut self, n: u32, entry: Entry)
        requires { (0 < n) × (n ≤ length self.old.lent.now) }
        ensures { entries self.new ≡ slice_set (entries self.old) n entry }
    {
        self.lent[n as usize - 1] = entry;
    }

    /// Makes an element the root of a bag.
    // One field is written, where `set_entry` would write whole entries.
    fn set_head(&mut self, bag: u32, root: u32)
        requires { bag / 2 ≤ length self.old.lent.now }
        ensures { entries self.new ≡ slice_set (entries self.old) (bag / 2) (with_head bag root (entry_at (entries self.old) (bag / 2))) }
    {
        let scope = bag / 2;
        if scope == 0 {
            self.main.set_head(bag, root);
        } else {
            self.lent[scope as usize - 1].set_head(bag, root);
        }
    }

    /// Links two roots, the one of lower rank under the other, and gives the one that stays a root. 0 stands for none.
    pub(crate) fn link(&mut self, a: u32, b: u32) -> u32
        requires a_in_bounds { (a ≤ length self.old.lent.now) × (b ≤ length self.old.lent.now) }
        requires a_bound { 0 < a → (forest (entries self.old)).rank a < 255 }
        ensures answer { result ≡ winner (forest (entries self.old)) a b }
        ensures bags { contents (entries self.new) ≡ joined (contents (entries self.old)) a b }
        ensures scopes { frames (entries self.new) ≡ frames (entries self.old) }
        ensures size { length self.new.lent.now ≡ length self.old.lent.now }
    {
        if a == 0 {
            return b;
        }
        if b == 0 {
            return a;
        }
        // One field is written, where `set_entry` would write whole entries.
        let i = a as usize - 1;
        let j = b as usize - 1;
        let ours = self.lent[i].rank;
        let theirs = self.lent[j].rank;
        if ours < theirs {
            self.lent[i].parent = b;
            return b;
        }
        self.lent[j].parent = a;
        if ours == theirs {
            self.lent[i].rank = ours + 1;
        }
        a
    }

    /// Pours what lies under the root x into a bag.
    pub(crate) fn pour(&mut self, bag: u32, x: u32)
        requires in_bounds { (bag / 2 ≤ length self.old.lent.now) × ((0 < x) × (x ≤ length self.old.lent.now)) }
        requires linkable { Linkable (contents (entries self.old)) bag (length self.old.lent.now) }
        ensures bags { contents (entries self.new) ≡ poured (contents (entries self.old)) bag x }
        ensures scopes { frames (entries self.new) ≡ frames (entries self.old) }
        ensures size { length self.new.lent.now ≡ length self.old.lent.now }
    {
        let scope = bag / 2;
        let root = self.link(self.at(scope).head(bag), x);
        self.lent[root as usize - 1].bag = bag;
        self.set_head(bag, root);
    }

    /// Pours out the bags of the scope s, which closes.
    pub(crate) fn pour_out(&mut self, s: u32)
        requires { Closable (frames (entries self.old)) (contents (entries self.old)) (length self.old.lent.now) s }
        ensures bags { contents (entries self.new) ≡ poured_by ((frames (entries self.old)).kind s) (frames (entries self.old)) (contents (entries self.old)) s }
        ensures scopes { frames (entries self.new) ≡ frames (entries self.old) }
        ensures size { length self.new.lent.now ≡ length self.old.lent.now }
    {
        let scope = self.at(s);
        match scope.kind {
            Kind::Task => {
                let root = self.link(scope.serial, scope.parallel);
                let bag = 2 * scope.outward + 1;
                self.pour(bag, root);
            }
            Kind::Finish => {
                if scope.parallel != 0 {
                    let bag = 2 * self.at(scope.outward).within;
                    self.pour(bag, scope.parallel);
                }
            }
        }
    }
}
