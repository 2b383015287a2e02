//! What an ordering is, whatever it is made of.
ghost use Rattle.std.specs.Prelude.{◌≡◌, ℕ, length, Err};
ghost use Rattle.graph.specs.History.{innermost_task};
ghost use Rattle.orderings.specs.Meaning.{Meaning, WellFormed, opening, after_open, closing, after_close, asked, kind_at};

use crate::words::{Fault, Kind, Word};

/// An ordering is told of opens and closes, and says of each task whether it is before or unordered. What it means is the
/// ghost member `meaning`; what a call promises, it promises of a sound store, and each call keeps a sound store sound.
/// A refused call leaves the very store as it was.
// Each ordering says which of its stores are sound: so soundness is no invariant of a type, and stands in the clauses.
pub trait Ordering {
    /// Which stores are sound.
    ghost sound: { Self → Type 0 };

    ghost meaning: { Self → Meaning };

    /// Opens a scope of a kind within the innermost open scope, and gives its number.
    fn open(&mut self, kind: Kind) -> Result<u32, Fault>
        ensures kept { sound self.old → sound self.new }
        ensures answer { sound self.old → result ≡ opening (meaning self.old) }
        ensures after { sound self.old → meaning self.new ≡ after_open kind (meaning self.old) }
        ensures refused { (f : Fault) → result ≡ Err f → self.new ≡ self.old };

    /// Closes the innermost open scope, and gives its number.
    fn close(&mut self) -> Result<u32, Fault>
        ensures kept { sound self.old → sound self.new }
        ensures answer { sound self.old → result ≡ closing (meaning self.old) }
        ensures after { sound self.old → meaning self.new ≡ after_close (meaning self.old) }
        ensures refused { (f : Fault) → result ≡ Err f → self.new ≡ self.old };

    /// The word of a task. The store may change, and what it means does not.
    fn ask(&mut self, task: u32) -> Result<Word, Fault>
        ensures kept { sound self.old → sound self.new }
        ensures answer { sound self.old → result ≡ asked (meaning self.old).begun task }
        ensures after { sound self.old → meaning self.new ≡ meaning self.old }
        ensures refused { (f : Fault) → result ≡ Err f → self.new ≡ self.old };

    fn innermost_task(&self) -> u32
        ensures { sound self.now → result ≡ innermost_task (meaning self.now).opened };

    /// How many scopes are open, main counted.
    fn open_count(&self) -> u32
        ensures { sound self.now → result ≡ length (meaning self.now).opened };

    /// The kind of the scope of a number, none if no scope has it.
    fn kind_of(&self, number: u32) -> Option<Kind>
        ensures { sound self.now → result ≡ kind_at (meaning self.now).begun number };

    /// How many scopes were begun, main counted.
    fn begun(&self) -> u32
        ensures { sound self.now → result ≡ length (meaning self.now).begun };

    /// How many scope numbers are left.
    fn left(&self) -> u32
        ensures { sound self.now → result ≡ (meaning self.now).left };

    ghost formed: { (x : Self) → sound x → WellFormed (meaning x) };
}
