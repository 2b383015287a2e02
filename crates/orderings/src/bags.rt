//! The bags: an ordering on a table lent by the caller.
ghost use Rattle.std.specs.Prelude.{◌≡◌, min, length};
ghost use Rattle.orderings.specs.Store.{frames, contents};
ghost use Rattle.orderings.specs.Table.{entries};
ghost use Rattle.orderings.specs.Sound.{Sound};

use crate::scopes::Scopes;
use crate::table::Table;

mod calls;
mod entry;
mod ordering;
mod store;

pub use entry::Entry;

/// ESP-bags. Each open scope has two bags of tasks: those in its S bag are before the next access, those in its P bag unordered
/// with it. A bag is a tree of a forest, linked by rank.
#[derive(Drop)]
pub struct Bags<'t> {
    store: Table<'t, Entry>,
    scopes: Scopes,
    ghost numbers: { scopes.numbers ≡ min (length store.lent.now) 65535 },
    ghost sound: { ∥ Sound (frames (entries store)) (contents (entries store)) scopes.begun scopes.inner scopes.count ∥₁ },
}
