//! The calls of a check. What they promise of the ordering's meaning, they promise where the ordering is sound.
ghost use Rattle.std.specs.Prelude.{◌≡◌, ℕ, ◌<◌, length, Ok, Err};
ghost use Rattle.orderings.specs.Meaning.{opening, closing, after_open, after_close};
ghost use Rattle.trace_check.specs.Calls.{view, seen, start_answer, start_rows, limited, by_ordering, when_room, one_more, access_answer, one_access, access_rows, verdict_answer, counted};

use crate::state::Check;
use crate::words::{Counts, Refusal};
use orderings::{Kind, Ordering};
use rows::Row;
use rules::ClashRule;

// The ordering, the rule and the rows are the owner's. They are no struct: each call is handed those that it takes.
impl Check {
    /// Begins a check on an ordering that has begun nothing but main, and fills the rows with zeros.
    pub fn start<O: Ordering>(ordering: &O, rows: &mut [Row], limit: u32) -> Result<Check, Refusal>
        ensures answer { O.Ordering.sound ordering.now →
            seen result ≡ start_answer (length rows.old) limit (length (O.Ordering.meaning ordering.now).begun) }
        ensures rows { rows.new ≡ start_rows result rows.old }
    {
        if rows.len() < 1 || rows.len() > 65536 || limit < 1 || limit > 1000000 {
            return Err(Refusal::BadStart);
        }
        if ordering.begun() != 1 {
            return Err(Refusal::AlreadyBegun);
        }
        rows.fill(Row::EMPTY);
        Ok(Check {
            limit,
            events: 0,
            accesses: 0,
            clashes: 0,
        })
    }

    /// Opens a scope of a kind within the innermost open scope, and gives its number.
    pub fn open<O: Ordering>(&mut self, ordering: &mut O, kind: Kind) -> Result<u32, Refusal>
        ensures answer { O.Ordering.sound ordering.old →
            result ≡ limited (view self.old) (by_ordering (opening (O.Ordering.meaning ordering.old))) }
        ensures check { view self.new ≡ one_more (view self.old) result }
        ensures kept { O.Ordering.sound ordering.old → O.Ordering.sound ordering.new }
        ensures after { O.Ordering.sound ordering.old →
            O.Ordering.meaning ordering.new ≡
            when_room (view self.old) (O.Ordering.meaning ordering.old)
            (after_open kind (O.Ordering.meaning ordering.old)) }
        ensures refused { (e : Refusal) → result ≡ Err e → ordering.new ≡ ordering.old }
    {
        self.room()?;
        let number = ordering.open(kind)?;
        self.events += 1;
        Ok(number)
    }

    /// Closes the innermost open scope, and gives its number.
    // As `open`, but for what is asked of the ordering: one function for both would take a closure, and need its clauses.
    pub fn close<O: Ordering>(&mut self, ordering: &mut O) -> Result<u32, Refusal>
        ensures answer { O.Ordering.sound ordering.old →
            result ≡ limited (view self.old) (by_ordering (closing (O.Ordering.meaning ordering.old))) }
        ensures check { view self.new ≡ one_more (view self.old) result }
        ensures kept { O.Ordering.sound ordering.old → O.Ordering.sound ordering.new }
        ensures after { O.Ordering.sound ordering.old →
            O.Ordering.meaning ordering.new ≡
            when_room (view self.old) (O.Ordering.meaning ordering.old)
            (after_close (O.Ordering.meaning ordering.old)) }
        ensures refused { (e : Refusal) → result ≡ Err e → ordering.new ≡ ordering.old }
    {
        self.room()?;
        let number = ordering.close()?;
        self.events += 1;
        Ok(number)
    }

    /// Refused once there are as many events as the limit.
    fn room(&self) -> Result<(), Refusal>
        ensures { result ≡ limited (view self.now) (Ok tt) }
    {
        if self.events < self.limit {
            Ok(())
        } else {
            Err(Refusal::LimitReached)
        }
    }

    /// An access of a class to a record, by the innermost task. It finds no clash, or one by the event numbers of the two, the earlier first.
    pub fn access<O: Ordering, R: ClashRule>(
        &mut self,
        ordering: &mut O,
        rule: &R,
        rows: &mut [Row],
        class: u32,
        record: u32,
    ) -> Result<Option<(u32, u32)>, Refusal>
        ensures answer { O.Ordering.sound ordering.old →
            result ≡
            access_answer (R.ClashRule.known rule.now) (R.ClashRule.clash rule.now)
            (view self.old) (O.Ordering.meaning ordering.old) rows.old «class»
            «record» }
        ensures check { view self.new ≡ one_access (view self.old) result }
        ensures kept { O.Ordering.sound ordering.old → O.Ordering.sound ordering.new }
        ensures same { O.Ordering.sound ordering.old →
            O.Ordering.meaning ordering.new ≡ O.Ordering.meaning ordering.old }
        ensures rows { O.Ordering.sound ordering.old →
            rows.new ≡
            access_rows (view self.old) (O.Ordering.meaning ordering.old) rows.old «class»
            «record» result }
        ensures refused { (e : Refusal) → result ≡ Err e → (ordering.new ≡ ordering.old) × (rows.new ≡ rows.old) }
    {
        self.room()?;
        if record as usize >= rows.len() {
            return Err(Refusal::NoSuchRecord);
        }
        if !rule.knows(class) {
            return Err(Refusal::UnknownClass);
        }
        // Not by `get_mut`, which says nothing of the rows afterwards.
        let row = &mut rows[record as usize];
        let found = row.access(ordering, rule, self.events, class)?;
        self.events += 1;
        self.accesses += 1;
        if found.is_some() {
            self.clashes += 1;
        }
        Ok(found)
    }

    /// Takes the verdict. While a scope besides main is open the check is handed back.
    pub fn verdict<O: Ordering>(self, ordering: &O) -> Result<Counts, (Refusal, Check)>
        ensures { O.Ordering.sound ordering.now →
            result ≡ verdict_answer self (O.Ordering.meaning ordering.now) }
    {
        if ordering.open_count() != 1 {
            return Err((Refusal::ScopeOpen, self));
        }
        Ok(self.give_up(ordering))
    }

    /// Ends the check, whatever is open.
    pub fn give_up<O: Ordering>(self, ordering: &O) -> Counts
        ensures { O.Ordering.sound ordering.now →
            result ≡ counted (view self) (length (O.Ordering.meaning ordering.now).begun) }
    {
        let Check {
            limit: _,
            events: _,
            accesses,
            clashes,
        } = self;
        Counts {
            accesses,
            clashes,
            scopes: ordering.begun(),
        }
    }
}
