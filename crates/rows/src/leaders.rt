//! One row: is it whole, whom does it hold, and what does an access find there.
ghost use Rattle.std.specs.Prelude.{◌≡◌, ◌<◌, ◌≤◌, ◌==◌, Err, MatchOption};
ghost use Rattle.std.specs.List.{find, list_any};
ghost use Rattle.std.specs.Option.{option_map};
ghost use Rattle.orderings.specs.Meaning.{kind_at};
ghost use Rattle.rows.specs.Slots.{index_of, led_by, first_clash, settled};
ghost use Rattle.rows.specs.Rows.{filled, refilled, row_leader, is_unordered_in, says_task, slot_whole, slots_whole, row_answer, row_after};

use crate::row::{Row, Slot};
use crate::words::{Leader, RowFault};
use orderings::{Kind, Ordering, Word};
use rules::ClashRule;

/// How many classes a row holds.
const SLOTS: usize = 8;

fn is_task<O: Ordering>(ordering: &O, number: u32) -> bool
    ensures { O.Ordering.sound ordering.now →
        result ≡ says_task (kind_at (O.Ordering.meaning ordering.now).begun number) }
{
    matches!(ordering.kind_of(number), Some(Kind::Task))
}

fn is_unordered<O: Ordering>(ordering: &mut O, task: u32) -> bool
    ensures answer { O.Ordering.sound ordering.old →
        result ≡ is_unordered_in (O.Ordering.meaning ordering.old).begun task }
    ensures kept { O.Ordering.sound ordering.old → O.Ordering.sound ordering.new }
    ensures same { O.Ordering.sound ordering.old →
        O.Ordering.meaning ordering.new ≡ O.Ordering.meaning ordering.old }
{
    matches!(ordering.ask(task), Ok(Word::Unordered))
}

fn leader_of(slots: &[Slot], class: u32) -> Option<Leader>
    ensures { result ≡ option_map led_by (find (λ slot. slot.class == «class») slots.now) }
{
    let slot = slots.iter().find(|slot| slot.class == class)?;
    Some(Leader {
        event: slot.event,
        task: slot.task,
    })
}

fn is_held(slots: &[Slot], class: u32) -> bool
    ensures { result ≡ list_any (λ slot. slot.class == «class») slots.now }
{
    slots.iter().any(|slot| slot.class == class)
}

/// The place of the slot that holds the class, or else of the next free one.
fn place_of(slots: &[Slot], class: u32) -> usize
    ensures { result ≡ index_of «class» slots.now }
{
    slots
        .iter()
        .position(|slot| slot.class == class)
        .unwrap_or(slots.len())
}

/// Whether a filled slot, before the others, is whole.
#[tactic(auto, using(crate::proofs::Filled::held_as))]
fn slot_is_whole<O: Ordering, R: ClashRule>(
    slot: Slot,
    others: &[Slot],
    ordering: &O,
    rule: &R,
    events: u32,
) -> bool
    ensures { O.Ordering.sound ordering.now →
        result ≡
        slot_whole (R.ClashRule.known rule.now) (O.Ordering.meaning ordering.now).begun events slot others.now }
{
    rule.knows(slot.class)
        && !is_held(others, slot.class)
        && is_task(ordering, slot.task)
        && slot.event < events
}

/// Whether every filled slot is whole.
fn is_whole<O: Ordering, R: ClashRule>(slots: &[Slot], ordering: &O, rule: &R, events: u32) -> bool
    ensures { O.Ordering.sound ordering.now →
        result ≡
        slots_whole (R.ClashRule.known rule.now) (O.Ordering.meaning ordering.now).begun events slots.now }
{
    let mut rest = slots;
    while let Some((slot, others)) = rest.split_first() {
        if !slot_is_whole(*slot, others, ordering, rule, events) {
            return false;
        }
        rest = others;
    }
    true
}

/// What an access of a class finds among the leaders.
fn look<O: Ordering, R: ClashRule>(
    slots: &[Slot],
    ordering: &mut O,
    rule: &R,
    class: u32,
    event: u32,
) -> Option<(u32, u32)>
    ensures answer { O.Ordering.sound ordering.old →
        result ≡
        first_clash (R.ClashRule.clash rule.now)
        (is_unordered_in (O.Ordering.meaning ordering.old).begun) «class» event slots.now }
    ensures kept { O.Ordering.sound ordering.old → O.Ordering.sound ordering.new }
    ensures same { O.Ordering.sound ordering.old →
        O.Ordering.meaning ordering.new ≡ O.Ordering.meaning ordering.old }
{
    for slot in slots {
        if rule.clashes(slot.class, class) && is_unordered(ordering, slot.task) {
            return Some((slot.event, event));
        }
    }
    None
}

impl Row {
    /// The filled slots, none if the count is above 8.
    fn filled(&self) -> Option<&[Slot]>
        ensures { MatchOption result (8 < self.now.count)
            (λ slots. (self.now.count ≤ 8) × (slots.now ≡ filled self.now)) }
    {
        self.slots.get(..self.count)
    }

    /// The leader of a class, none before the first access of the class. A row with a count above 8 has none.
    #[tactic(auto, using(crate::proofs::Filled::leader_as))]
    pub fn leader(&self, class: u32) -> Option<Leader>
        ensures { result ≡ row_leader self.now «class» }
    {
        leader_of(self.filled()?, class)
    }

    /// Settles the leader of an access's class, which is held at `place` or would be.
    #[tactic(auto, using(crate::proofs::Settling::cases))]
    fn settle<O: Ordering>(&mut self, ordering: &mut O, place: usize, access: Slot)
        requires count { self.old.count ≤ 8 }
        requires place { place ≡ index_of access.class (filled self.old) }
        requires room { place < 8 }
        ensures after { O.Ordering.sound ordering.old →
            self.new ≡
            refilled self.old
            (settled (is_unordered_in (O.Ordering.meaning ordering.old).begun) access (filled self.old)) }
        ensures kept { O.Ordering.sound ordering.old → O.Ordering.sound ordering.new }
        ensures same { O.Ordering.sound ordering.old →
            O.Ordering.meaning ordering.new ≡ O.Ordering.meaning ordering.old }
    {
        if place >= self.count {
            self.slots[place] = access;
            self.count = place + 1;
        } else {
            let leader = self.slots[place];
            if !is_unordered(ordering, leader.task) {
                self.slots[place] = access;
            }
        }
    }

    /// Puts an access of a class by the innermost task, as the event of number `event`, to the row's record. None is clear; a clash with an
    /// earlier access is the event numbers of the two, the earlier first.
    #[tactic(auto, using(crate::proofs::Filled::answered))]
    pub fn access<O: Ordering, R: ClashRule>(
        &mut self,
        ordering: &mut O,
        rule: &R,
        event: u32,
        class: u32,
    ) -> Result<Option<(u32, u32)>, RowFault>
        ensures answer { O.Ordering.sound ordering.old →
            result ≡
            row_answer (R.ClashRule.known rule.now) (R.ClashRule.clash rule.now)
            (O.Ordering.meaning ordering.old) event «class» self.old }
        ensures after { O.Ordering.sound ordering.old →
            self.new ≡ row_after (O.Ordering.meaning ordering.old) event «class» self.old result }
        ensures kept { O.Ordering.sound ordering.old → O.Ordering.sound ordering.new }
        ensures same { O.Ordering.sound ordering.old →
            O.Ordering.meaning ordering.new ≡ O.Ordering.meaning ordering.old }
        ensures refused { (f : RowFault) → result ≡ Err f → (self.new ≡ self.old) × (ordering.new ≡ ordering.old) }
    {
        let slots = self.filled().ok_or(RowFault::Damaged)?;
        if !is_whole(slots, ordering, rule, event) {
            return Err(RowFault::Damaged);
        }
        let place = place_of(slots, class);
        if place >= SLOTS {
            return Err(RowFault::Full);
        }
        let clash = look(slots, ordering, rule, class, event);
        let task = ordering.innermost_task();
        self.settle(ordering, place, Slot { class, event, task });
        Ok(clash)
    }
}
