//! One call of any kind, put to a check.
ghost use Rattle.std.specs.Prelude.{◌≡◌, Err};
ghost use Rattle.trace_check.specs.Calls.{view};
ghost use Rattle.trace_check.specs.Puts.{store, reply_of, left_by};

use crate::state::Check;
use crate::words::{Call, Refusal, Reply};
use orderings::{Ordering, tell};
use rows::Row;
use rules::ClashRule;

impl Check {
    /// Puts one call, and gives the reply. Questions go to the ordering.
    pub fn put<O: Ordering, R: ClashRule>(
        &mut self,
        ordering: &mut O,
        rule: &R,
        rows: &mut [Row],
        call: Call,
    ) -> Result<Reply, Refusal>
        ensures reply { O.Ordering.sound ordering.old →
            result ≡
            reply_of (R.ClashRule.known rule.now) (R.ClashRule.clash rule.now)
            (store self.old (O.Ordering.meaning ordering.old) rows.old) call }
        ensures kept { O.Ordering.sound ordering.old → O.Ordering.sound ordering.new }
        ensures check { O.Ordering.sound ordering.old →
            view self.new ≡
            (left_by (R.ClashRule.known rule.now) (R.ClashRule.clash rule.now)
            (store self.old (O.Ordering.meaning ordering.old) rows.old) call
            ).check }
        ensures meaning { O.Ordering.sound ordering.old →
            O.Ordering.meaning ordering.new ≡
            (left_by (R.ClashRule.known rule.now) (R.ClashRule.clash rule.now)
            (store self.old (O.Ordering.meaning ordering.old) rows.old) call
            ).meaning }
        ensures rows { O.Ordering.sound ordering.old →
            rows.new ≡
            (left_by (R.ClashRule.known rule.now) (R.ClashRule.clash rule.now)
            (store self.old (O.Ordering.meaning ordering.old) rows.old) call).rows }
        ensures refused { (e : Refusal) → result ≡ Err e →
            (view self.new ≡ view self.old) × (ordering.new ≡ ordering.old) × (rows.new ≡ rows.old) }
    {
        match call {
            Call::Open(kind) => self.open(ordering, kind).map(Reply::Opened),
            Call::Close => self.close(ordering).map(Reply::Closed),
            Call::Access(class, record) => self
                .access(ordering, rule, rows, class, record)
                .map(Reply::Found),
            Call::Ask(question) => Ok(Reply::Told(tell(ordering, question)?)),
        }
    }
}
