//! A whole conversation with a check: a list of calls, and what is proved of every such list.
#![tactic(auto)]

ghost use Rattle.std.specs.Prelude.{◌≡◌, Err};
ghost use Rattle.trace_check.specs.Calls.{view};
ghost use Rattle.trace_check.specs.Puts.{store};
ghost use Rattle.conversation.specs.State.{Ran};
ghost use Rattle.orderings.specs.Exchanges.{calls_of};
ghost use Rattle.conversation.specs.Conversation.{setting, end_answer, Conversed};

use orderings::Ordering;
use rows::Row;
use rules::ClashRule;
use trace_check::{Check, Refusal};

mod theorem;
mod words;

pub use theorem::{facts_follow, worked_through};
pub use words::{Ending, Exchange, to_put};

/// Puts each call in turn, and writes the reply beside it.
fn run<O: Ordering, R: ClashRule>(
    check: &mut Check,
    ordering: &mut O,
    rule: &R,
    rows: &mut [Row],
    exchanges: &mut [Exchange],
)
    ensures kept { O.Ordering.sound ordering.old → O.Ordering.sound ordering.new }
    ensures calls { calls_of exchanges.new ≡ calls_of exchanges.old }
    ensures ran { O.Ordering.sound ordering.old → Ran
        (setting check.old.limit (O.Ordering.meaning ordering.old) rows.old (R.ClashRule.known rule.now) (R.ClashRule.clash rule.now))
        (store check.old (O.Ordering.meaning ordering.old) rows.old)
        exchanges.new
        (store check.new (O.Ordering.meaning ordering.new) rows.new) }
{
    // As the loop of orderings' `inquire`: one function for both would take a closure, and need its clauses.
    for exchange in exchanges.iter_mut() {
        exchange.reply = check.put(ordering, rule, rows, exchange.call);
    }
}

/// Takes the verdict, or gives up while a scope besides main is open.
fn end<O: Ordering>(check: Check, ordering: &O) -> Ending
    ensures { O.Ordering.sound ordering.now →
        result ≡ end_answer (view check) (O.Ordering.meaning ordering.now) }
{
    match check.verdict(ordering) {
        Ok(counts) => Ending::Verdict(counts),
        Err((_, check)) => Ending::GivenUp(check.give_up(ordering)),
    }
}

/// Starts a check, puts the calls one after the other, writes each reply beside its call, and ends the check. What is promised of the whole
/// list is the record `Conversation`: every reply is the one that the definitions give after the calls before it, an access was answered
/// clash exactly when an earlier one clashes with it and has no path to it, a plan without a clash reads alike in every allowed order, and
/// the two accesses of a clash shown can change places.
pub fn converse<O: Ordering, R: ClashRule>(
    ordering: &mut O,
    rule: &R,
    rows: &mut [Row],
    limit: u32,
    exchanges: &mut [Exchange],
) -> Result<Ending, Refusal>
    ensures kept { O.Ordering.sound ordering.old → O.Ordering.sound ordering.new }
    ensures conversed { O.Ordering.sound ordering.old →
        Conversed limit (R.ClashRule.known rule.now) (R.ClashRule.clash rule.now) (O.Ordering.meaning ordering.old) (O.Ordering.meaning ordering.new) rows.old rows.new exchanges.old exchanges.new result }
    ensures refused { (e : Refusal) → result ≡ Err e → (ordering.new ≡ ordering.old) × (rows.new ≡ rows.old) × (exchanges.new ≡ exchanges.old) }
{
    let mut check = Check::start(ordering, rows, limit)?;
    run(&mut check, ordering, rule, rows, exchanges);
    Ok(end(check, ordering))
}
