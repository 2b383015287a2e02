//! The calls that the actions of a plan are.
ghost use Rattle.std.specs.Prelude.{◌≡◌, IfOk};
ghost use Rattle.orderings.specs.Exchanges.{calls_of};
ghost use Rattle.walk.specs.Calls.{call_of, calls_for, Checked};

use conversation::{Ending, Exchange, converse, to_put};
use orderings::{Bags, Entry, Kind, Question};
use rows::Row;
use rules::Rule;
use shorthand::Action;
use std::alloc::{AllocError, Global};
use trace_check::Call;

/// How many scope numbers there are beyond main.
pub(crate) const NUMBERS: usize = 1_024;
/// How many records there are.
pub(crate) const RECORDS: usize = 256;

const EVENT_LIMIT: u32 = 1_000_000;

// No `From`: neither of the types is of this crate.
fn call_of(action: Action) -> Call
    ensures { result ≡ call_of action }
{
    match action {
        Action::OpenTask => Call::Open(Kind::Task),
        Action::OpenFinish => Call::Open(Kind::Finish),
        Action::Close => Call::Close,
        Action::Access(class, record) => Call::Access(class, record),
        Action::Ask(task) => Call::Ask(Question::WordOf(task)),
    }
}

/// Ahead of each action, the question which task is innermost.
pub(crate) fn exchanges_of(heap: Global, actions: &[Action]) -> Result<Vec<Exchange>, AllocError>
    ensures { IfOk result (λ v. calls_of v.items ≡ calls_for actions.now) }
{
    let mut exchanges = Vec::new(heap);
    for action in actions {
        exchanges.push(to_put(Call::Ask(Question::InnermostTask)))?;
        exchanges.push(to_put(call_of(*action)))?;
    }
    Ok(exchanges)
}

/// Puts the calls to a check over bags.
pub(crate) fn check_plan(rule: &Rule, exchanges: &mut [Exchange]) -> Ending
    ensures { Checked rule.now (calls_of exchanges.old) exchanges.new result }
{
    let mut table = [Entry::EMPTY; NUMBERS];
    let mut rows = [Row::EMPTY; RECORDS];
    let mut bags = Bags::new(&mut table);
    converse(&mut bags, rule, &mut rows, EVENT_LIMIT, exchanges).unwrap()
}
