//! What is said in a conversation.
ghost use Rattle.std.specs.Prelude.{◌≡◌};
ghost use Rattle.conversation.specs.Exchanges.{unanswered};

use orderings::{Exchange as ExchangeOf, Told};
use trace_check::{Call, Counts, Refusal, Reply};

/// A call, and what it is answered.
pub type Exchange = ExchangeOf<Call, Result<Reply, Refusal>>;

/// A call to be put, with a place for the answer.
pub fn to_put(call: Call) -> Exchange
    ensures { result ≡ unanswered call }
{
    Exchange {
        call,
        reply: Ok(Reply::Told(Told::Number(0))),
    }
}

/// How a conversation ends: with the verdict, or given up while a scope besides main is open.
// No `Result`: to be given up is no failure, and the counts are the same.
#[derive(Clone, Copy, Debug, PartialEq, Eq)]
pub enum Ending {
    Verdict(Counts),
    GivenUp(Counts),
}
