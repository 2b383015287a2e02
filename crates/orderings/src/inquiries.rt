//! A list of opens, closes and questions put to an ordering, and what is proved of every such list.
ghost use Rattle.std.specs.Prelude.{◌≡◌, Err};
ghost use Rattle.orderings.specs.Exchanges.{calls_of};
ghost use Rattle.orderings.specs.Inquiries.{response_to, after_request, Inquired};

use crate::exchange::Exchange;
use crate::ordering::Ordering;
use crate::questions::{Question, Told, tell};
use crate::words::{Fault, Kind};

/// What is put to an ordering.
#[derive(Clone, Copy, Debug, PartialEq, Eq)]
pub enum Request {
    Open(Kind),
    Close,
    Ask(Question),
}

/// What a request that is not refused is answered.
#[derive(Clone, Copy, Debug, PartialEq, Eq)]
pub enum Response {
    /// The number of the scope opened.
    Opened(u32),
    /// The number of the scope closed.
    Closed(u32),
    Told(Told),
}

/// A request, and the response to it.
pub type Inquiry = Exchange<Request, Result<Response, Fault>>;

/// Puts one request to an ordering.
pub fn put<O: Ordering>(ordering: &mut O, request: Request) -> Result<Response, Fault>
    ensures response { O.Ordering.sound ordering.old → result ≡ response_to (O.Ordering.meaning ordering.old) request }
    ensures kept { O.Ordering.sound ordering.old → O.Ordering.sound ordering.new }
    ensures after { O.Ordering.sound ordering.old →
        O.Ordering.meaning ordering.new ≡ after_request (O.Ordering.meaning ordering.old) request }
    ensures refused { (f : Fault) → result ≡ Err f → ordering.new ≡ ordering.old }
{
    match request {
        Request::Open(kind) => ordering.open(kind).map(Response::Opened),
        Request::Close => ordering.close().map(Response::Closed),
        Request::Ask(question) => tell(ordering, question).map(Response::Told),
    }
}

/// Puts each request in turn, and writes the response beside it. Over every ordering each response is the one that the meaning gives after the
/// requests before it; and where the ordering was new, a task was called unordered exactly when it was closed and the graph of the accepted
/// events has no path from its close to an access put next.
pub fn inquire<O: Ordering>(ordering: &mut O, inquiries: &mut [Inquiry])
    ensures kept { O.Ordering.sound ordering.old → O.Ordering.sound ordering.new }
    ensures requests { calls_of inquiries.new ≡ calls_of inquiries.old }
    ensures inquired { O.Ordering.sound ordering.old →
        Inquired (O.Ordering.meaning ordering.old) inquiries.new (O.Ordering.meaning ordering.new) }
{
    // A conversation has this loop too, over calls: one function for both would take a closure, and need its clauses.
    for inquiry in inquiries.iter_mut() {
        inquiry.reply = put(ordering, inquiry.call);
    }
}
