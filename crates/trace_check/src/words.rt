//! What is put to a check, and what it answers.
ghost use Rattle.std.specs.Prelude.{◌≡◌, Some};
ghost use Rattle.trace_check.specs.Numbers.{refusal_code, refusal_text};
ghost use Rattle.trace_check.specs.declared.words.Refusal.TheVariants.{Row as RowRefuses, Order};

use orderings::{Fault, Kind, Question, Told};
use refusals::{Code, Layer};
use rows::RowFault;
use std::error::Error;
use std::fmt;

/// What is put to a check.
// The requests to an ordering, and accesses; so `Reply`, of responses: a case that held them would wrap each twice.
#[derive(Clone, Copy, Debug, PartialEq, Eq)]
pub enum Call {
    Open(Kind),
    Close,
    /// An access of a class to a record.
    Access(u32, u32),
    /// A question to the ordering.
    Ask(Question),
}

/// Why a check refuses a call.
#[derive(Clone, Copy, Debug, PartialEq, Eq)]
pub enum Refusal {
    /// The record is not below the number of rows.
    NoSuchRecord,
    /// The rule does not know the class.
    UnknownClass,
    /// Start: no rows or too many, or a limit of 0 or too large.
    BadStart,
    /// As many events as the limit.
    LimitReached,
    /// The verdict with a scope besides main open.
    ScopeOpen,
    /// Start: the ordering has begun more than main.
    AlreadyBegun,
    /// The record's row refuses.
    Row(RowFault),
    /// The ordering refuses.
    Order(Fault),
}

impl Refusal {
    pub fn code(self) -> Code
        ensures { result ≡ refusal_code self }
    {
        let number = match self {
            Refusal::NoSuchRecord => 9,
            Refusal::UnknownClass => 10,
            Refusal::BadStart => 13,
            Refusal::LimitReached => 23,
            Refusal::ScopeOpen => 26,
            Refusal::AlreadyBegun => 27,
            Refusal::Row(fault) => return fault.code(),
            Refusal::Order(fault) => return fault.code(),
        };
        Code {
            number,
            layer: Layer::Check,
        }
    }
}

impl From<RowFault> for Refusal {
    ghost from_gives = { λ fault refusal. refusal ≡ RowRefuses fault };

    fn from(fault: RowFault) -> Refusal {
        Refusal::Row(fault)
    }
}

impl From<Fault> for Refusal {
    ghost from_gives = { λ fault refusal. refusal ≡ Order fault };

    fn from(fault: Fault) -> Refusal {
        Refusal::Order(fault)
    }
}

impl fmt::Display for Refusal {
    ghost output = { λ refusal. Some (refusal_text refusal) };

    fn fmt<W: fmt::Write>(&self, f: &mut fmt::Formatter<W>) -> fmt::Result {
        match self {
            Refusal::NoSuchRecord => f.write_str("there is no such record"),
            Refusal::UnknownClass => f.write_str("the rule does not know the class"),
            Refusal::BadStart => f.write_str("the check cannot start so"),
            Refusal::LimitReached => f.write_str("there are as many events as the limit"),
            Refusal::ScopeOpen => f.write_str("a scope besides main is open"),
            Refusal::AlreadyBegun => f.write_str("the ordering has begun more than main"),
            Refusal::Row(fault) => write!(f, "{fault}"),
            Refusal::Order(fault) => write!(f, "{fault}"),
        }
    }
}

impl Error for Refusal {}

/// What a call that is not refused is answered.
#[derive(Clone, Copy, Debug, PartialEq, Eq)]
pub enum Reply {
    /// The number of the scope opened.
    Opened(u32),
    /// The number of the scope closed.
    Closed(u32),
    /// What an access found: none, or a clash by the event numbers of the two, the earlier first.
    // A tuple: the pair is shown as it is, and no call takes it apart.
    Found(Option<(u32, u32)>),
    /// What the ordering told.
    Told(Told),
}

/// What a verdict tells: accesses, accesses that found a clash, and scopes begun, main counted.
#[derive(Clone, Copy, Debug, PartialEq, Eq)]
pub struct Counts {
    pub accesses: u32,
    pub clashes: u32,
    pub scopes: u32,
}
