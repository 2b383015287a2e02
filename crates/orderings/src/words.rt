//! What an ordering is asked and answers.
ghost use Rattle.std.specs.Prelude.{◌≡◌, Some};
ghost use Rattle.orderings.specs.Numbers.{fault_code, fault_text};

use refusals::{Code, Layer};
use std::error::Error;
use std::fmt;

/// A scope is a task or a finish.
#[derive(Clone, Copy, Debug, PartialEq, Eq)]
pub enum Kind {
    Task,
    Finish,
}

/// Whether a task comes before an access put next, or is unordered with it.
#[derive(Clone, Copy, Debug, PartialEq, Eq)]
pub enum Word {
    Before,
    Unordered,
}

/// Why an ordering refuses a call.
#[derive(Clone, Copy, Debug, PartialEq, Eq)]
pub enum Fault {
    /// The number asked about is not that of a task begun.
    NoSuchTask,
    /// An open with no scope number left.
    NoNumberLeft,
    /// A close with main alone open.
    MainAlone,
}

impl Fault {
    pub fn code(self) -> Code
        ensures { result ≡ fault_code self }
    {
        let number = match self {
            Fault::NoSuchTask => 12,
            Fault::NoNumberLeft => 21,
            Fault::MainAlone => 22,
        };
        Code {
            number,
            layer: Layer::Ordering,
        }
    }
}

impl fmt::Display for Fault {
    ghost output = { λ fault. Some (fault_text fault) };

    fn fmt<W: fmt::Write>(&self, f: &mut fmt::Formatter<W>) -> fmt::Result {
        f.write_str(match self {
            Fault::NoSuchTask => "no task has that number",
            Fault::NoNumberLeft => "no scope number is left",
            Fault::MainAlone => "main alone is open",
        })
    }
}

impl Error for Fault {}
