//! What a row answers.
ghost use Rattle.std.specs.Prelude.{◌≡◌, Some};
ghost use Rattle.rows.specs.Numbers.{fault_code};
ghost use Rattle.rows.specs.Texts.{fault_text};

use refusals::{Code, Layer};
use std::error::Error;
use std::fmt;

/// The event number and the task of the access that leads a class.
#[derive(Clone, Copy, Debug, PartialEq, Eq)]
pub struct Leader {
    pub event: u32,
    pub task: u32,
}

/// Why a row refuses an access.
#[derive(Clone, Copy, Debug, PartialEq, Eq)]
pub enum RowFault {
    /// The row holds eight other classes.
    Full,
    /// The row holds what no check writes.
    Damaged,
}

impl RowFault {
    pub fn code(self) -> Code
        ensures { result ≡ fault_code self }
    {
        let number = match self {
            RowFault::Full => 24,
            RowFault::Damaged => 25,
        };
        Code {
            number,
            layer: Layer::Check,
        }
    }
}

impl fmt::Display for RowFault {
    ghost output = { λ fault. Some (fault_text fault) };

    fn fmt<W: fmt::Write>(&self, f: &mut fmt::Formatter<W>) -> fmt::Result {
        f.write_str(match self {
            RowFault::Full => "the record holds eight other classes",
            RowFault::Damaged => "the record's row is damaged",
        })
    }
}

impl Error for RowFault {}
