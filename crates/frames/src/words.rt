//! What a line says, and why one is refused.
ghost use Rattle.std.specs.Prelude.{◌≡◌, Some};
ghost use Rattle.frames.specs.Codes.{fault_code, fault_text, short_code, short_text};

use refusals::{Code, Layer};
use std::error::Error;
use std::fmt;

/// What a line says.
#[derive(Clone, Copy, Debug, PartialEq, Eq)]
pub enum Frame {
    Header { rule: u8, records: u16 },
    // Two kinds of lines, and no kind of scope: lines know no orderings.
    OpenTask,
    OpenFinish,
    Close,
    Access { class: u8, record: u16 },
    /// The end of a trace, with the number of events before it.
    End { events: u32 },
}

/// Why a line is refused.
#[derive(Clone, Copy, Debug, PartialEq, Eq)]
pub enum LineFault {
    /// Another character, no digits, an odd number of digits, or no byte 10 before the bytes end.
    NoLine,
    /// The first two digits are no kind.
    UnknownKind,
    /// Another number of digits than the kind has.
    WrongLength,
}

impl LineFault {
    pub fn code(self) -> Code
        ensures { result ≡ fault_code self }
    {
        let (number, layer) = match self {
            LineFault::NoLine => (1, Layer::Line),
            LineFault::UnknownKind => (2, Layer::Frame),
            LineFault::WrongLength => (3, Layer::Frame),
        };
        Code { number, layer }
    }
}

impl fmt::Display for LineFault {
    ghost output = { λ fault. Some (fault_text fault) };

    fn fmt<W: fmt::Write>(&self, f: &mut fmt::Formatter<W>) -> fmt::Result {
        f.write_str(match self {
            LineFault::NoLine => "no line of digits",
            LineFault::UnknownKind => "no kind of frame",
            LineFault::WrongLength => "another number of digits than the kind has",
        })
    }
}

impl Error for LineFault {}

/// The buffer for a line is too short.
#[derive(Clone, Copy, Debug, PartialEq, Eq)]
pub struct ShortBuffer;

impl ShortBuffer {
    pub fn code(self) -> Code
        ensures { result ≡ short_code }
    {
        Code {
            number: 11,
            layer: Layer::Frame,
        }
    }
}

impl fmt::Display for ShortBuffer {
    ghost output = { λ _. Some short_text };

    fn fmt<W: fmt::Write>(&self, f: &mut fmt::Formatter<W>) -> fmt::Result {
        f.write_str("a buffer too short for a line")
    }
}

impl Error for ShortBuffer {}
