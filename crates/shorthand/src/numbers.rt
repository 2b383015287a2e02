//! Numbers in a text.
ghost use Rattle.std.specs.Prelude.{◌≡◌, ◌-◌, if◌then◌else◌};
ghost use Rattle.std.specs.Char.{is_ascii_digit};
ghost use Rattle.shorthand.specs.Numbers.{number_at};
ghost use Rattle.shorthand.specs.Reader.{left, placed, Behind};

use crate::reader::Reader;
use crate::words::{Misread, Reason};

/// The value of a decimal digit.
fn decimal_value(c: u8) -> Option<u32>
    ensures { result ≡ (if is_ascii_digit c then Some (c - 48) else None) }
{
    (c as char).to_digit(10)
}

impl Reader<'_> {
    /// Reads a number.
    #[tactic(auto, using(crate::proofs::Digits::steps))]
    pub(crate) fn number(&mut self) -> Result<u32, Misread>
        ensures answer { placed result self.new.at ≡ number_at self.old.at (left self.old) }
        ensures behind { Behind self.old self.new result }
    {
        let start = *self;
        let mut number = 0;
        while let Some(digit) = self.next_as(decimal_value) {
            // One test, where `checked_mul` and `checked_add` make two.
            if number > (u32::MAX - digit) / 10 {
                return Err(start.misread(Reason::TooLarge));
            }
            number = 10 * number + digit;
        }
        if self.at == start.at {
            return Err(start.misread(Reason::NoNumber));
        }
        Ok(number)
    }
}
