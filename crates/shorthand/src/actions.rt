//! Actions in a text.
ghost use Rattle.std.specs.Prelude.{◌≡◌, ◌<◌, length};
ghost use Rattle.shorthand.specs.declared.words.Action.TheVariants.{Access};
ghost use Rattle.shorthand.specs.Numbers.{number_at};
ghost use Rattle.shorthand.specs.Actions.{hex, acting, is_class, class_at, action_at};
ghost use Rattle.shorthand.specs.Reader.{left, first, rest, placed, Behind};

use crate::reader::Reader;
use crate::words::{Action, Misread, Reason};
use frames::digit;
use rules::{ADD, READ, WRITE};

/// The value of a hexadecimal digit.
fn hex_value(c: u8) -> Option<u32>
    ensures { result ≡ hex c }
{
    digit(c).map(u32::from)
}

impl Reader<'_> {
    /// Whether the rest of a class comes next, behind its first digit.
    fn is_class(&self) -> bool
        ensures { result ≡ is_class (left self.now) }
    {
        let mut rest = *self;
        rest.next_as(hex_value).is_some() && rest.skip(b"@")
    }

    /// Reads the number of a record that an access of a class is to.
    fn access(&mut self, class: u32) -> Result<Action, Misread>
        ensures answer { placed result self.new.at ≡ acting (Access «class») (number_at self.old.at (left self.old)) }
        ensures behind { Behind self.old self.new result }
    {
        self.number().map(|record| Action::Access(class, record))
    }

    /// Reads an access by its class, which begins with the character `first`.
    fn class_access(&mut self, first: u8) -> Result<Action, Misread>
        requires { self.old.at < length self.old.text.now }
        ensures answer { placed result self.new.at ≡ class_at self.old.at «first» (rest self.old) }
        ensures behind { Behind self.old self.new result }
    {
        let Some(high) = hex_value(first) else {
            return Err(self.misread(Reason::NoAction));
        };
        self.at += 1;
        let Some(low) = self.next_as(hex_value) else {
            return Err(self.misread(Reason::NoDigit));
        };
        if !self.skip(b"@") {
            return Err(self.misread(Reason::NoAt));
        }
        self.access(16 * high + low)
    }

    /// Reads an action.
    pub(crate) fn action(&mut self) -> Result<Action, Misread>
        requires { self.old.at < length self.old.text.now }
        ensures answer { placed result self.new.at ≡ action_at self.old.at (first self.old) (rest self.old) }
        ensures behind { Behind self.old self.new result }
    {
        let start = *self;
        let first = self.text[self.at];
        self.at += 1;
        match first {
            b'T' => Ok(Action::OpenTask),
            b'F' if !self.is_class() => Ok(Action::OpenFinish),
            b')' => Ok(Action::Close),
            b'r' => self.access(READ),
            b'w' => self.access(WRITE),
            b'a' => self.access(ADD),
            b'?' => self.number().map(Action::Ask),
            _ => {
                *self = start;
                self.class_access(first)
            }
        }
    }
}
