//! A text that is read from the front on.
ghost use Rattle.std.specs.Prelude.{◌≡◌, ◌+◌, ◌<◌, ◌≤◌, IsSome, is_some, if◌then◌else◌, nat_eq, length};
ghost use Rattle.std.specs.List.{starts_with};

use crate::words::{Misread, Reason};

/// A text, and the place up to which it has been read.
// A place and not the rest alone, since a fault is told by its place.
#[derive(Clone, Copy)]
pub(crate) struct Reader<'t> {
    pub(crate) text: &'t [u8],
    pub(crate) at: usize,
    ghost within: { at ≤ length text.now },
}

impl<'t> Reader<'t> {
    ghost use Rattle.shorthand.specs.Words.{wrong};
    ghost use Rattle.shorthand.specs.Reader.{left, first, StandsAt};

    pub(crate) fn new(text: &'t [u8]) -> Self
        ensures text { result.text.now ≡ text.now }
        ensures front { result.at ≡ 0 }
    {
        Reader { text, at: 0 }
    }

    /// The text that is left.
    pub(crate) fn left(&self) -> &'t [u8]
        ensures { result.now ≡ left self.now }
    {
        &self.text[self.at..]
    }

    /// What is wrong at the place.
    pub(crate) fn misread(&self, reason: Reason) -> Misread
        ensures { result ≡ wrong self.now.at reason }
    {
        Misread {
            position: self.at + 1,
            reason,
        }
    }

    /// The value of the next character, which is read if it has one.
    pub(crate) fn next_as<T, F: FnOnce(u8) -> Option<T>>(&mut self, value: F) -> Option<T>
        requires { F.IsAlwaysCallable value }
        ensures value { self.old.at < length self.old.text.now → F.post value (first self.old) result }
        ensures within { IsSome result → self.old.at < length self.old.text.now }
        ensures moved { StandsAt self.old self.new (self.old.at + (if is_some result then 1 else 0)) }
    {
        let value = value(*self.text.get(self.at)?)?;
        self.at += 1;
        Some(value)
    }

    /// Whether a word comes next, which then is read.
    pub(crate) fn skip(&mut self, word: &[u8]) -> bool
        ensures same { result ≡ starts_with nat_eq (left self.old) word.now }
        ensures moved { StandsAt self.old self.new (self.old.at + (if result then length word.now else 0)) }
    {
        if !self.left().starts_with(word) {
            return false;
        }
        self.at += word.len();
        true
    }
}
