//! The scopes by number: how many were begun and are open, and which is innermost.
ghost use Rattle.std.specs.Prelude.{◌≡◌, ℕ, ◌+◌, ◌-◌, ◌<◌, ◌≤◌, min, MatchResult};
ghost use Rattle.orderings.specs.declared.words.Fault.TheVariants.{NoNumberLeft, MainAlone};

use crate::words::{Fault, Kind};

/// Of the scopes in a table: how many were begun and are open, and which is innermost.
#[derive(Clone, Copy)]
pub struct Scopes {
    /// How many numbers the table gives beyond main's, which is 0.
    numbers: u32,
    /// How many scopes were begun, main counted.
    begun: u32,
    /// The innermost open scope.
    inner: u32,
    /// How many scopes are open, main counted.
    count: u32,
    ghost some: { 0 < count },
    ghost fewer: { count ≤ begun },
    ghost room: { begun ≤ numbers + 1 },
    ghost few: { numbers ≤ 65535 },
    ghost innermost: { inner < begun },
}

impl Scopes {
    ghost use Rattle.orderings.specs.Scopes.{Opened, ClosedTo, task_within};

    /// Main alone. A table of n entries gives the smaller of n and 65,535 numbers.
    pub fn new(entries: usize) -> Scopes
        ensures numbers { result.numbers ≡ min entries 65535 }
        ensures begun { result.begun ≡ 1 }
        ensures inner { result.inner ≡ 0 }
        ensures count { result.count ≡ 1 }
    {
        Scopes {
            numbers: entries.min(65535) as u32,
            begun: 1,
            inner: 0,
            count: 1,
        }
    }

    /// These and a new scope within the innermost, under the next number.
    pub fn opened(self) -> Result<Scopes, Fault>
        ensures { MatchResult result (Opened self) (λ fault. (self.numbers < self.begun) × (fault ≡ NoNumberLeft)) }
    {
        if self.begun > self.numbers {
            return Err(Fault::NoNumberLeft);
        }
        Ok(Scopes {
            numbers: self.numbers,
            begun: self.begun + 1,
            inner: self.begun,
            count: self.count + 1,
        })
    }

    /// These without the innermost open scope, which lies within the scope `outward`, an earlier one.
    pub fn closed(self, outward: u32) -> Result<Scopes, Fault>
        ensures { MatchResult result (ClosedTo outward self) (λ fault. (self.count ≤ 1) × (fault ≡ MainAlone)) }
    {
        if self.count <= 1 {
            return Err(Fault::MainAlone);
        }
        Ok(Scopes {
            numbers: self.numbers,
            begun: self.begun,
            // Any number is safe: a later scope lies outward of none.
            inner: outward.min(self.inner),
            count: self.count - 1,
        })
    }

    /// The innermost open scope.
    pub fn innermost(&self) -> u32
        ensures { result ≡ self.now.inner }
    {
        self.inner
    }

    /// The innermost task at the innermost scope, which is of that kind and lies within the task `around`.
    pub fn within(&self, kind: Kind, around: u32) -> u32
        ensures { result ≡ task_within kind self.now.inner around }
    {
        match kind {
            Kind::Task => self.inner,
            Kind::Finish => around,
        }
    }

    /// How many scopes are open, main counted.
    pub fn open_count(&self) -> u32
        ensures { result ≡ self.now.count }
    {
        self.count
    }

    /// How many scopes were begun, main counted.
    pub fn begun(&self) -> u32
        ensures { result ≡ self.now.begun }
    {
        self.begun
    }

    /// How many numbers are left.
    pub fn left(&self) -> u32
        ensures { result ≡ self.now.numbers + 1 - self.now.begun }
    {
        self.numbers + 1 - self.begun
    }
}
