//! Clash rules: which classes of access a rule knows, and which two of them clash.
#![tactic(auto)]

ghost use Rattle.std.specs.Prelude.{◌≡◌, ℕ, Bool, Some, MatchResult, ◌≢◌};
ghost use Rattle.rules.specs.Alike.{Alike};
ghost use Rattle.rules.specs.Fields.{bit, writes_field, touches_field};
ghost use Rattle.rules.specs.Rules.{plain, depot, field};
ghost use Rattle.rules.specs.Classes.{plain_knows, depot_knows, field_knows};
ghost use Rattle.rules.specs.Numbers.{number_of, FoundBy};
ghost use Rattle.rules.specs.Names.{rule_name};
ghost use Rattle.rules.specs.Any.{known_under, clash_under};
ghost use Rattle.rules.specs.Words.{RulesInWords};
ghost use Rattle.rules.specs.Clashes.{plain_alike, depot_alike, field_alike, any_alike};

use std::fmt;

#[cfg(test)]
mod tests;

// Numbers and no enum: each rule has classes of its own, and answers for any number.
/// The class of an access that reads, under the plain and the depot rule.
pub const READ: u32 = 0;
/// The class of an access that writes, under the plain and the depot rule.
pub const WRITE: u32 = 1;
/// The class of an access that adds weight, under the depot rule.
pub const ADD: u32 = 2;

/// A clash rule: its number, the classes that it knows, and which two of them clash.
/// It answers alike both ways round.
pub trait ClashRule {
    // What a rule means. No call changes it.
    ghost number: { Self → ℕ };

    ghost known: { Self → ℕ → Bool };

    ghost clash: { Self → ℕ → ℕ → Bool };

    /// The number that a trace names the rule by.
    fn rule_number(&self) -> u32
        ensures { result ≡ number self.now };

    /// Whether the rule knows the class.
    fn knows(&self, class: u32) -> bool
        ensures { result ≡ known self.now «class» };

    /// Whether two accesses of these classes clash.
    fn clashes(&self, earlier: u32, later: u32) -> bool
        ensures { result ≡ clash self.now earlier later };

    ghost alike: { (x : Self) → Alike (known x) (clash x) };
}

/// Accesses read or write. Two clash unless both read.
#[derive(Clone, Copy, Debug, PartialEq, Eq)]
pub struct Plain {}

impl Plain {
    const NUMBER: u32 = 0;
}

impl ClashRule for Plain {
    ghost number = { λ _. 0 };

    ghost known = { λ _. plain_knows };

    ghost clash = { λ _. plain };

    ghost alike = { λ _ a b _ _. plain_alike a b };

    fn rule_number(&self) -> u32 {
        Plain::NUMBER
    }

    fn knows(&self, class: u32) -> bool {
        class <= WRITE
    }

    fn clashes(&self, earlier: u32, later: u32) -> bool {
        earlier != READ || later != READ
    }
}

/// Accesses read, write or add. Two clash unless both read or both add.
#[derive(Clone, Copy, Debug, PartialEq, Eq)]
pub struct Depot {}

impl Depot {
    const NUMBER: u32 = 1;
}

impl ClashRule for Depot {
    ghost number = { λ _. 1 };

    ghost known = { λ _. depot_knows };

    ghost clash = { λ _. depot };

    ghost alike = { λ _ a b _ _. depot_alike a b };

    fn rule_number(&self) -> u32 {
        Depot::NUMBER
    }

    fn knows(&self, class: u32) -> bool {
        class <= ADD
    }

    fn clashes(&self, earlier: u32, later: u32) -> bool {
        let both_read = earlier == READ && later == READ;
        let both_add = earlier == ADD && later == ADD;
        !(both_read || both_add)
    }
}

/// A class is a byte: bits 0 to 3 name the fields read, bits 4 to 7 the same fields written.
/// Two clash if one writes a field that the other reads or writes.
#[derive(Clone, Copy, Debug, PartialEq, Eq)]
pub struct Field {}

impl Field {
    const NUMBER: u32 = 2;
}

impl ClashRule for Field {
    ghost number = { λ _. 2 };

    ghost known = { λ _. field_knows };

    ghost clash = { λ _. field };

    ghost alike = { λ _ a b _ _. field_alike a b };

    fn rule_number(&self) -> u32 {
        Field::NUMBER
    }

    fn knows(&self, class: u32) -> bool {
        class >= 0x01 && class <= 0xFF
    }

    fn clashes(&self, earlier: u32, later: u32) -> bool {
        let met = (written(earlier) & touched(later)) | (written(later) & touched(earlier));
        met & 0xF != 0
    }
}

// The fields that a class writes, from bit 0 on.
fn written(class: u32) -> u32
    ensures { (f : ℕ) → bit result f ≡ writes_field «class» f }
{
    class >> 4
}

// The fields that a class reads or writes, from bit 0 on.
fn touched(class: u32) -> u32
    ensures { (f : ℕ) → bit result f ≡ touches_field «class» f }
{
    class | (class >> 4)
}

/// Any of the three rules.
#[derive(Clone, Copy, Debug, PartialEq, Eq)]
pub enum Rule {
    Plain(Plain),
    Depot(Depot),
    Field(Field),
}

/// No rule has the number.
#[derive(Clone, Copy, Debug, PartialEq, Eq)]
pub struct UnknownRule {}

/// The rule that has the number.
impl TryFrom<u32> for Rule {
    type Error = UnknownRule;

    ghost try_from_gives = { FoundBy };

    fn try_from(number: u32) -> Result<Self, UnknownRule> {
        match number {
            Plain::NUMBER => Ok(Rule::Plain(Plain {})),
            Depot::NUMBER => Ok(Rule::Depot(Depot {})),
            Field::NUMBER => Ok(Rule::Field(Field {})),
            _ => Err(UnknownRule {}),
        }
    }
}

/// The name of the rule.
impl fmt::Display for Rule {
    ghost output = { λ rule. Some (rule_name rule) };

    fn fmt<W: fmt::Write>(&self, f: &mut fmt::Formatter<W>) -> fmt::Result {
        f.write_str(match self {
            Rule::Plain(_) => "plain",
            Rule::Depot(_) => "depot",
            Rule::Field(_) => "field",
        })
    }
}

// By a `match` in each call: the gate refuses a function that hands out a `dyn`, as that of the rule held would be.
impl ClashRule for Rule {
    ghost number = { number_of };

    ghost known = { known_under };

    ghost clash = { clash_under };

    ghost alike = { any_alike };

    fn rule_number(&self) -> u32 {
        match self {
            Rule::Plain(rule) => rule.rule_number(),
            Rule::Depot(rule) => rule.rule_number(),
            Rule::Field(rule) => rule.rule_number(),
        }
    }

    fn knows(&self, class: u32) -> bool {
        match self {
            Rule::Plain(rule) => rule.knows(class),
            Rule::Depot(rule) => rule.knows(class),
            Rule::Field(rule) => rule.knows(class),
        }
    }

    fn clashes(&self, earlier: u32, later: u32) -> bool {
        match self {
            Rule::Plain(rule) => rule.clashes(earlier, later),
            Rule::Depot(rule) => rule.clashes(earlier, later),
            Rule::Field(rule) => rule.clashes(earlier, later),
        }
    }
}

/// A theorem, with nothing to run: the tests that define the rules say what the rules say in words.
pub fn rules_in_words() -> u8
    ensures { RulesInWords }
{
    0
}
