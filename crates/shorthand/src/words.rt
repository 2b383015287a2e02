//! What a plan in shorthand says, and why a text says none.
ghost use Rattle.std.specs.Prelude.{◌≡◌, Some};
ghost use Rattle.shorthand.specs.declared.words.Fault.TheVariants.{Misread as Wrong};
ghost use Rattle.shorthand.specs.Words.{expected};

use rules::Rule;
use std::fmt;

/// One action of a plan.
#[derive(Clone, Copy, Debug, PartialEq, Eq)]
pub enum Action {
    // Two letters, and no kind of scope: plans as text know no orderings.
    OpenTask,
    OpenFinish,
    /// Closes the innermost scope.
    Close,
    /// An access of a class to a record.
    Access(u32, u32),
    /// Asks for the word of a task.
    Ask(u32),
}

/// What was read: the rule, and how many actions.
// A count, no slice: were a part of the places handed back, what they hold would have to be proved by hand, here and at each call.
#[derive(Clone, Copy, Debug, PartialEq, Eq)]
pub struct Plan {
    pub rule: Rule,
    pub count: usize,
}

/// What is wrong at a character.
#[derive(Clone, Copy, Debug, PartialEq, Eq)]
pub enum Reason {
    /// No action begins so.
    NoAction,
    /// No number stands behind a letter.
    NoNumber,
    /// The number is above 4,294,967,295.
    TooLarge,
    /// No second hexadecimal digit stands in a class.
    NoDigit,
    /// No `@` stands behind a class.
    NoAt,
}

/// The first character that does not belong there, counted from 1; the one behind the last where the text is too short.
#[derive(Clone, Copy, Debug, PartialEq, Eq)]
pub struct Misread {
    pub position: usize,
    pub reason: Reason,
}

/// Why a text is refused.
#[derive(Clone, Copy, Debug, PartialEq, Eq)]
pub enum Fault {
    /// There are fewer places for actions than characters in the text.
    NoRoom,
    Misread(Misread),
}

/// What is expected in place of what is wrong.
impl fmt::Display for Reason {
    ghost output = { λ reason. Some (expected reason) };

    fn fmt<W: fmt::Write>(&self, f: &mut fmt::Formatter<W>) -> fmt::Result {
        f.write_str(match self {
            Reason::NoAction =>
                "expected an action: T, F, ), r, w, a or ? or a class of two hexadecimal digits",
            Reason::NoNumber => "expected a number",
            Reason::TooLarge => "expected a number of at most 4294967295",
            Reason::NoDigit => "expected the second hexadecimal digit of a class, 0 to 9 or A to F",
            Reason::NoAt => "expected @ behind a class",
        })
    }
}

impl From<Misread> for Fault {
    ghost from_gives = { λ misread fault. fault ≡ Wrong misread };

    fn from(misread: Misread) -> Fault {
        Fault::Misread(misread)
    }
}
