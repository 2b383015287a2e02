//! What an ordering can be asked, and what it tells.
ghost use Rattle.std.specs.Prelude.{◌≡◌, Err};
ghost use Rattle.orderings.specs.Questions.{telling};

use crate::ordering::Ordering;
use crate::words::{Fault, Kind, Word};

/// A question to an ordering.
#[derive(Clone, Copy, Debug, PartialEq, Eq)]
pub enum Question {
    /// The word of a task.
    WordOf(u32),
    InnermostTask,
    /// How many scopes are open, main counted.
    OpenCount,
    /// The kind of the scope of a number.
    KindOf(u32),
    /// How many scopes were begun, main counted.
    ScopesBegun,
    NumbersLeft,
}

/// What an ordering tells.
#[derive(Clone, Copy, Debug, PartialEq, Eq)]
pub enum Told {
    Word(Word),
    Number(u32),
    /// The kind of a scope, none if no scope has the number.
    Kind(Option<Kind>),
}

/// Puts a question to an ordering. Only the word of a number that is no task's is refused.
pub fn tell<O: Ordering>(ordering: &mut O, question: Question) -> Result<Told, Fault>
    ensures answer { O.Ordering.sound ordering.old → result ≡ telling (O.Ordering.meaning ordering.old) question }
    ensures kept { O.Ordering.sound ordering.old → O.Ordering.sound ordering.new }
    ensures same { O.Ordering.sound ordering.old →
        O.Ordering.meaning ordering.new ≡ O.Ordering.meaning ordering.old }
    ensures refused { (f : Fault) → result ≡ Err f → ordering.new ≡ ordering.old }
{
    match question {
        Question::WordOf(task) => ordering.ask(task).map(Told::Word),
        Question::InnermostTask => Ok(Told::Number(ordering.innermost_task())),
        Question::OpenCount => Ok(Told::Number(ordering.open_count())),
        Question::KindOf(number) => Ok(Told::Kind(ordering.kind_of(number))),
        Question::ScopesBegun => Ok(Told::Number(ordering.begun())),
        Question::NumbersLeft => Ok(Told::Number(ordering.left())),
    }
}
