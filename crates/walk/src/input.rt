//! The text of the plan, and why there is no walk.
ghost use Rattle.std.specs.Prelude.{IfOk};
ghost use Rattle.walk.specs.Walk.{Says};

use rules::Rule;
use shorthand::{Action, Fault, Misread, Reason, read};
use std::alloc::{AllocError, Global};
use std::io::Read;
use std::{fmt, io};

/// The most bytes of a plan.
const MOST: usize = 65_536;

/// Why there is no walk.
#[derive(Drop)]
pub(crate) enum Stop {
    Input(io::Error),
    TooLong,
    Misread {
        /// Counted from 1.
        position: usize,
        /// The byte there, if there is one.
        byte: Option<u8>,
        reason: Reason,
    },
}

impl Stop {
    fn misread(text: &[u8], misread: Misread) -> Stop {
        let position = misread.position;
        let place = position.saturating_sub(1);
        Stop::Misread {
            position,
            byte: text.get(place).copied(),
            reason: misread.reason,
        }
    }
}

impl From<io::Error> for Stop {
    fn from(error: io::Error) -> Stop {
        Stop::Input(error)
    }
}

impl From<AllocError> for Stop {
    fn from(error: AllocError) -> Stop {
        Stop::Input(error.into())
    }
}

/// All of standard input.
pub(crate) fn text_of(rt: &HostRuntime) -> Result<Vec<u8>, Stop> {
    let mut text = Vec::new(rt.alloc());
    rt.stdin().take(MOST as u64 + 1).read_to_end(&mut text)?;
    if text.len() > MOST {
        return Err(Stop::TooLong);
    }
    Ok(text)
}

/// What the text of a plan says.
#[derive(Drop)]
pub(crate) struct Script {
    pub(crate) rule: Rule,
    pub(crate) actions: Vec<Action>,
}

/// Reads a plan.
pub(crate) fn plan_of(heap: Global, text: &[u8]) -> Result<Script, Stop>
    ensures { IfOk result (λ s. Says text.now s.rule s.actions.items) }
{
    let mut actions = vec![in heap; Action::Close; text.len()]?;
    // A match, no `map_err`: its closure would not know that there is room.
    let plan = match read(text, &mut actions) {
        Ok(plan) => plan,
        Err(Fault::Misread(misread)) => return Err(Stop::misread(text, misread)),
        Err(Fault::NoRoom) => unreachable(),
    };
    actions.truncate(plan.count);
    Ok(Script {
        rule: plan.rule,
        actions,
    })
}

impl fmt::Display for Stop {
    fn fmt<W: fmt::Write>(&self, f: &mut fmt::Formatter<W>) -> fmt::Result {
        match self {
            Stop::Input(error) => write!(f, "{error}"),
            Stop::TooLong => write!(f, "the plan has more than {MOST} bytes"),
            Stop::Misread {
                position,
                byte,
                reason,
            } => {
                write!(f, "position {position}, ")?;
                match byte {
                    None => write!(f, "the end of the plan")?,
                    Some(byte) if byte.is_ascii_graphic() => write!(
                        f,
                        "character {}",
                        *byte as char
                    )?,
                    Some(byte) => write!(f, "byte {byte}")?,
                }
                write!(f, ": {reason}")
            }
        }
    }
}
