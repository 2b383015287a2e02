//! The steps of a walk.
ghost use Rattle.std.specs.Prelude.{◌≡◌, [], ◌∷◌, IfOk};
ghost use Rattle.walk.specs.Calls.{walk_setting};
ghost use Rattle.walk.specs.Lines.{AllPlainly};
ghost use Rattle.walk.specs.Steps.{number_told, paired};
ghost use Rattle.walk.specs.Walk.{is_event, Walked};

use crate::calls::{check_plan, exchanges_of};
use conversation::{Ending, Exchange};
use orderings::Told;
use rules::Rule;
use shorthand::Action;
use std::alloc::{AllocError, Global};
use trace_check::{Refusal, Reply};

/// An action, the task that it belongs to, and the reply.
#[derive(Clone, Copy)]
pub(crate) struct Step {
    pub(crate) task: u32,
    pub(crate) action: Action,
    pub(crate) reply: Result<Reply, Refusal>,
}

impl Step {
    /// Whether the step is an event.
    pub(crate) fn is_event(self) -> bool
        ensures { result ≡ is_event self }
    {
        self.reply.is_ok() && !matches!(self.action, Action::Ask(_))
    }
}

/// The number that a reply tells, 0 where it tells none, as the definition of the steps has it.
fn number_told(reply: Result<Reply, Refusal>) -> u32
    ensures { result ≡ number_told reply }
{
    match reply {
        Ok(Reply::Told(Told::Number(number))) => number,
        _ => 0,
    }
}

/// The step of an action, from two exchanges: the question which task is innermost, and the action.
fn step_of(action: Action, pair: &[Exchange; 2]) -> Step
    ensures { result ∷ [] ≡ paired (action ∷ []) pair.now }
{
    let [asked, put] = pair;
    Step {
        task: number_told(asked.reply),
        action,
        reply: put.reply,
    }
}

/// Takes the exchanges two by two.
pub(crate) fn steps_of(
    heap: Global,
    actions: &[Action],
    exchanges: &[Exchange],
) -> Result<Vec<Step>, AllocError>
    ensures { IfOk result (λ v. v.items ≡ paired actions.now exchanges.now) }
{
    let (pairs, _) = exchanges.as_chunks::<2>();
    actions
        .iter()
        .zip(pairs)
        .map(|(action, pair)| step_of(*action, pair))
        .collect(heap)
}

/// The steps of a walk, and its end.
#[derive(Drop)]
pub(crate) struct Walk {
    pub(crate) steps: Vec<Step>,
    pub(crate) ending: Ending,
    ghost plainly: { AllPlainly steps.items },
}

/// Puts the actions to a check, one after the other.
pub(crate) fn walk_through(
    heap: Global,
    rule: &Rule,
    actions: &[Action],
) -> Result<Walk, AllocError>
    ensures { IfOk result (λ w. Walked
        (walk_setting rule.now) actions.now w.steps.items w.ending) }
{
    let mut exchanges = exchanges_of(heap, actions)?;
    let ending = check_plan(rule, &mut exchanges);
    let steps = steps_of(heap, actions, &exchanges)?;
    Ok(Walk { steps, ending })
}
