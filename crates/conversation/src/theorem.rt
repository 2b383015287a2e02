//! What holds of every conversation whose replies are right.
ghost use Rattle.conversation.specs.Theorem.{FactsFollow};
ghost use Rattle.conversation.specs.Worked.{Worked};

/// Right replies alone give the facts about clashes, reads and orders.
pub fn facts_follow() -> u8
    ensures { FactsFollow }
{
    0
}

/// The worked plans, as one table over the definitions.
pub fn worked_through() -> u8
    ensures { Worked }
{
    0
}
