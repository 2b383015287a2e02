//! The graph of a plan's events, its paths and allowed orders, and what is proved of them. Nothing here runs: each function's
//! contract is a theorem.
#![tactic(auto)]

ghost use Rattle.graph.specs.Theorems.{WordsArePaths, LeadersDecide, LeadersFindClashes};
ghost use Rattle.graph.specs.Theorems.{SwappedOrders, ExchangeExact, ClashFreeReadsAlike};

/// A task is unordered exactly when it is closed and its close has no path to an access put next.
pub fn words_are_paths() -> u8
    ensures { WordsArePaths }
{
    0
}

/// If any access of a class is unordered with an access put next, the leader of the class is.
pub fn leaders_decide() -> u8
    ensures { LeadersDecide }
{
    0
}

/// Some earlier access clashes and has no path exactly when a leader clashes and its task is unordered.
pub fn leaders_find_clashes() -> u8
    ensures { LeadersFindClashes }
{
    0
}

/// Which two orders there are for two events that no path joins.
pub fn swapped_orders() -> u8
    ensures { SwappedOrders }
{
    0
}

/// Two events can change places exactly when no path joins them.
pub fn exchange_exact() -> u8
    ensures { ExchangeExact }
{
    0
}

/// A plan without a clash by the depot rule gives every read the same in every allowed order.
pub fn clash_free_reads_alike() -> u8
    ensures { ClashFreeReadsAlike }
{
    0
}
