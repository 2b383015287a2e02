//! The check of a plan's trace, over any ordering and any clash rule.
#![tactic(auto)]

mod calls;
mod puts;
mod state;
mod words;

pub use state::Check;
pub use words::{Call, Counts, Refusal, Reply};
