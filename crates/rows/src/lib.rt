//! The row of a record: the leaders there, and what an access finds among them.
#![tactic(auto)]

mod leaders;
mod row;
mod words;

pub use row::{Row, Slot};
pub use words::{Leader, RowFault};
