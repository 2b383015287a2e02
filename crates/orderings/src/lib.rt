//! Orderings: which tasks of a plan are surely over before the next access, and which may still run beside it.
#![tactic(auto)]

mod bags;
mod exchange;
mod inquiries;
mod ordering;
mod questions;
mod scopes;
mod table;
mod words;

pub use bags::{Bags, Entry};
pub use exchange::Exchange;
pub use inquiries::{Inquiry, Request, Response, inquire, put};
pub use ordering::Ordering;
pub use questions::{Question, Told, tell};
pub use scopes::Scopes;
pub use table::Table;
pub use words::{Fault, Kind, Word};
