//! Plans in shorthand. A text names its rule first, `plain`, `depot` or `field`; where it names none, the plain rule holds. Then come the
//! actions, with blanks, tabs, carriage returns, newlines or nothing between them:
//!
//! - `T` opens a task, `F` opens a finish, and `)` closes the innermost scope;
//! - `r5`, `w5` and `a5` read record 5, write it and add to it;
//! - `10@5` accesses record 5 with class 10, which is two hexadecimal digits, 0 to 9 and A to F;
//! - `?2` asks for the word of task 2.
//!
//! An `F` that a digit and an `@` follow is the first digit of a class.
#![tactic(auto)]

mod actions;
mod numbers;
mod reader;
mod reading;
#[cfg(test)]
mod tests;
mod words;

pub use reading::read;
pub use words::{Action, Fault, Misread, Plan, Reason};
