//! Trace lines: what a line looks like, reading one, and writing the lines of a clash, a verdict and a refusal.
#![tactic(auto)]

mod digits;
mod kind;
mod reading;
#[cfg(test)]
mod tests;
mod words;
mod writing;

pub use digits::digit;
pub use reading::read_line;
pub use words::{Frame, LineFault, ShortBuffer};
pub use writing::{LINE_ROOM, put_clash, put_refusal, put_verdict};
