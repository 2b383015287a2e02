//! What is put, and what comes back.

/// A call, and the reply to it.
#[derive(Clone, Copy, Debug, PartialEq, Eq)]
pub struct Exchange<C, R> {
    pub call: C,
    pub reply: R,
}
