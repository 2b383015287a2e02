//! The row of a record.

/// A filled slot holds the leader of a class: an access by its class, its event number and its task.
#[derive(Clone, Copy, Debug, PartialEq, Eq)]
pub struct Slot {
    pub class: u32,
    pub event: u32,
    pub task: u32,
}

/// A row holds the leaders at its record, one for each class, in the order in which the classes reached it.
// A caller lends its rows, and may hand in any count: so a count beside eight slots, and above 8 a refusal of its own.
#[derive(Clone, Copy, Debug, PartialEq, Eq)]
pub struct Row {
    pub count: usize,
    pub slots: [Slot; 8],
}

impl Row {
    pub const EMPTY: Row = Row {
        count: 0,
        slots: [Slot {
            class: 0,
            event: 0,
            task: 0,
        }; 8],
    };
}
