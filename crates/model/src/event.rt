//! What is brought to a member in one step, and what a step leaves that is cut short.
use crate::message::Input;

/// What is brought to a member in a step that is cut short.
#[derive(Clone, Debug, Drop)]
pub enum Job {
    Local(Input),
    /// A message that was sent to it.
    Delivery {
        /// Which message, counted from 1 in the order in which all were sent.
        message: usize,
        /// What the member's clock shows, in microseconds since 1970.
        reading: i64,
    },
}

/// What a step that is cut short leaves in the store.
#[derive(Clone, Copy, PartialEq, Eq, Debug)]
pub enum Left {
    /// What was stored before the step.
    Old,
    /// What is stored once the step is made. Of a step that is refused, or has no effect, that is
    /// what was stored before.
    New,
}
