//! What is stored, as it is read.
use crate::hard_state::HardState;
use model::entry::Entry;

/// What a keeper stores of a member: its hard state, how long its log is, and the last 1,024 entries
/// of the log, or all where there are fewer.
#[derive(Debug, Drop)]
pub struct State {
    pub hard: HardState,
    pub length: usize,
    pub tail: Vec<Entry>,
}

/// How many entries a `State` has at most.
pub const TAIL_MOST: usize = 1024;
