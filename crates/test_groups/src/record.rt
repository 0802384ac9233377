//! What a life has recorded, and what a packet came to.
use cells::cell::{Cell, Out};
use flight::life::Ending;
use keep::{MemKeeper, StoreError};
use node::Fault;
use std::process::Abort;

/// What a cell has recorded.
#[derive(Clone, Copy, PartialEq)]
pub(crate) struct Record {
    pub is_up: bool,
    /// How many steps its life has, a torn one not among them.
    pub steps: usize,
    pub last_mark: u64,
    pub is_torn: bool,
}

impl Record {
    pub(crate) fn of(cell: &Cell<MemKeeper>) -> Record {
        Record {
            is_up: cell.node.is_up(),
            steps: cell.life.steps.len(),
            last_mark: cell.life.last_mark().number(),
            is_torn: matches!(&cell.life.ending, Ending::Torn(_)),
        }
    }

    /// How many steps it has, a torn one too.
    pub(crate) fn all_steps(self) -> usize {
        if self.is_torn {
            self.steps.saturating_add(1)
        } else {
            self.steps
        }
    }
}

/// What a packet came to.
#[derive(Clone, Copy)]
pub(crate) enum Fed {
    /// A step with this mark, and the stamp of the last entry that became applied in it.
    Done { mark: u64, applied: Option<u64> },
    /// It was turned away, by a refusal of this number.
    Kept(u8),
    /// The step went down for want of memory.
    Torn,
}

// What came of a packet that was taken.
fn done(out: &Out) -> Fed {
    let applied = match out.given.applied.last() {
        Some(entry) => Some(entry.stamp.micros()),
        None => None,
    };
    Fed::Done {
        mark: out.mark.number(),
        applied,
    }
}

impl Fed {
    pub(crate) fn of(rt: &impl Abort, answer: &Result<Out, Fault>) -> Fed {
        match answer {
            Ok(out) => done(out),
            Err(Fault::Kept(refusal)) => Fed::Kept(refusal.number()),
            Err(Fault::Down(error)) => {
                assert!(rt; matches!(error, StoreError::NoMemory));
                Fed::Torn
            }
        }
    }

    /// Whether the life, which was up, has one step more with the next mark, is as it was, or has a torn ending. The mark is
    /// greater than that of the step which sent the packet.
    pub(crate) fn is_right(self, sent: u64, before: Record, after: Record) -> bool {
        let last_mark = before.last_mark.max(sent).saturating_add(1);
        let mut wanted = before;
        match self {
            Fed::Done { mark, .. } => {
                wanted.steps = before.steps.saturating_add(1);
                wanted.last_mark = last_mark;
                mark == last_mark && after == wanted
            }
            Fed::Kept(_) => after == before,
            Fed::Torn => {
                wanted.is_up = false;
                wanted.is_torn = true;
                wanted.last_mark = last_mark;
                after == wanted
            }
        }
    }
}
