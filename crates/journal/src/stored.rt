//! What a member has stored, in short.
ghost use Rattle.std.specs.Prelude.{◌≡◌};
ghost use Rattle.keep.specs.Durable.{blank};
ghost use Rattle.journal.specs.Digests.{summary_of};

use crate::digest::BLANK_DIGEST;
use keep::hard_state::HardState;

/// What a member has stored, in short: its term, vote and floor, how many entries its log has, and the log's digest.
#[derive(Clone, Copy, PartialEq, Eq, Debug)]
pub struct Summary {
    pub hard: HardState,
    pub length: usize,
    pub digest: [u8; 32],
}

impl Summary {
    /// That of a member that never stored anything.
    pub fn blank() -> Summary
        ensures { result ≡ summary_of blank }
    {
        Summary {
            hard: HardState {
                term: 0,
                vote: None,
                floor: None,
            },
            length: 0,
            digest: BLANK_DIGEST,
        }
    }
}
