//! What was recorded beside the lives, and what an audit says of it.
ghost use Rattle.std.specs.Prelude.{◌≡◌};
ghost use Rattle.moments.specs.declared.recorded.AuditFault.TheVariants.{NoMemory};
ghost use Rattle.moments.specs.Faults.{refusal_of};

use fault::{Refusal, Text};
use model::mark::Mark;
use model::member::Member;
use std::alloc::AllocError;

/// An answer that a node gave.
#[derive(Debug, Drop)]
pub struct Recorded {
    pub node: Member,
    /// The mark of the last opening or step that the answer rests on.
    pub mark: Mark,
    /// The text of the query.
    pub query: Text,
    /// The text of the answer, or of the refusal of a query that was not closed.
    pub answer: Text,
}

/// Why an audit says no: the first fault, with its node and its mark; or it found no memory.
#[derive(Clone, Copy, PartialEq, Eq, Debug)]
pub enum AuditFault {
    /// 43.
    NoMemory,
    /// 53: a mark is not above the one before it, or not above its envelope's.
    OutOfOrder { node: Member, mark: Mark },
    /// 51: a life begins with what the run does not have there, or after one that did not end.
    Broken { node: Member, mark: Mark },
    /// 52: a delivered message that its sender did not send then.
    Unsent { node: Member, mark: Mark },
    /// 54: an answer that the run does not give, or a step whose outcomes are not the run's.
    Wrong { node: Member, mark: Mark },
}

/// The refusal of this number, with the same node and mark.
impl From<AuditFault> for Refusal {
    ghost from_gives = { λ f r. r ≡ refusal_of f };

    fn from(fault: AuditFault) -> Refusal {
        match fault {
            AuditFault::NoMemory => Refusal::NoMemory,
            AuditFault::OutOfOrder { node, mark } => Refusal::StampOrder {
                node,
                mark: mark.number(),
            },
            AuditFault::Broken { node, mark } => Refusal::BrokenLife {
                node,
                mark: mark.number(),
            },
            AuditFault::Unsent { node, mark } => Refusal::Unsent {
                node,
                mark: mark.number(),
            },
            AuditFault::Wrong { node, mark } => Refusal::WrongAnswer {
                node,
                mark: mark.number(),
            },
        }
    }
}

impl From<AllocError> for AuditFault {
    ghost from_gives = { λ _ f. f ≡ NoMemory };

    fn from(_error: AllocError) -> AuditFault {
        AuditFault::NoMemory
    }
}
