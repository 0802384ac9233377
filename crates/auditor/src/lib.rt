//! The audit of what nodes recorded: whether their lives and the answers are those of one run of the group.
#![tactic(auto)]

mod auditing;
mod refused;
mod verdict;

pub use auditing::audit;
pub use moments::{AuditFault, Recorded};
pub use verdict::judge;
