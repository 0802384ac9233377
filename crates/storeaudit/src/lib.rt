//! Audits of a store's folder, and what else its journals give.
#![tactic(auto)]

mod auditing;
mod later;
mod replayed;

pub use auditing::{Audited, Verdict, audit};
pub use later::Later;
pub use replayed::{flights, replay};
