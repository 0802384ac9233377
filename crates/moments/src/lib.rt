//! The moments of what nodes recorded: their order, and each of them played again on a `World`.
#![tactic(auto)]

mod judged;
pub mod laws;
mod listing;
mod moment;
mod order;
mod posts;
mod recorded;
mod replay;
mod running;
mod same;
mod told;

pub use judged::all_answers;
pub use listing::{list_deeds, timeline};
pub use moment::{Deed, Moment};
pub use order::check_order;
pub use recorded::{AuditFault, Recorded};
pub use replay::Replay;
pub use running::events_in;
