//! The journals of a store, played again: whether each outcome and answer that they tell of is what their events give, and
//! what else these give.
#![tactic(auto)]

mod actor;
mod decided;
mod found;
mod hearing;
mod later;
mod lives;
mod making;
mod play;
mod post;
mod printed;
mod steps;
mod stored;
mod texts;
mod told;

pub use decided::Decided;
pub use found::Stored;
pub use making::remake;
pub use play::Play;
