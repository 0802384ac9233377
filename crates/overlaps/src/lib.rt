//! What has periods, by key, and the search by halves for one that shares a day with another; lists that are read item
//! by item, and how many items were read.
#![tactic(auto)]

pub mod counted;
pub mod has_period;
pub mod index;
pub mod key;
pub mod laws;
mod order;
mod refused;

pub use counted::{Count, Counted};
pub use has_period::HasPeriod;
pub use index::KeyIndex;
pub use key::Key;
