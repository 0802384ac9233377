//! What a node's life publishes, and views of it that wait for nobody.
#![tactic(auto)]

pub mod laws;
mod published;
pub mod publisher;
mod refused;
mod replay;
mod rule;
pub mod told;
pub mod view;

pub use history::Item;
pub use model::mark::Mark;
pub use publisher::Publisher;
pub use told::{Name, Notice};
pub use view::{Marked, View};
