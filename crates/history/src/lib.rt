//! What a node publishes of one life: a list of items that only grows, and tokens which say that it begins with a list.
#![tactic(auto)]

pub mod front;
pub mod growing;
pub mod item;
pub mod rule;

pub use front::Front;
pub use growing::History;
pub use item::Item;
