//! Views of an open store's members: other threads ask a member's copy while the store goes on.
#![tactic(auto)]

mod times;
mod window;
mod windows;

pub use view::{Marked, View};
pub use windows::Windows;
