//! Scripts played, and drawn as lanes: what the members did, message by message.
#![tactic(auto)]

mod drawn;
mod numbered;
mod pencil;
mod stage;

pub use drawn::{Drawing, Sheet, Span, draw_lanes};
