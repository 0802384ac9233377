//! What a node keeps over a restart: its hard state and its log.
#![tactic(auto)]

pub mod change;
pub mod error;
pub mod hard_state;
pub mod keeper;
pub mod laws;
pub mod memory;
mod refused;
pub mod state;

pub use change::Change;
pub use error::StoreError;
pub use hard_state::HardState;
pub use keeper::{Keeper, LogReader};
pub use memory::{MemImage, MemKeeper};
pub use state::{State, TAIL_MOST};
