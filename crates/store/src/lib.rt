//! A store: a group whose members take their steps in turn in one thread, over queues, with a journal that is written ahead.
#![tactic(auto)]

pub mod announcing;
pub mod beginnings;
pub mod chain;
pub mod databases;
pub mod device;
pub mod found;
pub mod held;
pub mod known;
mod leading;
pub mod members;
pub mod outcome;
pub mod past;
mod questions;
pub mod refusal;
mod requests;
pub mod room;
pub mod scribe;
mod seat;
pub mod since;
mod standing;
pub mod status;
mod steps;
pub mod store;
pub mod tale;
pub mod telling;
pub mod voice;

pub use databases::Databases;
pub use device::{Device, DeviceError, NoDevice};
pub use outcome::Outcome;
pub use past::Past;
pub use refusal::StoreRefusal;
pub use room::Room;
pub use store::Store;
