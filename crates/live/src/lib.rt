//! Playing a script on a group whose nodes run on threads of their own, so that the same seed gives the same run.
#![tactic(auto)]

mod asking;
pub mod driver;
pub mod errand;
pub mod mail;
pub mod pulse;
pub mod reading;
mod round;
pub mod said;
pub mod station;

pub use driver::Driver;
pub use nodes::cluster::{Cluster, Config};
pub use nodes::gate::{Gate, Point};
pub use reading::{LiveScript, read_live};
pub use said::Said;
