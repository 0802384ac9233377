//! The run that flights hold, as the first journal of a store, and a folder of flights made a store.
#![tactic(auto)]

mod adopting;
mod deeds;
mod folder;
mod group;
mod run;
mod stored;
mod taken;
mod telling;
mod told;

pub use folder::adopt_run;
