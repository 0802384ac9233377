//! Tests of groups of three: what fails below a member, each call of its store and each request for memory in turn
//! (`tools/lack_memory`); lives that are full; logs longer than what a member has of them in memory; nodes under locks and on
//! threads.
#![tactic(auto)]

#[cfg(test)]
mod catch_up;
#[cfg(test)]
mod clusters;
#[cfg(test)]
mod effect;
#[cfg(test)]
mod group;
#[cfg(test)]
mod groups;
#[cfg(test)]
mod held;
#[cfg(test)]
mod lives;
#[cfg(test)]
mod locked;
#[cfg(test)]
mod packets;
#[cfg(test)]
mod player;
#[cfg(test)]
mod record;
#[cfg(test)]
mod seats;
#[cfg(test)]
mod setting;
#[cfg(test)]
mod turns;
#[cfg(test)]
mod views;
