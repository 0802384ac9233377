//! Reading schemas.
#![tactic(auto)]

pub mod laws;
pub mod schemas;
