//! What an audit tells about flights besides its verdict, as a text and as JSON.
#![tactic(auto)]

pub mod counts;
mod deeds;
pub mod difference;
pub mod digests;
pub mod earlier;
pub mod files;
mod given;
pub mod machine;
pub mod page;
mod scan;
pub mod settled;
mod spelled;
pub mod stuck;
mod unlike;
pub mod whole;
mod words;
