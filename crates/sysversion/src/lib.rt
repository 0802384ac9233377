//! Versions of all rows that ever were current, with their system times.
#![tactic(auto)]

pub mod key_versions;
pub mod laws;
pub mod lists;
mod reached;
mod refused;
pub mod table;
pub mod version;
mod version_list;
pub mod versions;

pub use key_versions::KeyVersions;
pub use lists::Lists;
pub use table::TableVersions;
pub use version::Version;
pub use versions::Versions;
