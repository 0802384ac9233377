//! What a member keeps over a restart, in three tables of a SQL database: a keeper over them, and what makes and knows them.
#![tactic(auto)]

mod cache;
mod finding;
mod judging;
mod keeper;
mod new_file;
mod opening;
mod ours;
mod refused;
mod rows;
mod saving;
mod steps;
mod whole;

pub use keeper::SqlKeeper;
pub use new_file::first_page;
pub use opening::set_up;
pub use ours::{is_old, is_ours};
