//! What is wrong in a script or in the tables of a schema, told as a compiler tells it: the place, the line, and what could
//! be done. And what stands below a refusal on standard error: a file, what was tried with it, and what was found.
#![tactic(auto)]

mod cause;
mod changes;
mod columns;
mod days;
mod faultless;
mod fields;
mod files;
mod finding;
mod flight_parts;
mod group;
mod judging;
mod lists;
mod literals;
mod lives;
mod name;
mod names;
mod page;
mod questions;
mod schemas;
mod scripts;
mod standing;
mod tables;
mod texts;
mod walk;

pub use cause::{Cause, Found, Trouble};
pub use columns::no_table;
pub use files::{Subject, diagnose};
pub use finding::{Heading, Place, find_heading};
pub use group::why_no_group;
pub use name::Name;
pub use page::Diagnosis;
pub use texts::{fault_in_question, fault_in_request};
