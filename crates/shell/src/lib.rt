//! The commands of the program, over readers and writers.
#![tactic(auto)]

pub mod audit;
pub mod command;
pub mod command_line;
mod databases;
mod group;
pub mod live_run;
pub mod pilot;
pub mod report_run;
mod showing;
pub mod shown_run;
pub mod sim;
pub mod since_run;
pub mod source;
pub mod stop;
mod verdict;
mod words;
