//! What the commands over a store's folder are asked for: by the words of a command line, and by lines that are typed into an open store.
#![tactic(auto)]

pub mod command;
pub mod command_line;
pub mod dot;
pub mod given;
pub mod text;
mod words;

pub use command::{Command, ExportRows, ImportRows, NewStore, OpenStore};
pub use command_line::{ASKS_NOTHING, command_of, with_commands};
pub use dot::{DotCommand, read_dot_command};
pub use text::{Kind, read_kind};
