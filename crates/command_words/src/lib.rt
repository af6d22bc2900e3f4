//! The words of the command line: what the program is asked to do.
#![tactic(auto)]

mod command;
mod numbers;
mod plain;
mod read;

pub use command::{Command, usage_line};
pub use read::read_words;
