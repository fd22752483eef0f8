//! The lines of the console: commands, and the replies to them.

#![tactic(auto)]

pub mod command;
pub mod print;
pub mod reply;
