//! A key table that finds a key by searching from the place where a spread puts it.

#![tactic(auto)]

mod rows;
mod slots;
pub mod table;
