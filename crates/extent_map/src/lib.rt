//! A map that is held as its keys, in any key table.

#![tactic(auto)]

mod edges;
mod keys;
pub mod map;
mod runs;
