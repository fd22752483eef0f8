//! A map with one key for each mapped block, over any table.

#![tactic(auto)]

pub mod block_map;
mod keys;
