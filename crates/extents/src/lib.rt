//! The keys of a file's map from blocks to board numbers, the look-up path of a block, and the laws of both.

#![tactic(auto)]

pub mod key;
pub mod laws;
pub mod path;
