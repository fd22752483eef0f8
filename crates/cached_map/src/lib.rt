//! The last eight translations found, remembered over any map.

#![tactic(auto)]

pub mod cached;
pub mod memory;
