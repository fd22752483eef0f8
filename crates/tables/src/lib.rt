//! Key tables, by what they mean, and the spreads that say where a search begins.

#![tactic(auto)]

pub mod row;
pub mod spread;
pub mod table;
