//! Plans extents: cuts runs of blocks into keys, and reads every block back by the look-up path.

#![tactic(auto)]

pub mod plan;
mod planned;
pub mod summary;
