//! Straight runs of blocks cut into keys.

#![tactic(auto)]

pub mod run;
pub mod walk;
