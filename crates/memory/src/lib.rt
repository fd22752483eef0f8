//! Blocks in memory: the part that each takes, and what a change of one leaves.

#![tactic(auto)]
