//! Trials of boards and lower stores at the edges of their sizes.

#![tactic(auto)]

#[cfg(test)]
mod answers;
#[cfg(test)]
mod boards_at_edges;
#[cfg(test)]
mod lowers_at_edges;
