//! Trials of the pool and of sets of blocks at the edges of a word and of a board. The pool is held against a plain search
//! over bools.

#![tactic(auto)]

#[cfg(test)]
mod pool_at_edges;
#[cfg(test)]
mod set_at_edges;
