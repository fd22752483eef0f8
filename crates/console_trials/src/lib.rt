//! Trials of the console, through its one call.

#![tactic(auto)]

#[cfg(test)]
mod sessions;
