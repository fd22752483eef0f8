//! Maps on many random lists of calls, beside a plain model of where every block lies.

#![tactic(auto)]

#[cfg(test)]
mod model;
#[cfg(test)]
mod tests;
