//! What the console prints for a text, as definitions and laws.

#![tactic(auto)]
