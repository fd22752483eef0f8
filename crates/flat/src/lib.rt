//! Files of blocks in memory handed over, file by file: a flat store that can be changed, and a picture that can only be read.

#![tactic(auto)]

mod files;
mod layout;
mod picture;
mod reading;
mod store;

pub use picture::Picture;
pub use store::FlatStore;
