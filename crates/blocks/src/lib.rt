//! Blocks of files: their sizes, and what is said of all of them at once.

#![tactic(auto)]

/// The bytes of a block.
pub const BLOCK_BYTES: usize = 4096;

/// File and block numbers are below this.
pub const NUMBERS: u32 = 65536;

/// An extent has at most so many blocks.
pub const EXTENT_BLOCKS: u32 = 4096;

/// A board has at most so many blocks.
pub const BOARD_BLOCKS: u32 = 4096;

/// What a key carries: how many blocks it stands for, and the board number of the first.
#[derive(Clone, Copy, PartialEq, Eq, Debug)]
pub struct Entry {
    pub length: u16,
    pub board: u16,
}
