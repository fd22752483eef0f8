//! The sizes of a reading side, and what they admit.

ghost use Rattle.std.specs.Prelude.{◌≡◌};
ghost use Rattle.lowers.specs.Lowers.{ground_of_block, ground_of_extent, block_answer, extent_answer};

use blocks::{BLOCK_BYTES, EXTENT_BLOCKS};
use faults::{Fault, Ground, Layer};

/// How many files there are, and how many blocks each has.
#[derive(Clone, Copy)]
pub struct Sizes {
    pub files: u32,
    pub width: u32,
}

impl Sizes {
    /// Why a read or write of one block is refused, if it is, with a buffer of so many bytes.
    ///
    /// The ground alone and no refusal: a store makes its own of it, as a lower store does.
    pub fn block_ground(self, file: u32, block: u32, buffer: usize) -> Option<Ground>
        ensures { result ≡ ground_of_block self.files self.width file block buffer }
    {
        if file >= self.files {
            Some(Ground::File)
        } else if block >= self.width {
            Some(Ground::Block)
        } else if buffer != BLOCK_BYTES {
            Some(Ground::Buffer)
        } else {
            None
        }
    }

    /// Why a clear of the n blocks from the first on is refused, if it is.
    pub fn extent_ground(self, file: u32, first: u32, n: u32) -> Option<Ground>
        ensures { result ≡ ground_of_extent self.files self.width file first n }
    {
        if file >= self.files {
            Some(Ground::File)
        } else if first >= self.width || n > self.width - first {
            Some(Ground::Block)
        } else if n == 0 || n > EXTENT_BLOCKS {
            Some(Ground::Length)
        } else {
            None
        }
    }

    /// Whether a read or write of one block is granted.
    pub fn admit_block(self, file: u32, block: u32, buffer: usize) -> Result<(), Fault>
        ensures { result ≡ block_answer self.files self.width file block buffer }
    {
        Layer::Lower.grant_unless(self.block_ground(file, block, buffer), file, block)
    }

    /// Whether a clear of the n blocks from the first on is granted.
    pub fn admit_extent(self, file: u32, first: u32, n: u32) -> Result<(), Fault>
        ensures { result ≡ extent_answer self.files self.width file first n }
    {
        Layer::Lower.grant_unless(self.extent_ground(file, first, n), file, first)
    }
}
