//! What is read of files of blocks in memory.

ghost use Rattle.std.specs.Prelude.{◌≡◌};
ghost use Rattle.flat.specs.Flat.{bytes_in, CopiesOutIn};
ghost use Rattle.flat.specs.Full.{few_in, full_within};

use crate::files::Files;
use crate::layout::start;
use blocks::BLOCK_BYTES;
use faults::Fault;
use lowers::Reading;
use std::convert::AsSlice;

impl<B: AsSlice<u8>> Reading for Files<B> {
    ghost files = { λ s. s.sizes.files };

    ghost width = { λ s. s.sizes.width };

    ghost bytes = { λ s. bytes_in (B.AsSlice.items s.bytes) s.sizes.files s.sizes.width };

    fn files(&self) -> u32 {
        self.sizes.files
    }

    fn width(&self) -> u32 {
        self.sizes.width
    }

    fn read(&mut self, file: u32, block: u32, to: &mut [u8]) -> Result<(), Fault>
        ensures meaning { CopiesOutIn (B.AsSlice.items self.old.bytes) self.old.sizes file block to.old result to.new (B.AsSlice.items self.new.bytes) self.new.sizes }
        ensures memory { self.new.bytes ≡ self.old.bytes }
    {
        self.sizes.admit_block(file, block, to.len())?;
        let at = start(self.sizes, file, block);
        to.copy_from_slice(&self.bytes.as_slice()[at..at + BLOCK_BYTES]);
        Ok(())
    }

    ghost few = { λ s. few_in (B.AsSlice.items s.bytes) s.sizes.files s.sizes.width s.laid };

    ghost narrow = { λ s. s.laid.narrow };

    ghost full = { λ s f b. full_within (B.AsSlice.items s.bytes) s.sizes.files s.sizes.width s.laid f b };
}
