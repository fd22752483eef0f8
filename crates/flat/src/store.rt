//! A lower store in memory handed over.

ghost use Rattle.std.specs.Prelude.{◌≡◌, ◌*◌, length, replicate, is_ok, if◌then◌else◌};
ghost use Rattle.blocks.specs.Blocks.{only, inside, zero_block};
ghost use Rattle.memory.specs.Memory.{overlaid};
ghost use Rattle.lowers.specs.Lowers.{block_answer, extent_answer};
ghost use Rattle.flat.specs.Flat.{width_of, files_in, index_of, ChangesIn};

use crate::files::Files;
use crate::layout::{start, whole_files};
use blocks::BLOCK_BYTES;
use faults::Fault;
use lowers::{Lower, Reading};

/// A lower store in memory handed over.
/// What does not fill a file, and what lies behind 65,536 files, is left alone.
pub type FlatStore<'a> = Files<&'a mut [u8]>;

impl<'a> FlatStore<'a> {
    /// Lays the memory out as files of `width` blocks, and leaves its bytes.
    pub fn new(bytes: &'a mut [u8], width: u32) -> Self
        ensures memory { result.bytes ≡ bytes.entry }
        ensures width { result.sizes.width ≡ width_of width }
        ensures files { result.sizes.files ≡ files_in (length bytes.old) (width_of width) }
    {
        let sizes = whole_files(bytes.len(), width);
        Files { sizes, bytes }
    }
}

impl<'a> Lower for FlatStore<'a> {
    fn write(&mut self, file: u32, block: u32, from: &[u8]) -> Result<(), Fault>
        ensures meaning { ChangesIn self.old.bytes.now self.old.sizes file (only block) (λ _. from.now) (block_answer self.old.sizes.files self.old.sizes.width file block (length from.now)) result self.new.bytes.now self.new.sizes }
        ensures memory { self.new.bytes.now ≡ (if is_ok result then overlaid self.old.bytes.now (index_of self.old.sizes.width file block * 4096) from.now else self.old.bytes.now) }
        ensures lender { self.new.bytes.ghost_name ≡ self.old.bytes.ghost_name }
    {
        self.sizes.admit_block(file, block, from.len())?;
        let at = start(self.sizes, file, block);
        self.bytes[at..at + BLOCK_BYTES].copy_from_slice(from);
        Ok(())
    }

    fn clear(&mut self, file: u32, first: u32, n: u32) -> Result<(), Fault>
        ensures meaning { ChangesIn self.old.bytes.now self.old.sizes file (inside first n) (λ _. zero_block) (extent_answer self.old.sizes.files self.old.sizes.width file first n) result self.new.bytes.now self.new.sizes }
        ensures memory { self.new.bytes.now ≡ (if is_ok result then overlaid self.old.bytes.now (index_of self.old.sizes.width file first * 4096) (replicate (n * 4096) 0) else self.old.bytes.now) }
        ensures lender { self.new.bytes.ghost_name ≡ self.old.bytes.ghost_name }
    {
        self.sizes.admit_extent(file, first, n)?;
        let at = start(self.sizes, file, first);
        self.bytes[at..at + n as usize * BLOCK_BYTES].fill(0);
        Ok(())
    }
}
