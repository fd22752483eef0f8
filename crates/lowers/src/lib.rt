//! Lower stores: files of blocks behind the board, and the reading side that they have in common with a picture.

#![tactic(auto)]

mod sizes;

ghost use Rattle.std.specs.Prelude.{◌≡◌, ℕ, ◌<◌, ◌≤◌, min, length};
ghost use Rattle.blocks.specs.Blocks.{Contents, only, inside, zero_block};
ghost use Rattle.lowers.specs.Lowers.{block_answer, extent_answer, Holds, CopiesOut, Changes};

use blocks::BLOCK_BYTES;
use faults::Fault;
pub use sizes::Sizes;

/// The bytes of so many files of so many blocks, to be read.
///
/// Its meaning is how many files there are, how many blocks each has, and what each block of each file holds.
/// A question may leave notes in the side, so it takes `&mut self`; it leaves the meaning.
pub trait Reading {
    ghost files: { Self → ℕ };

    ghost width: { Self → ℕ };

    ghost bytes: { Self → Contents };

    /// How many files there are: at most 65,536.
    fn files(&self) -> u32
        ensures answer { result ≡ files self.now }
        ensures bounded { files self.now ≤ 65536 };

    /// How many blocks each file has: at most 65,536, and each of 4,096 bytes.
    fn width(&self) -> u32
        ensures answer { result ≡ width self.now }
        ensures bounded { width self.now ≤ 65536 }
        ensures full { (f b : ℕ) → f < files self.now → b < width self.now → length (bytes self.now f b) ≡ 4096 };

    /// Both at once.
    final fn sizes(&self) -> Sizes
        ensures { result ≡ record { files = files self.now; width = width self.now } }
    {
        Sizes {
            files: self.files(),
            width: self.width(),
        }
    }

    /// Copies a block out.
    fn read(&mut self, file: u32, block: u32, to: &mut [u8]) -> Result<(), Fault>
        ensures { CopiesOut (files self.old) (width self.old) (bytes self.old) file block to.old result to.new (files self.new) (width self.new) (bytes self.new) };

    /// There are at most 65,536 files,
    ghost few: { (s : Self) → files s ≤ 65536 };

    /// of at most 65,536 blocks,
    ghost narrow: { (s : Self) → width s ≤ 65536 };

    /// and each block has 4,096 bytes.
    ghost full: { (s : Self) (f b : ℕ) → f < files s → b < width s → length (bytes s f b) ≡ 4096 };
}

/// A reading side whose blocks can be replaced and cleared.
pub trait Lower: Reading {
    /// Replaces a block, and no other.
    fn write(&mut self, file: u32, block: u32, from: &[u8]) -> Result<(), Fault>
        ensures { Changes (Self.Reading.files self.old) (Self.Reading.width self.old) (Self.Reading.bytes self.old) file (only block) (λ _. from.now) (block_answer (Self.Reading.files self.old) (Self.Reading.width self.old) file block (length from.now)) result (Self.Reading.files self.new) (Self.Reading.width self.new) (Self.Reading.bytes self.new) };

    /// Makes the n blocks from the first on zero bytes, and no other.
    fn clear(&mut self, file: u32, first: u32, n: u32) -> Result<(), Fault>
        ensures { Changes (Self.Reading.files self.old) (Self.Reading.width self.old) (Self.Reading.bytes self.old) file (inside first n) (λ _. zero_block) (extent_answer (Self.Reading.files self.old) (Self.Reading.width self.old) file first n) result (Self.Reading.files self.new) (Self.Reading.width self.new) (Self.Reading.bytes self.new) };
}

/// Copies a block from a reading side to a lower store; the file and the block have to be within both.
pub fn carry<S: Reading, T: Lower>(
    source: &mut S,
    target: &mut T,
    file: u32,
    block: u32,
) -> Result<(), Fault>
    ensures target { Changes (T.Reading.files target.old) (T.Reading.width target.old) (T.Reading.bytes target.old) file (only block) (λ _. S.Reading.bytes source.old file block) (block_answer (min (S.Reading.files source.old) (T.Reading.files target.old)) (min (S.Reading.width source.old) (T.Reading.width target.old)) file block 4096) result (T.Reading.files target.new) (T.Reading.width target.new) (T.Reading.bytes target.new) }
    ensures source { Holds (S.Reading.files source.old) (S.Reading.width source.old) (S.Reading.bytes source.old) (S.Reading.files source.new) (S.Reading.width source.new) (S.Reading.bytes source.new) }
{
    let files = source.files().min(target.files());
    let width = source.width().min(target.width());
    let mut buffer = [0u8; BLOCK_BYTES];
    Sizes { files, width }.admit_block(file, block, buffer.len())?;
    source.read(file, block, &mut buffer)?;
    target.write(file, block, &buffer)
}
