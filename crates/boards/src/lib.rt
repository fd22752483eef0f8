//! Boards: rows of blocks that are read and replaced by number.

#![tactic(auto)]

ghost use Rattle.std.specs.Prelude.{◌≡◌, ℕ, ◌*◌, ◌<◌, ◌≤◌, List, length, is_ok, if◌then◌else◌};
ghost use Rattle.memory.specs.Memory.{overlaid};
ghost use Rattle.boards.specs.Boards.{board_answer, ReadsBlock, ReplacesBlock, size_in, block_in, joined_size, joined_block, LeavesParts, left_written, right_written};
ghost use Rattle.std.proofs.Common.{rules};
ghost use Rattle.boards.specs.Full.{full_in, joined_full};

use blocks::{BLOCK_BYTES, BOARD_BLOCKS};
use faults::{Fault, Ground, Layer};

/// A row of at most 4,096 blocks of 4,096 bytes.
///
/// Its meaning is its size and what each block holds.
/// A question may leave notes in the board, so it takes `&mut self`; it leaves the meaning.
pub trait Board {
    ghost size: { Self → ℕ };

    ghost block: { Self → ℕ → List ℕ };

    /// How many blocks there are: at most 4,096, and each of 4,096 bytes.
    fn blocks(&self) -> u32
        ensures answer { result ≡ size self.now }
        ensures bounded { size self.now ≤ 4096 }
        ensures full { (i : ℕ) → i < size self.now → length (block self.now i) ≡ 4096 };

    /// Copies a block out.
    fn read(&mut self, number: u32, to: &mut [u8]) -> Result<(), Fault>
        ensures { ReadsBlock (size self.old) (block self.old) number to.old result to.new (size self.new) (block self.new) };

    /// Replaces a block, and no other.
    fn write(&mut self, number: u32, from: &[u8]) -> Result<(), Fault>
        ensures { ReplacesBlock (size self.old) (block self.old) number from.now result (size self.new) (block self.new) };

    /// There are at most 4,096 blocks,
    ghost bounded: { (s : Self) → size s ≤ 4096 };

    /// and each of 4,096 bytes.
    ghost full: { (s : Self) (i : ℕ) → i < size s → length (block s i) ≡ 4096 };
}

/// Whether a board of so many blocks grants a read or write of one, with a buffer of so many bytes.
pub fn admit(blocks: u32, number: u32, buffer: usize) -> Result<(), Fault>
    ensures { result ≡ board_answer blocks number buffer }
{
    let ground = if buffer != BLOCK_BYTES {
        Some(Ground::Buffer)
    } else if number >= blocks {
        Some(Ground::BoardNumber)
    } else {
        None
    };
    Layer::Board.grant_unless(ground, 0, number)
}

/// A board in memory handed over: block i is the part that starts at i × 4,096.
/// What does not fill a block, and what lies behind 4,096 blocks, is left alone.
#[derive(Drop)]
pub struct MemoryBoard<'a> {
    bytes: &'a mut [u8],
}

impl<'a> MemoryBoard<'a> {
    pub fn new(bytes: &'a mut [u8]) -> Self
        ensures { result.bytes ≡ bytes.entry }
    {
        Self { bytes }
    }

    /// Copies a block out. It stands apart from `read`, where a proof no longer knows, once the bytes are lent, that the board is as it was.
    fn copy_out(&self, number: u32, to: &mut [u8]) -> Result<(), Fault>
        ensures answer { result ≡ board_answer (size_in self.now.bytes.now) number (length to.old) }
        ensures buffer { to.new ≡ (if is_ok result then block_in self.now.bytes.now number else to.old) }
    {
        admit(self.blocks(), number, to.len())?;
        let at = number as usize * BLOCK_BYTES;
        to.copy_from_slice(&self.bytes[at..at + BLOCK_BYTES]);
        Ok(())
    }
}

impl<'a> Board for MemoryBoard<'a> {
    ghost size = { λ s. size_in s.bytes.now };

    ghost block = { λ s. block_in s.bytes.now };

    ghost bounded = { Prim.search rules };

    ghost full = { λ s. full_in s.bytes.now };

    fn blocks(&self) -> u32 {
        (self.bytes.len() / BLOCK_BYTES).min(BOARD_BLOCKS as usize) as u32
    }

    fn read(&mut self, number: u32, to: &mut [u8]) -> Result<(), Fault>
        ensures meaning { ReadsBlock (size_in self.old.bytes.now) (block_in self.old.bytes.now) number to.old result to.new (size_in self.new.bytes.now) (block_in self.new.bytes.now) }
        ensures memory { self.new.bytes ≡ self.old.bytes }
    {
        self.copy_out(number, to)
    }

    fn write(&mut self, number: u32, from: &[u8]) -> Result<(), Fault>
        ensures meaning { ReplacesBlock (size_in self.old.bytes.now) (block_in self.old.bytes.now) number from.now result (size_in self.new.bytes.now) (block_in self.new.bytes.now) }
        ensures memory { self.new.bytes.now ≡ (if is_ok result then overlaid self.old.bytes.now (number * 4096) from.now else self.old.bytes.now) }
        ensures lender { self.new.bytes.ghost_name ≡ self.old.bytes.ghost_name }
    {
        admit(self.blocks(), number, from.len())?;
        let at = number as usize * BLOCK_BYTES;
        (&mut self.bytes[at..at + BLOCK_BYTES]).copy_from_slice(from);
        Ok(())
    }
}

/// Two boards end to end as one: the blocks of the left board, then those of the right, cut at 4,096.
#[derive(Drop)]
pub struct JoinedBoard<L, R> {
    left: L,
    right: R,
}

impl<L: Board, R: Board> JoinedBoard<L, R> {
    pub fn new(left: L, right: R) -> Self
        ensures { result ≡ record { left = left; right = right } }
    {
        Self { left, right }
    }

    /// Takes the two boards apart again.
    pub fn into_parts(self) -> (L, R)
        ensures { result ≡ (self.left, self.right) }
    {
        let JoinedBoard { left, right } = self;
        (left, right)
    }
}

impl<L: Board, R: Board> Board for JoinedBoard<L, R> {
    ghost size = { λ s. joined_size (L.Board.size s.left) (R.Board.size s.right) };

    ghost block = { λ s. joined_block (L.Board.size s.left) (L.Board.block s.left) (R.Board.size s.right) (R.Board.block s.right) };

    ghost bounded = { Prim.search rules };

    ghost full = { λ s i l. joined_full (L.Board.size s.left) (L.Board.block s.left) (L.Board.full s.left) (R.Board.size s.right) (R.Board.block s.right) (R.Board.full s.right) i l };

    fn blocks(&self) -> u32 {
        self.left
            .blocks()
            .saturating_add(self.right.blocks())
            .min(BOARD_BLOCKS)
    }

    fn read(&mut self, number: u32, to: &mut [u8]) -> Result<(), Fault>
        ensures meaning { ReadsBlock (joined_size (L.Board.size self.old.left) (R.Board.size self.old.right)) (joined_block (L.Board.size self.old.left) (L.Board.block self.old.left) (R.Board.size self.old.right) (R.Board.block self.old.right)) number to.old result to.new (joined_size (L.Board.size self.new.left) (R.Board.size self.new.right)) (joined_block (L.Board.size self.new.left) (L.Board.block self.new.left) (R.Board.size self.new.right) (R.Board.block self.new.right)) }
        ensures parts { LeavesParts (L.Board.size self.old.left) (L.Board.block self.old.left) (R.Board.size self.old.right) (R.Board.block self.old.right) (L.Board.size self.new.left) (L.Board.block self.new.left) (R.Board.size self.new.right) (R.Board.block self.new.right) }
    {
        // Which board has the number is told here and in `write` alike: a step that both lend their board to would be longer.
        admit(self.blocks(), number, to.len())?;
        let left = self.left.blocks();
        if number < left {
            self.left.read(number, to)
        } else {
            self.right.read(number - left, to)
        }
    }

    fn write(&mut self, number: u32, from: &[u8]) -> Result<(), Fault>
        ensures meaning { ReplacesBlock (joined_size (L.Board.size self.old.left) (R.Board.size self.old.right)) (joined_block (L.Board.size self.old.left) (L.Board.block self.old.left) (R.Board.size self.old.right) (R.Board.block self.old.right)) number from.now result (joined_size (L.Board.size self.new.left) (R.Board.size self.new.right)) (joined_block (L.Board.size self.new.left) (L.Board.block self.new.left) (R.Board.size self.new.right) (R.Board.block self.new.right)) }
        ensures parts { LeavesParts (L.Board.size self.old.left) (left_written (is_ok result) (L.Board.size self.old.left) (L.Board.block self.old.left) number from.now) (R.Board.size self.old.right) (right_written (is_ok result) (L.Board.size self.old.left) (R.Board.block self.old.right) number from.now) (L.Board.size self.new.left) (L.Board.block self.new.left) (R.Board.size self.new.right) (R.Board.block self.new.right) }
    {
        admit(self.blocks(), number, from.len())?;
        let left = self.left.blocks();
        if number < left {
            self.left.write(number, from)
        } else {
            self.right.write(number - left, from)
        }
    }
}
