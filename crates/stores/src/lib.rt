//! Block stores, by their meaning.

#![tactic(auto)]

ghost use Rattle.std.specs.Prelude.{◌≡◌, length};
ghost use Rattle.ledger.specs.Sound.{Sound};
ghost use Rattle.ledger.specs.Store.{Shape, State, write_answer, after_write, read_answer, read_buffer, clear_answer, after_clear, file_answer, after_remove, after_demote};

use calls::{Source, StoreFault, Written};

/// A store of blocks, on a board in front of a lower store.
///
/// Its meaning is its shape, which never changes, and its state: where each block lies, and what the board and the lower store hold.
/// Each call answers and leaves just what the rules of a store say, refusals included.
pub trait BlockStore {
    /// The key rule and the sizes.
    ghost shape: { Self → Shape };

    /// The map, the pool, and the bytes of the board and of the lower store.
    ghost state: { Self → State };

    /// Writes a block: where it lies on the board if it lies there, else to the lower store (mark 0) or to a free board block (mark 1).
    fn write(
        &mut self,
        file: u32,
        block: u32,
        mark: u32,
        from: &[u8],
    ) -> Result<Written, StoreFault>
        ensures shape { shape self.new ≡ shape self.old }
        ensures answer { result ≡ write_answer (shape self.old) (state self.old) file block mark (length from.now) }
        ensures after { state self.new ≡ after_write (shape self.old) (state self.old) file block mark from.now };

    /// Reads a block, from the board if it lies there, else from the lower store.
    fn read(&mut self, file: u32, block: u32, to: &mut [u8]) -> Result<Source, StoreFault>
        ensures shape { shape self.new ≡ shape self.old }
        ensures answer { result ≡ read_answer (shape self.old) (state self.old) file block (length to.old) }
        ensures buffer { to.new ≡ read_buffer (shape self.old) (state self.old) file block to.old }
        ensures after { state self.new ≡ state self.old };

    /// Makes the n blocks from the first on zero bytes, off the board, and tells how many board blocks that gives back.
    fn clear(&mut self, file: u32, first: u32, n: u32) -> Result<u32, StoreFault>
        ensures shape { shape self.new ≡ shape self.old }
        ensures answer { result ≡ clear_answer (shape self.old) (state self.old) file first n }
        ensures after { state self.new ≡ after_clear (shape self.old) (state self.old) file first n };

    /// Does the same to all blocks of a file.
    fn remove(&mut self, file: u32) -> Result<u32, StoreFault>
        ensures shape { shape self.new ≡ shape self.old }
        ensures answer { result ≡ file_answer (shape self.old) (state self.old) file }
        ensures after { state self.new ≡ after_remove (shape self.old) (state self.old) file };

    /// Copies every block of a file that lies on the board to the lower store, and gives its board blocks back; tells how many.
    fn demote(&mut self, file: u32) -> Result<u32, StoreFault>
        ensures shape { shape self.new ≡ shape self.old }
        ensures answer { result ≡ file_answer (shape self.old) (state self.old) file }
        ensures after { state self.new ≡ after_demote (shape self.old) (state self.old) file };

    /// Map, pool and sizes are in step.
    ghost in_step: { (s : Self) → Sound (shape s) (state s) };
}
