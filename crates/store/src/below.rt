//! A store as the lower store of another.

ghost use Rattle.ledger.specs.Store.{shown};
ghost use Rattle.pool.specs.Pool.{taken_in};
ghost use Rattle.store.specs.Whole.{stated};
ghost use Rattle.store.specs.Full.{shown_full};

use crate::Store;
use boards::Board;
use faults::Fault;
use lowers::{Lower, Reading};
use maps::Map;
use stores::BlockStore;

/// The bytes of a store's blocks are those that a read shows.
impl<M: Map, B: Board, L: Lower> Reading for Store<M, B, L> {
    ghost files = { λ s. L.Reading.files s.lower };

    ghost width = { λ s. L.Reading.width s.lower };

    ghost bytes = { λ s. shown (stated (M.Map.placed s.map) (taken_in s.pool) (B.Board.block s.board) (L.Reading.bytes s.lower)) };

    ghost few = { λ s. L.Reading.few s.lower };

    ghost narrow = { λ s. L.Reading.narrow s.lower };

    ghost full = { λ s. shown_full s.in_step (B.Board.full s.board) (L.Reading.full s.lower) };

    fn files(&self) -> u32 {
        self.lower.files()
    }

    fn width(&self) -> u32 {
        self.lower.width()
    }

    fn read(&mut self, file: u32, block: u32, to: &mut [u8]) -> Result<(), Fault> {
        self.lower.sizes().admit_block(file, block, to.len())?;
        // What is admitted, a store reads.
        let _ = <Store<_, _, _> as BlockStore>::read(self, file, block, to);
        Ok(())
    }
}

/// A store that is written to from above keeps what it can on its board.
impl<M: Map, B: Board, L: Lower> Lower for Store<M, B, L> {
    fn write(&mut self, file: u32, block: u32, from: &[u8]) -> Result<(), Fault> {
        self.lower.sizes().admit_block(file, block, from.len())?;
        if <Store<_, _, _> as BlockStore>::write(self, file, block, 1, from).is_err() {
            // Neither the board nor the key table is asked for room by a loose write.
            let _ = <Store<_, _, _> as BlockStore>::write(self, file, block, 0, from);
        }
        Ok(())
    }

    fn clear(&mut self, file: u32, first: u32, n: u32) -> Result<(), Fault> {
        self.lower.sizes().admit_extent(file, first, n)?;
        if <Store<_, _, _> as BlockStore>::clear(self, file, first, n).is_err() {
            // The key table has no room for what is left of a run that is cut: once the file is off the board, nothing is cut.
            let _ = self.demote(file);
            let _ = <Store<_, _, _> as BlockStore>::clear(self, file, first, n);
        }
        Ok(())
    }
}
