//! The block store over any map, board and lower store.

#![tactic(auto)]

mod below;

ghost use Rattle.std.specs.Prelude.{◌≡◌};
ghost use Rattle.pool.specs.Pool.{taken_in};
ghost use Rattle.ledger.specs.Sound.{Sound};
ghost use Rattle.store.specs.InStep.{sound_prop};
ghost use Rattle.store.specs.Whole.{shaped, stated, Made};

use admission::{admit_clear, admit_file, admit_read, admit_write};
use boards::Board;
use calls::{Source, StoreFault, Written};
use claims::{claim, vacate, vacate_file};
use lowers::{Lower, Reading};
use maps::Map;
use pool::Pool;
use stores::BlockStore;
use walks::{board_of, clear_file, copy_down};

/// A store of blocks: a map says which of them lie on the board, a pool which board blocks are taken,
/// and all others lie in the lower store.
#[derive(Drop)]
pub struct Store<M: Map, B: Board, L: Lower> {
    map: M,
    board: B,
    lower: L,
    pool: Pool,
    ghost in_step: { Sound (shaped M.Map.rule (M.Map.room map) (B.Board.size board) (L.Reading.files lower) (L.Reading.width lower)) (stated (M.Map.placed map) (taken_in pool) (B.Board.block board) (L.Reading.bytes lower)) } by { sound_prop _ _ },
}

impl<M: Map, B: Board, L: Lower> Store<M, B, L> {
    /// A store over these parts. Every file of the map is forgotten, so that all board blocks are free.
    pub fn new(mut map: M, board: B, lower: L) -> Self
        ensures { Made (shaped M.Map.rule (M.Map.room map) (B.Board.size board) (L.Reading.files lower) (L.Reading.width lower)) (B.Board.block board) (L.Reading.bytes lower) (⟦<Store<M, B, L> as BlockStore>⟧.shape result) (⟦<Store<M, B, L> as BlockStore>⟧.state result) }
    {
        map.forget_all();
        Store {
            map,
            board,
            lower,
            pool: Pool::new(),
        }
    }

    /// The parts again, as the calls have left them.
    pub fn into_parts(self) -> (M, B, L)
        ensures { (result.0 ≡ self.map) × (result.1 ≡ self.board) × (result.2 ≡ self.lower) }
    {
        let Store {
            map,
            board,
            lower,
            pool: _,
        } = self;
        (map, board, lower)
    }
}

impl<M: Map, B: Board, L: Lower> BlockStore for Store<M, B, L> {
    ghost shape = { λ s. shaped M.Map.rule (M.Map.room s.map) (B.Board.size s.board) (L.Reading.files s.lower) (L.Reading.width s.lower) };

    ghost state = { λ s. stated (M.Map.placed s.map) (taken_in s.pool) (B.Board.block s.board) (L.Reading.bytes s.lower) };

    ghost in_step = { λ s. s.in_step };

    fn write(
        &mut self,
        file: u32,
        block: u32,
        mark: u32,
        from: &[u8],
    ) -> Result<Written, StoreFault> {
        admit_write(&self.lower, file, block, mark, from.len())?;
        match board_of(&mut self.map, file, block) {
            Some(number) => {
                let _ = self.board.write(number, from);
                Ok(Written::Board {
                    number,
                    taken: false,
                })
            }
            None if mark == 0 => {
                let _ = self.lower.write(file, block, from);
                Ok(Written::Lower)
            }
            None => {
                let size = self.board.blocks();
                let number = claim(&mut self.map, &mut self.pool, size, file, block)?;
                let _ = self.board.write(number, from);
                Ok(Written::Board {
                    number,
                    taken: true,
                })
            }
        }
    }

    fn read(&mut self, file: u32, block: u32, to: &mut [u8]) -> Result<Source, StoreFault> {
        admit_read(&self.lower, file, block, to.len())?;
        match board_of(&mut self.map, file, block) {
            Some(number) => {
                let _ = self.board.read(number, to);
                Ok(Source::Board)
            }
            None => {
                let _ = self.lower.read(file, block, to);
                Ok(Source::Lower)
            }
        }
    }

    fn clear(&mut self, file: u32, first: u32, n: u32) -> Result<u32, StoreFault> {
        admit_clear(&self.lower, file, first, n)?;
        let count = vacate(&mut self.map, &mut self.pool, file, first, n)?;
        let _ = self.lower.clear(file, first, n);
        Ok(count)
    }

    fn remove(&mut self, file: u32) -> Result<u32, StoreFault> {
        admit_file(&self.lower, file)?;
        let count = vacate_file(&mut self.map, &mut self.pool, file, self.lower.width());
        clear_file(&mut self.lower, file);
        Ok(count)
    }

    fn demote(&mut self, file: u32) -> Result<u32, StoreFault> {
        admit_file(&self.lower, file)?;
        copy_down(&mut self.map, &mut self.board, &mut self.lower, file);
        Ok(vacate_file(&mut self.map, &mut self.pool, file, self.lower.width()))
    }
}
