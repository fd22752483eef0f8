//! The block map.

ghost use Rattle.std.specs.Prelude.{◌≡◌};
ghost use Rattle.blocks.specs.Blocks.{tally, every};
ghost use Rattle.maps.specs.Steps.{nowhere};
ghost use Rattle.block_map.specs.BlockKeys.{placed_by, Single};
ghost use Rattle.block_map.specs.Granted.{tally_out, placed_low, tally_placed};
ghost use Rattle.std.proofs.Common.{arith, rules};

use crate::keys::{drop_file, drop_keys, first_mapped, put_keys};
use faults::{Fault, Ground, Layer};
use maps::Map;
use maps::extent::Extent;
use tables::table::Table;

/// A map that keeps one key for each mapped block, with the length 1 and the block's board number.
#[derive(Drop)]
pub struct BlockMap<T: Table> {
    table: T,
    ghost single: { Single (T.Table.holding table) },
}

impl<T: Table> BlockMap<T> {
    /// A map with the table's room in which no block is mapped: the table is emptied.
    pub fn new(mut table: T) -> BlockMap<T>
        ensures placed { placed_by (T.Table.holding result.table) ≡ nowhere }
        ensures room { T.Table.places result.table ≡ T.Table.places table }
    {
        table.empty();
        BlockMap { table }
    }
}

impl<T: Table> Map for BlockMap<T> {
    ghost placed = { λ s. placed_by (T.Table.holding s.table) };

    ghost room = { λ s. T.Table.places s.table };

    ghost rule = { tally };

    ghost bounded = { Prim.search rules };

    ghost lighter = { λ p file. tally_out p file every };

    ghost within = { Prim.search rules };

    ghost on_board = { λ s f b p e. placed_low (T.Table.holding s.table) f b p s.single e };

    ghost roomy = { λ s.
        let k = tally_placed (T.Table.holding s.table) in
        let l = T.Table.bounded s.table in
        omega arith };

    fn find(&mut self, file: u32, block: u32) -> Result<Option<u32>, Fault> {
        let (file, block) = Layer::Map.narrow(file, block)?;
        let entry = self.table.find(file, block);
        Ok(entry.map(|entry| u32::from(entry.board)))
    }

    fn next(&mut self, file: u32, block: u32) -> Result<Option<u32>, Fault> {
        let (file, block) = Layer::Map.narrow(file, block)?;
        let row = self.table.first_from(file, block);
        Ok(row.map(|row| u32::from(row.block)))
    }

    fn assign(&mut self, file: u32, first: u32, n: u32, board: u32) -> Result<(), Fault> {
        let extent = Extent::on_board(file, first, n, board)?;
        if let Some(block) = first_mapped(&self.table, extent) {
            return Err(Layer::Map.refusal(Ground::Mapped, file, block));
        }
        if n > self.table.room() - self.table.held() {
            return Err(Layer::Map.refusal(Ground::TooManyKeys, file, first));
        }
        put_keys(&mut self.table, extent, board);
        Ok(())
    }

    fn clear(&mut self, file: u32, first: u32, n: u32) -> Result<(), Fault> {
        let extent = Extent::named(file, first, n)?;
        drop_keys(&mut self.table, extent);
        Ok(())
    }

    fn forget(&mut self, file: u32) -> Result<(), Fault> {
        let (file, _) = Layer::Map.narrow(file, 0)?;
        drop_file(&mut self.table, file);
        Ok(())
    }

    fn forget_all(&mut self) {
        self.table.empty()
    }
}
