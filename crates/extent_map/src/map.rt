//! The extent map.

ghost use Rattle.std.specs.Prelude.{◌≡◌, ℕ, ◌≤◌};
ghost use Rattle.std.proofs.Common.{sym, subst};
ghost use Rattle.extents.specs.Extents.{KeysOf};
ghost use Rattle.maps.specs.Steps.{nowhere};
ghost use Rattle.key_rule.specs.Keyed.{Held, placing, rule_of_keys};
ghost use Rattle.extent_map.specs.Calls.{counted_in, counted_answer};
ghost use Rattle.key_rule.proofs.Changes.{rule_bounded, rule_lighter};
ghost use Rattle.key_rule.proofs.Mends.{rule_held};

use crate::keys::FileKeys;
use crate::runs::{Cut, drop_keys, mend};
use blocks::NUMBERS;
use faults::{Fault, Ground, Layer};
use look_ups::{Found, look_up};
use maps::Map;
use maps::extent::Extent;
use run_keys::walk::Run;
use tables::table::Table;

/// A map from the blocks of files to board numbers, held in a table as its keys: the straight aligned extents that lie in no longer one.
#[derive(Drop)]
pub struct ExtentMap<T: Table> {
    table: T,
    ghost held: { Held (T.Table.holding table) },
}

impl<T: Table> ExtentMap<T> {
    /// A map of no block, over a table that is emptied.
    pub fn new(mut table: T) -> ExtentMap<T>
        ensures placed { placing (T.Table.holding result.table) ≡ nowhere }
        ensures room { T.Table.places result.table ≡ T.Table.places table }
    {
        table.empty();
        ExtentMap { table }
    }

    /// One file's keys.
    fn keys_of(&self, file: u16) -> FileKeys<'_, T>
        ensures table { result.table.now ≡ self.now.table }
        ensures file { result.file ≡ file }
    {
        FileKeys {
            table: &self.table,
            file,
        }
    }

    /// Looks a block up along its path, and tells how many keys were tried.
    pub fn find_counted(&self, file: u32, block: u32) -> Result<Found, Fault>
        ensures read { result ≡ counted_in (T.Table.holding self.now.table) file block }
        ensures answer { result ≡ counted_answer (placing (T.Table.holding self.now.table)) file block }
    {
        let (file, block) = Layer::Map.narrow(file, block)?;
        Ok(look_up(&self.keys_of(file), block))
    }

    /// How many keys are held: as many as the map calls for, since the table holds exactly the keys of each file's map.
    pub fn keys_held(&self) -> u32
        ensures number { result ≡ rule_of_keys (placing (T.Table.holding self.now.table)) }
        ensures keys { (f : ℕ) → KeysOf (placing (T.Table.holding self.now.table) f) (T.Table.holding self.now.table f) }
    {
        self.table.held()
    }
}

impl<T: Table> Map for ExtentMap<T> {
    ghost placed = { λ s. placing (T.Table.holding s.table) };

    ghost room = { λ s. T.Table.places s.table };

    ghost rule = { rule_of_keys };

    ghost bounded = { rule_bounded };

    ghost lighter = { rule_lighter };

    ghost within = { λ s. s.held.within };

    ghost on_board = { λ s. s.held.small };

    ghost roomy = { λ s. subst (λ k. k ≤ T.Table.places s.table) (sym (rule_held (T.Table.holding s.table) s.held)) (T.Table.bounded s.table) };

    fn find(&mut self, file: u32, block: u32) -> Result<Option<u32>, Fault> {
        let found = self.find_counted(file, block)?;
        Ok(found.board)
    }

    fn next(&mut self, file: u32, block: u32) -> Result<Option<u32>, Fault> {
        let (file, _) = Layer::Map.narrow(file, block)?;
        Ok(self.keys_of(file).lowest_mapped(block, NUMBERS - block))
    }

    fn assign(&mut self, file: u32, first: u32, n: u32, board: u32) -> Result<(), Fault> {
        let extent = Extent::on_board(file, first, n, board)?;
        let keys = self.keys_of(extent.file);
        if let Some(block) = keys.lowest_mapped(first, n) {
            return Err(Layer::Map.refusal(Ground::Mapped, file, block));
        }
        let left = keys.leftward(first, board);
        let end = keys.rightward(first + n, board + n);
        let cut = Cut {
            before: Run {
                first: left.block,
                end,
                board: left.board,
            },
            behind: Run {
                first: end,
                end,
                board: 0,
            },
        };
        let refused = |ground: Ground| Layer::Map.refusal(ground, file, first);
        mend(&mut self.table, extent.file, cut).map_err(refused)
    }

    fn clear(&mut self, file: u32, first: u32, n: u32) -> Result<(), Fault> {
        let extent = Extent::named(file, first, n)?;
        let keys = self.keys_of(extent.file);
        let left = keys.left_edge(first);
        let right = keys.right_edge(first + n);
        let cut = Cut {
            before: Run {
                first: left.block,
                end: first,
                board: left.board,
            },
            behind: Run {
                first: first + n,
                end: right.block,
                board: right.board,
            },
        };
        let refused = |ground: Ground| Layer::Map.refusal(ground, file, first);
        mend(&mut self.table, extent.file, cut).map_err(refused)
    }

    fn forget(&mut self, file: u32) -> Result<(), Fault> {
        let (file, _) = Layer::Map.narrow(file, 0)?;
        drop_keys(&mut self.table, file, 0, NUMBERS);
        Ok(())
    }

    fn forget_all(&mut self) {
        self.table.empty();
    }
}
