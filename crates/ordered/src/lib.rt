//! A key table whose rows stand in rising order of their keys.

#![tactic(auto)]

mod rows;

ghost use Rattle.std.specs.Prelude.{◌≡◌, ℕ, min, IfOk, vec_capacity};
ghost use Rattle.tables.specs.Holding.{nothing};
ghost use Rattle.ordered.specs.Ordered.{rank, Stands, Sought};
ghost use Rattle.ordered.specs.Tables.{holding_of};
ghost use Rattle.std.proofs.Common.{arith};
ghost use Rattle.ordered.specs.OrderedLaws.{numbered_keys};

use blocks::Entry;
pub use rows::OrderedTable;
use std::alloc::{AllocError, Global};
use tables::row::Row;
use tables::table::Table;

impl OrderedTable {
    /// A table with room for n keys, 2,048 at most.
    pub fn new(heap: Global, n: u32) -> Result<OrderedTable, AllocError>
        ensures { IfOk result (λ t. (holding_of t ≡ nothing) × (t.room ≡ min n 2048)) }
    {
        let room = n.min(2048);
        let rows = Vec::with_capacity(heap, room as usize)?;
        Ok(OrderedTable { rows, room })
    }
}

/// The number by which keys are ordered.
fn rank_of(file: u16, block: u16) -> u32
    ensures { result ≡ rank file block }
{
    u32::from(file) * 65536 + u32::from(block)
}

/// The index of the first row whose key is not below the one given, by halving.
fn place_in(rows: &Vec<Row>, file: u16, block: u16) -> usize
    ensures { Stands rows.now.items (rank file block) result }
{
    let wanted = rank_of(file, block);
    // A loop with an index into the rows, which shows each row that is looked at.
    let mut low = 0;
    let mut high = rows.len();
    while low < high {
        let middle = low + (high - low) / 2;
        let row = rows[middle];
        if rank_of(row.file, row.block) < wanted {
            low = middle + 1;
        } else {
            high = middle;
        }
    }
    low
}

/// Where a key stands among rising rows, or where it would stand.
fn seek(rows: &Vec<Row>, file: u16, block: u16) -> Result<usize, usize>
    ensures { Sought rows.now.items file block result }
{
    let place = place_in(rows, file, block);
    match rows.get(place) {
        Some(&row) if row.file == file && row.block == block => Ok(place),
        _ => Err(place),
    }
}

impl Table for OrderedTable {
    ghost holding = { holding_of };

    ghost places = { λ t. t.room };

    ghost bounded = { λ t. omega (arith, t.sound.counted, t.sound.fits) };

    ghost numbered = { λ t. numbered_keys t.rows.items t.room (vec_capacity t.rows) t.sound };

    fn room(&self) -> u32 {
        self.room
    }

    /// Counts the rows.
    fn held(&self) -> u32 {
        let room = self.room;
        // A loop with an index into the rows, which shows each row that is looked at.
        let mut i = 0;
        while i < room && (i as usize) < self.rows.len() {
            i += 1;
        }
        i
    }

    fn empty(&mut self) {
        self.rows.clear();
    }

    fn find(&self, file: u16, block: u16) -> Option<Entry> {
        match seek(&self.rows, file, block) {
            Ok(i) => Some(self.rows[i].entry),
            Err(_) => None,
        }
    }

    fn store(&mut self, file: u16, block: u16, entry: Entry) -> bool {
        let row = Row { file, block, entry };
        match seek(&self.rows, file, block) {
            Ok(i) => {
                self.rows[i] = row;
                true
            }
            Err(i) => {
                if self.rows.len() >= self.room as usize {
                    return false;
                }
                self.rows.insert(i, row).is_ok()
            }
        }
    }

    fn remove(&mut self, file: u16, block: u16) -> bool {
        match seek(&self.rows, file, block) {
            Ok(i) => {
                let _ = self.rows.remove(i);
                true
            }
            Err(_) => false,
        }
    }

    fn first_from(&self, file: u16, block: u16) -> Option<Row> {
        let place = place_in(&self.rows, file, block);
        self.rows.get(place).copied().filter(|row| row.file == file)
    }
}
