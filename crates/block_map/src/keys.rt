//! Keys of a table that each stand for one block.

ghost use Rattle.std.specs.Prelude.{◌≡◌, ◌+◌, ◌≤◌, None};
ghost use Rattle.blocks.specs.Blocks.{tally, inside, every, changed};
ghost use Rattle.maps.specs.Steps.{lowest_mapped_block};
ghost use Rattle.block_map.specs.BlockKeys.{placed_by, single, Free};

use blocks::Entry;
use maps::extent::Extent;
use std::ops::Range;
use tables::table::Table;

/// The numbers of the blocks of an extent.
fn blocks_of(extent: Extent) -> Range<u32>
    ensures { result ≡ record { start = extent.first; end = extent.first + extent.n } }
{
    extent.first..extent.first + extent.n
}

/// The lowest block of an extent with a key.
pub fn first_mapped<T: Table>(table: &T, extent: Extent) -> Option<u32>
    ensures { result ≡ lowest_mapped_block (placed_by (T.Table.holding table.now) extent.file) extent.first extent.n }
{
    blocks_of(extent).find(|block| table.find(extent.file, *block as u16).is_some())
}

/// Enters a key for each block of an extent, which have none, at the board numbers from `board` on.
pub fn put_keys<T: Table>(table: &mut T, extent: Extent, board: u32)
    requires { board + extent.n ≤ 4096 }
    ensures room { T.Table.places table.new ≡ T.Table.places table.old }
    ensures after { Free (T.Table.holding table.old extent.file) extent.first extent.n → tally (T.Table.holding table.old) + extent.n ≤ T.Table.places table.old → T.Table.holding table.new ≡ changed (T.Table.holding table.old) extent.file (inside extent.first extent.n) (single extent.first board) }
{
    for block in blocks_of(extent) {
        let entry = Entry {
            length: 1,
            board: (board + (block - extent.first)) as u16,
        };
        let _ = table.store(extent.file, block as u16, entry);
    }
}

/// Drops the keys of the blocks of an extent.
pub fn drop_keys<T: Table>(table: &mut T, extent: Extent)
    ensures room { T.Table.places table.new ≡ T.Table.places table.old }
    ensures after { T.Table.holding table.new ≡ changed (T.Table.holding table.old) extent.file (inside extent.first extent.n) (λ _. None) }
{
    for block in blocks_of(extent) {
        let _ = table.remove(extent.file, block as u16);
    }
}

/// Drops every key of a file, from the lowest to the highest.
pub fn drop_file<T: Table>(table: &mut T, file: u16)
    ensures room { T.Table.places table.new ≡ T.Table.places table.old }
    ensures after { T.Table.holding table.new ≡ changed (T.Table.holding table.old) file every (λ _. None) }
{
    let mut from = 0;
    while let Some(row) = table.first_from(file, from) {
        let _ = table.remove(file, row.block);
        // the next search begins behind this key, since a table may search block by block
        let Some(next) = row.block.checked_add(1) else {
            return;
        };
        from = next;
    }
}
