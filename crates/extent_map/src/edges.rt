//! Where the change of an extent begins and ends, and what it meets.

ghost use Rattle.std.specs.Prelude.{◌≡◌, ◌+◌, ◌-◌, ◌<◌, ◌≤◌};
ghost use Rattle.extents.specs.Extents.{Barrier};
ghost use Rattle.key_rule.specs.Keyed.{placing};
ghost use Rattle.key_rule.specs.Mends.{Leftward, Rightward, LeftEdge, RightEdge};
ghost use Rattle.maps.specs.Steps.{lowest_mapped_block};

use crate::keys::FileKeys;
use blocks::EXTENT_BLOCKS;
use look_ups::Keys;
use tables::table::Table;

/// Where a run begins or ends, and the board number there.
#[derive(Clone, Copy)]
pub struct Edge {
    pub block: u32,
    pub board: u32,
}

impl<'a, T: Table> FileKeys<'a, T> {
    /// The lowest mapped one of the n blocks from `first` on.
    pub fn lowest_mapped(&self, first: u32, n: u32) -> Option<u32>
        requires { (0 < n) × (first + n ≤ 65536) }
        ensures { result ≡ lowest_mapped_block (placing (T.Table.holding self.now.table.now) self.now.file) first n }
    {
        if self.key_over(first as u16).is_some() {
            return Some(first);
        }
        if n == 1 {
            return None;
        }
        let row = self.table.first_from(self.file, (first + 1) as u16)?;
        let start = u32::from(row.block);
        (start < first + n).then_some(start)
    }

    /// Where the run begins that goes on into a block at a board number.
    pub fn leftward(&self, first: u32, board: u32) -> Edge
        requires { first < 65536 }
        ensures range { (result.block ≤ first) × (result.board + first ≡ board + result.block) }
        ensures found { Leftward (placing (T.Table.holding self.now.table.now) self.now.file) first result.block result.board }
    {
        let mut left = Edge {
            block: first,
            board,
        };
        // each step passes a whole key, so no range of blocks gives the steps
        while left.block % EXTENT_BLOCKS != 0 {
            let Some(key) = self.key_over((left.block - 1) as u16) else {
                return left;
            };
            let start = u32::from(key.start);
            let lowest = u32::from(key.board);
            if lowest + (left.block - start) != left.board {
                return left;
            }
            left = Edge {
                block: start,
                board: lowest,
            };
        }
        left
    }

    /// Where the run ends that goes on from a block at a board number.
    pub fn rightward(&self, end: u32, board: u32) -> u32
        requires range { (end ≤ 65536) × (board ≤ 4096) }
        requires barrier { Barrier (placing (T.Table.holding self.now.table.now) self.now.file) end }
        ensures range { (end ≤ result) × (result ≤ 65536) × (board + (result - end) ≤ 4096) }
        ensures found { Rightward (placing (T.Table.holding self.now.table.now) self.now.file) end board result }
    {
        let mut right = Edge { block: end, board };
        // each step passes a whole key, so no range of blocks gives the steps
        while right.block % EXTENT_BLOCKS != 0 {
            let Some(entry) = self.key_at(right.block as u16) else {
                return right.block;
            };
            if u32::from(entry.board) != right.board {
                return right.block;
            }
            right.block += u32::from(entry.length);
            right.board += u32::from(entry.length);
        }
        right.block
    }

    /// Where the key over a block begins; the block itself where there is none.
    pub fn left_edge(&self, first: u32) -> Edge
        requires { first < 65536 }
        ensures range { (result.block ≤ first) × (result.board + (first - result.block) ≤ 4096) }
        ensures found { LeftEdge (placing (T.Table.holding self.now.table.now) self.now.file) first result.block result.board }
    {
        match self.key_over(first as u16) {
            Some(key) => Edge {
                block: u32::from(key.start),
                board: u32::from(key.board),
            },
            None => Edge {
                block: first,
                board: 0,
            },
        }
    }

    /// Where the key over the block before `end` ends, and the board number that it gives `end`; `end` itself where there is none.
    pub fn right_edge(&self, end: u32) -> Edge
        requires { (0 < end) × (end ≤ 65536) }
        ensures range { (end ≤ result.block) × (result.block ≤ 65536) × (result.board + (result.block - end) ≤ 4096) }
        ensures found { RightEdge (placing (T.Table.holding self.now.table.now) self.now.file) end result.block result.board }
    {
        match self.key_over((end - 1) as u16) {
            Some(key) => Edge {
                block: key.end(),
                board: u32::from(key.board) + (end - u32::from(key.start)),
            },
            None => Edge {
                block: end,
                board: 0,
            },
        }
    }
}
