//! What is done to all mapped blocks of a file, over any map, board and lower store.

#![tactic(auto)]

ghost use Rattle.std.specs.Prelude.{◌≡◌, ◌-◌, ◌<◌};
ghost use Rattle.std.specs.Iterator.{at_most};
ghost use Rattle.block_set.specs.Members.{member};
ghost use Rattle.blocks.specs.Blocks.{changed, only, inside, zero_block};
ghost use Rattle.lowers.specs.Lowers.{Holds};
ghost use Rattle.walks.specs.Walks.{MapStays, BoardStays, Reaches, copied, Gathers};
ghost use Rattle.walks.specs.Steps.{LowestFrom, Within, Lowest, GoesOn, Gives};

use block_set::BlockSet;
use blocks::{BLOCK_BYTES, EXTENT_BLOCKS};
use boards::Board;
use lowers::Lower;
use maps::Map;

/// A mapped block of a file, and the board number that it has.
#[derive(Clone, Copy)]
struct Mapped {
    block: u32,
    board: u32,
}

/// The board number of a block, or none. A block past all numbers has none.
pub fn board_of<M: Map>(map: &mut M, file: u32, block: u32) -> Option<u32>
    ensures answer { result ≡ M.Map.placed map.old file block }
    ensures map { MapStays (M.Map.room map.old) (M.Map.placed map.old) (M.Map.room map.new) (M.Map.placed map.new) }
{
    map.find(file, block).ok().flatten()
}

/// The lowest mapped block of a file from a block on, or none.
fn lowest_from<M: Map>(map: &mut M, file: u32, block: u32) -> Option<u32>
    ensures answer { LowestFrom (M.Map.placed map.old file) block result }
    ensures map { MapStays (M.Map.room map.old) (M.Map.placed map.old) (M.Map.room map.new) (M.Map.placed map.new) }
{
    map.next(file, block).ok().flatten()
}

/// The lowest mapped block of a file from `from` on and below `to`, with its board number, or none.
///
/// The map's search, which can be dear, is asked only to jump over a hole.
fn next_mapped<M: Map>(map: &mut M, file: u32, from: u32, to: u32) -> Option<Mapped>
    ensures within { Within from to result }
    ensures answer { Lowest (M.Map.placed map.old file) from to result }
    ensures map { MapStays (M.Map.room map.old) (M.Map.placed map.old) (M.Map.room map.new) (M.Map.placed map.new) }
{
    if from >= to {
        return None;
    }
    if let Some(board) = board_of(map, file, from) {
        return Some(Mapped { block: from, board });
    }
    if from + 1 == to {
        return None;
    }
    let block = lowest_from(map, file, from + 1).filter(|block| *block < to)?;
    let board = board_of(map, file, block)?;
    Some(Mapped { block, board })
}

/// The mapped blocks of a file from `from` on and below `to`, going up.
#[derive(Drop)]
struct MappedBlocks<'a, M> {
    map: &'a mut M,
    file: u32,
    from: u32,
    to: u32,
}

impl<'a, M: Map> Iterator for MappedBlocks<'a, M> {
    type Item = Mapped;

    ghost next_gives = { λ s at t. Gives (M.Map.placed s.map.now s.file) s.from s.to at t.from × GoesOn s.map.ghost_name (M.Map.room s.map.now) (M.Map.placed s.map.now) s.file s.to t.map.ghost_name (M.Map.room t.map.now) (M.Map.placed t.map.now) t.file t.to };

    ghost remaining = { λ s. at_most (s.to - s.from) };

    fn next(&mut self) -> Option<Mapped> {
        let at = next_mapped(self.map, self.file, self.from, self.to)?;
        self.from = at.block + 1;
        Some(at)
    }
}

/// Copies a board block to a block of a file.
fn copy_block<B: Board, L: Lower>(board: &mut B, lower: &mut L, file: u32, block: u32, number: u32)
    ensures lower { file < L.Reading.files lower.old → block < L.Reading.width lower.old → number < B.Board.size board.old → Holds (L.Reading.files lower.old) (L.Reading.width lower.old) (changed (L.Reading.bytes lower.old) file (only block) (λ _. B.Board.block board.old number)) (L.Reading.files lower.new) (L.Reading.width lower.new) (L.Reading.bytes lower.new) }
    ensures board { BoardStays (B.Board.size board.old) (B.Board.block board.old) (B.Board.size board.new) (B.Board.block board.new) }
{
    let mut buffer = [0u8; BLOCK_BYTES];
    // Neither is refused where the board has the one block and the file the other.
    let _ = board.read(number, &mut buffer);
    let _ = lower.write(file, block, &buffer);
}

/// Makes every block of a file zero bytes, in pieces that a lower store clears at once.
pub fn clear_file<L: Lower>(lower: &mut L, file: u32)
    ensures { file < L.Reading.files lower.old → Holds (L.Reading.files lower.old) (L.Reading.width lower.old) (changed (L.Reading.bytes lower.old) file (inside 0 (L.Reading.width lower.old)) (λ _. zero_block)) (L.Reading.files lower.new) (L.Reading.width lower.new) (L.Reading.bytes lower.new) }
{
    let width = lower.width();
    for first in (0..width).step_by(EXTENT_BLOCKS as usize) {
        let n = (width - first).min(EXTENT_BLOCKS);
        // A piece within a file that is there is not refused.
        let _ = lower.clear(file, first, n);
    }
}

/// Copies every mapped block of a file to the lower store.
pub fn copy_down<M: Map, B: Board, L: Lower>(map: &mut M, board: &mut B, lower: &mut L, file: u32)
    ensures lower { file < L.Reading.files lower.old → Reaches (M.Map.placed map.old file) (L.Reading.width lower.old) (B.Board.size board.old) → Holds (L.Reading.files lower.old) (L.Reading.width lower.old) (copied (B.Board.block board.old) (M.Map.placed map.old file) file (L.Reading.bytes lower.old)) (L.Reading.files lower.new) (L.Reading.width lower.new) (L.Reading.bytes lower.new) }
    ensures board { BoardStays (B.Board.size board.old) (B.Board.block board.old) (B.Board.size board.new) (B.Board.block board.new) }
    ensures map { MapStays (M.Map.room map.old) (M.Map.placed map.old) (M.Map.room map.new) (M.Map.placed map.new) }
{
    let mapped = MappedBlocks {
        map,
        file,
        from: 0,
        to: lower.width(),
    };
    for at in mapped {
        copy_block(board, lower, file, at.block, at.board);
    }
}

/// The board blocks that some mapped blocks of a file have, and how many blocks these are.
// The count is no length of the set, which tells of two blocks at one board block once.
#[derive(Drop)]
pub struct Gathered {
    pub blocks: BlockSet,
    pub count: u32,
}

/// Gathers the board blocks of a file's mapped blocks from `from` up to and without `to`.
pub fn gather<M: Map>(map: &mut M, file: u32, from: u32, to: u32) -> Gathered
    ensures answer { Gathers (M.Map.placed map.old file) from to (member result.blocks) result.count }
    ensures map { MapStays (M.Map.room map.old) (M.Map.placed map.old) (M.Map.room map.new) (M.Map.placed map.new) }
{
    let mut blocks = BlockSet::new();
    let mut count = 0;
    let mapped = MappedBlocks {
        map,
        file,
        from,
        to,
    };
    for at in mapped {
        blocks.insert(at.board);
        count += 1;
    }
    Gathered { blocks, count }
}
