//! Board blocks for the blocks of files: how a new block gets its place, and how blocks lose theirs.

#![tactic(auto)]

ghost use Rattle.std.specs.Prelude.{◌≡◌, ◌+◌, ◌<◌, ◌≤◌, None};
ghost use Rattle.ledger.specs.Free.{goal};
ghost use Rattle.pool.specs.Pool.{taken_in};
ghost use Rattle.walks.specs.Walks.{MapStays};
ghost use Rattle.claims.specs.Claims.{Claimed, claim_step};
ghost use Rattle.claims.specs.Leaves.{Vacated, vacate_step, LeftFile, leave_file};

use calls::StoreFault;
use faults::{Fault, Ground, Layer};
use maps::Map;
use pool::Pool;
use walks::{board_of, gather};

// A store lends its map and its pool, two fields of it, for each call, with the numbers as they came to it:
// a struct of the loans or of the numbers would be made and taken apart at each call.

/// The board number from which a new block looks for a free one, on a board of `size` blocks.
fn goal_of<M: Map>(map: &mut M, size: u32, file: u32, block: u32) -> u32
    ensures answer { 0 < size → result ≡ goal size (M.Map.placed map.old file) block }
    ensures map { MapStays (M.Map.room map.old) (M.Map.placed map.old) (M.Map.room map.new) (M.Map.placed map.new) }
{
    if size == 0 || block == 0 {
        return 0;
    }
    let wanted = board_of(map, file, block - 1).map_or(block, |number| number + 1);
    wanted % size
}

/// Takes a free board block for a block of a file and enters it as its place.
///
/// Refused if none is free, and if the map refuses; the board block is then free again.
pub fn claim<M: Map>(
    map: &mut M,
    pool: &mut Pool,
    size: u32,
    file: u32,
    block: u32,
) -> Result<u32, StoreFault>
    ensures room { M.Map.room map.new ≡ M.Map.room map.old }
    ensures step { ◌≡◌ {A = Claimed} (result, taken_in pool.new, M.Map.placed map.new) (claim_step M.Map.rule (M.Map.room map.old) size (taken_in pool.old) (M.Map.placed map.old) file block) }
{
    let goal = goal_of(map, size, file, block);
    let full = StoreFault::Own(Layer::Store.refusal(Ground::NoFreeBlock, file, block));
    let token = pool.take(goal, size).ok_or(full)?;
    let number = pool.settle(token.enter(map, file, block))?;
    Ok(number)
}

/// Takes the n blocks of a file from `first` on out of the map, gives their board blocks back, and tells how many these are.
///
/// If the map refuses, nothing is given back.
pub fn vacate<M: Map>(
    map: &mut M,
    pool: &mut Pool,
    file: u32,
    first: u32,
    n: u32,
) -> Result<u32, Fault>
    ensures room { M.Map.room map.new ≡ M.Map.room map.old }
    ensures step { ◌≡◌ {A = Vacated} (result, taken_in pool.new, M.Map.placed map.new) (vacate_step M.Map.rule (M.Map.room map.old) (taken_in pool.old) (M.Map.placed map.old) file first n) }
{
    let leaving = gather(map, file, first, first.saturating_add(n));
    map.clear(file, first, n)?;
    pool.give_back(&leaving.blocks);
    Ok(leaving.count)
}

/// Takes a whole file, of so many blocks, out of the map, gives its board blocks back, and tells how many these are.
pub fn vacate_file<M: Map>(map: &mut M, pool: &mut Pool, file: u32, width: u32) -> u32
    ensures room { M.Map.room map.new ≡ M.Map.room map.old }
    ensures step { ◌≡◌ {A = LeftFile} (result, taken_in pool.new, M.Map.placed map.new) (leave_file (taken_in pool.old) (M.Map.placed map.old) file width) }
{
    let leaving = gather(map, file, 0, width);
    // The number of a file that is there is not refused.
    let _ = map.forget(file);
    pool.give_back(&leaving.blocks);
    leaving.count
}
