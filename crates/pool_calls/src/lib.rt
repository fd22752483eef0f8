//! Two pieces of code that call the pool, and treat its tokens as they must.

#![tactic(auto)]

ghost use Rattle.std.specs.Prelude.{◌≡◌};
ghost use Rattle.ledger.specs.Free.{free_from};
ghost use Rattle.maps.specs.Steps.{Outcome};
ghost use Rattle.pool.specs.Pool.{taken_in, board_size};
ghost use Rattle.pool_calls.specs.Two.{Told, two_entered};

use maps::Map;
use pool::Pool;

/// Which board block would be taken: takes one, and hands it back.
pub fn next_free(pool: &mut Pool, goal: u32, size: u32) -> Option<u32>
    ensures answer { result ≡ free_from (taken_in pool.old) (board_size size) goal }
    ensures same { taken_in pool.new ≡ taken_in pool.old }
{
    let token = pool.take(goal, size)?;
    let number = token.number();
    pool.hand_back(token);
    Some(number)
}

/// Takes a board block for a block of a file and one more for another, and enters both, as far as that goes.
/// Tells the place of the second.
pub fn enter_two<M: Map>(
    pool: &mut Pool,
    map: &mut M,
    file: u32,
    block: u32,
    other: u32,
    size: u32,
) -> Option<u32>
    ensures room { M.Map.room map.new ≡ M.Map.room map.old }
    ensures step { ◌≡◌ {A = Told} (result, taken_in pool.new, M.Map.placed map.new) (two_entered M.Map.rule (M.Map.room map.old) size file block other (taken_in pool.old) (M.Map.placed map.old)) }
{
    let first = pool.take(block, size)?;
    pool.settle(first.enter(map, file, block)).ok()?;
    let second = pool.take(other, size)?;
    pool.settle(second.enter(map, file, other)).ok()
}
