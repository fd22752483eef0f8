//! The trials.

ghost use Rattle.std.specs.Prelude.{◌≤◌};

use crate::model::{FILES, Model, Rule};
use block_map::block_map::BlockMap;
use cached_map::cached::CachedMap;
use extent_map::map::ExtentMap;
use faults::Fault;
use maps::Map;
use ordered::OrderedTable;
use probing::table::ProbingTable;
use std::alloc::Global;
use std::process::Abort;
use std::test::Fail;
use tables::spread::{Level, Mixing};
use tables::table::Table;

/// How many calls a trial makes.
const CALLS: u32 = 120;

/// Numbers that look random, the same at every run.
#[derive(Clone, Copy)]
struct Dice {
    state: u64,
}

impl Dice {
    fn roll(&mut self, sides: u32) -> u32
        ensures { result ≤ sides }
    {
        self.state = self
            .state
            .wrapping_mul(6364136223846793005)
            .wrapping_add(1442695040888963407);
        let high = (self.state >> 33) as u32;
        if sides == 0 { 0 } else { high % sides }
    }
}

/// A call of a map.
#[derive(Clone, Copy)]
enum Call {
    Assign(u32, u32, u32, u32),
    Clear(u32, u32, u32),
    Forget(u32),
}

/// A first block near one of the places where things go wrong.
fn first_block(dice: &mut Dice) -> u32 {
    let near = dice.roll(24);
    match dice.roll(6) {
        0 => near,
        1 => 4084 + near,
        2 => 8180 + near,
        3 => 65512 + near,
        4 => 61436 + near,
        _ => dice.roll(65538),
    }
}

fn length(dice: &mut Dice) -> u32 {
    match dice.roll(8) {
        0..=3 => 1 + dice.roll(9),
        4 => 1,
        5 => 1 + dice.roll(64),
        6 => 1 + dice.roll(4096),
        _ => dice.roll(4099),
    }
}

/// Most extents are assigned at numbers that run on from their neighbours'.
fn board_number(dice: &mut Dice, first: u32) -> u32 {
    match dice.roll(5) {
        0 => dice.roll(4098),
        1 => first % 4096 / 2,
        _ => first % 4096,
    }
}

fn next_call(dice: &mut Dice) -> Call {
    let file = match dice.roll(40) {
        0 => 65536 + dice.roll(3),
        1..=13 => 1,
        14..=26 => 65535,
        _ => 0,
    };
    let first = first_block(dice);
    let n = length(dice);
    match dice.roll(20) {
        0..=10 => Call::Assign(file, first, n, board_number(dice, first)),
        11..=18 => Call::Clear(file, first, n),
        _ => Call::Forget(file),
    }
}

/// Looks at blocks near the call, and at some others.
fn compare<M: Map>(
    rt: &impl Abort,
    map: &mut M,
    model: &Model,
    dice: &mut Dice,
    near: u32,
) -> Result<(), Fail> {
    for file in FILES {
        for ahead in near..near.saturating_add(40) {
            let block = ahead.saturating_sub(20) % 65536;
            assert_eq!(rt; map.find(file, block)?, model.at(file, block));
            let block = dice.roll(65536);
            assert_eq!(rt; map.find(file, block)?, model.at(file, block));
        }
        let from = near % 65536;
        assert_eq!(rt;
            map.next(file, from)?,
            model.lowest(file, from, 65536u32.saturating_sub(from))
        );
    }
    Ok(())
}

/// Compares every block of every file.
fn compare_all<M: Map>(rt: &impl Abort, map: &mut M, model: &Model) -> Result<(), Fail> {
    for file in FILES {
        for block in 0..65536u32 {
            assert_eq!(rt; map.find(file, block)?, model.at(file, block));
        }
    }
    Ok(())
}

/// Makes random calls on a map and on a model beside it, with this rule and room, and compares what they answer and hold.
fn run<M: Map>(
    rt: &impl Abort,
    heap: Global,
    map: &mut M,
    rule: Rule,
    room: u32,
    seed: u64,
) -> Result<Model, Fail> {
    let mut model = Model::new(heap, rule, room)?;
    let mut dice = Dice { state: seed };
    for _ in 0..CALLS {
        let near = match next_call(&mut dice) {
            Call::Assign(file, first, n, board) => {
                assert_eq!(rt;
                    map.assign(file, first, n, board),
                    model.assign(file, first, n, board)
                );
                first
            }
            Call::Clear(file, first, n) => {
                assert_eq!(rt;
                    map.clear(file, first, n),
                    model.clear(heap, file, first, n)?
                );
                first
            }
            Call::Forget(file) => {
                assert_eq!(rt; map.forget(file), model.forget(file));
                0
            }
        };
        compare(rt, map, &model, &mut dice, near)?;
    }
    compare_all(rt, map, &model)?;
    Ok(model)
}

/// An extent map over a table, with as many keys held in the end as the model counts.
fn extents<T: Table + Drop>(
    rt: &impl Abort,
    heap: Global,
    table: T,
    room: u32,
    seed: u64,
) -> Result<(), Fail> {
    let mut map = ExtentMap::new(table);
    let model = run(rt, heap, &mut map, Rule::Extents, room, seed)?;
    assert_eq!(rt; map.keys_held(), model.keys());
    Ok(())
}

fn single_blocks<T: Table + Drop>(
    rt: &impl Abort,
    heap: Global,
    table: T,
    room: u32,
    seed: u64,
) -> Result<(), Fail> {
    let mut map = BlockMap::new(table);
    run(rt, heap, &mut map, Rule::Blocks, room, seed)?;
    Ok(())
}

fn cached<M: Map + Drop>(
    rt: &impl Abort,
    heap: Global,
    map: M,
    rule: Rule,
    room: u32,
    seed: u64,
) -> Result<(), Fail> {
    let mut map = CachedMap::new(map);
    run(rt, heap, &mut map, rule, room, seed)?;
    Ok(())
}

#[test]
fn extents_with_room(rt: HostRuntime) -> Result<(), Fail> {
    let heap = rt.alloc();
    extents(&rt, heap, ProbingTable::new(heap, 2048, Mixing)?, 2048, 1)?;
    extents(&rt, heap, OrderedTable::new(heap, 2048)?, 2048, 2)
}

#[test]
fn extents_in_a_crowded_table(rt: HostRuntime) -> Result<(), Fail> {
    let heap = rt.alloc();
    extents(&rt, heap, ProbingTable::new(heap, 40, Level)?, 40, 3)?;
    extents(&rt, heap, OrderedTable::new(heap, 12)?, 12, 4)?;
    extents(&rt, heap, ProbingTable::new(heap, 1, Mixing)?, 1, 5)?;
    extents(&rt, heap, OrderedTable::new(heap, 0)?, 0, 6)
}

#[test]
fn single_blocks_with_and_without_room(rt: HostRuntime) -> Result<(), Fail> {
    let heap = rt.alloc();
    single_blocks(&rt, heap, ProbingTable::new(heap, 2048, Mixing)?, 2048, 7)?;
    single_blocks(&rt, heap, OrderedTable::new(heap, 2048)?, 2048, 8)?;
    single_blocks(&rt, heap, ProbingTable::new(heap, 60, Level)?, 60, 9)?;
    single_blocks(&rt, heap, OrderedTable::new(heap, 5)?, 5, 10)
}

#[test]
fn remembered_translations(rt: HostRuntime) -> Result<(), Fail> {
    let heap = rt.alloc();
    let map = ExtentMap::new(ProbingTable::new(heap, 2048, Mixing)?);
    cached(&rt, heap, map, Rule::Extents, 2048, 11)?;
    let map = ExtentMap::new(OrderedTable::new(heap, 30)?);
    cached(&rt, heap, map, Rule::Extents, 30, 12)?;
    let map = BlockMap::new(OrderedTable::new(heap, 500)?);
    cached(&rt, heap, map, Rule::Blocks, 500, 13)
}
