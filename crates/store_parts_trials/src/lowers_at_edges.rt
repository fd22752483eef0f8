ghost use Rattle.std.specs.Prelude.{◌≡◌, ◌*◌, replicate, is_ok, if◌then◌else◌};
ghost use Rattle.memory.specs.Memory.{overlaid};
ghost use Rattle.flat.specs.Flat.{width_of, index_of};

use crate::answers::refusal;
use blocks::BLOCK_BYTES;
use faults::Fault;
use flat::{FlatStore, Picture};
use lowers::{Lower, Reading, carry};
use std::test::Fail;

/// The number of a refusal, and 0 for a granted call.
fn ground(r: Result<(), Fault>) -> u32 {
    refusal(r).0
}

/// What a read into a block of nines tells: the ground of refusal, and the last byte of the buffer.
fn read<S: Reading>(side: &mut S, file: u32, block: u32) -> (u32, u8) {
    let mut buffer = [9u8; BLOCK_BYTES];
    let told = ground(side.read(file, block, &mut buffer));
    (told, buffer[BLOCK_BYTES - 1])
}

/// What a write of a block of ones tells.
fn write<T: Lower>(store: &mut T, file: u32, block: u32) -> u32 {
    ground(store.write(file, block, &[1u8; BLOCK_BYTES]))
}

/// Lends the memory to a flat store for one clear: every byte of it is known afterwards.
fn clear_in(memory: &mut [u8], width: u32, file: u32, first: u32, n: u32) -> Result<(), Fault>
    ensures { memory.new ≡ (if is_ok result then overlaid memory.old (index_of (width_of width) file first * 4096) (replicate (n * 4096) 0) else memory.old) }
{
    let mut store = FlatStore::new(memory, width);
    store.clear(file, first, n)
}

#[test]
fn files_of_no_block(rt: HostRuntime) {
    let mut memory = [7u8; BLOCK_BYTES];
    let mut store = FlatStore::new(&mut memory, 0);
    assert_eq!(rt;
        (store.files(), store.width(), write(&mut store, 0, 0)),
        (0, 0, 2)
    );
}

#[test]
fn files_of_too_many_blocks(rt: HostRuntime) {
    let mut memory = [7u8; BLOCK_BYTES];
    let store = FlatStore::new(&mut memory, 65537);
    assert_eq!(rt; (store.files(), store.width()), (0, 0));
}

#[test]
fn widest_files_and_none_fits(rt: HostRuntime) {
    let mut memory = [7u8; BLOCK_BYTES];
    let mut store = FlatStore::new(&mut memory, 65536);
    assert_eq!(rt; (store.files(), store.width()), (0, 65536));
    assert_eq!(rt;
        (read(&mut store, 0, 65535), ground(store.clear(0, 0, 1))),
        ((2, 9), 2)
    );
}

#[test]
fn last_block_of_the_last_file(rt: HostRuntime) -> Result<(), Fail> {
    let mut memory = vec![in rt.alloc(); 7u8; 7 * BLOCK_BYTES - 1]?;
    let mut store = FlatStore::new(memory.as_mut_slice(), 2);
    assert_eq!(rt; (store.files(), store.width()), (3, 2));
    assert_eq!(rt;
        (
            write(&mut store, 2, 2),
            write(&mut store, 3, 0),
            write(&mut store, 2, 1),
        ),
        (3, 2, 0)
    );
    assert_eq!(rt;
        (read(&mut store, 2, 0), read(&mut store, 2, 1)),
        ((0, 7), (0, 1))
    );
    assert_eq!(rt;
        (ground(store.clear(2, 1, 1)), read(&mut store, 2, 1)),
        (0, (0, 0))
    );
    let ends = (
        memory.get(5 * BLOCK_BYTES - 1).copied(),
        memory.get(6 * BLOCK_BYTES).copied(),
    );
    assert_eq!(rt;
        ends,
        (Some(7), Some(7)),
        "what does not fill a file is left alone"
    );
    Ok(())
}

#[test]
fn grounds_in_rising_number(rt: HostRuntime) {
    let mut memory = [7u8; 2 * BLOCK_BYTES];
    let mut store = FlatStore::new(&mut memory, 2);
    assert_eq!(rt;
        (
            ground(store.write(1, 2, &[])),
            ground(store.write(0, 2, &[])),
            ground(store.write(0, 1, &[])),
        ),
        (2, 3, 5)
    );
    assert_eq!(rt;
        (
            ground(store.clear(1, 2, 0)),
            ground(store.clear(0, 2, 0)),
            ground(store.clear(0, 1, 0)),
        ),
        (2, 3, 4)
    );
    assert_eq!(rt;
        (
            ground(store.clear(0, 1, 2)),
            ground(store.clear(0, 1, 4294967295)),
        ),
        (3, 3)
    );
}

#[test]
fn extents_have_a_limit(rt: HostRuntime) -> Result<(), Fail> {
    let mut memory = vec![in rt.alloc(); 7u8; 4098 * BLOCK_BYTES]?;
    let mut store = FlatStore::new(memory.as_mut_slice(), 4098);
    assert_eq!(rt;
        (
            ground(store.clear(0, 1, 4097)),
            ground(store.clear(0, 1, 4096)),
        ),
        (4, 0)
    );
    assert_eq!(rt;
        (read(&mut store, 0, 0), read(&mut store, 0, 1)),
        ((0, 7), (0, 0))
    );
    assert_eq!(rt;
        (read(&mut store, 0, 4096), read(&mut store, 0, 4097)),
        ((0, 0), (0, 7))
    );
    Ok(())
}

#[test]
fn carried_within_both(rt: HostRuntime) {
    let season = [8u8; 4 * BLOCK_BYTES];
    let mut memory = [7u8; 3 * BLOCK_BYTES];
    let mut picture = Picture::new(&season, 2);
    let mut store = FlatStore::new(&mut memory, 3);
    assert_eq!(rt; ground(carry(&mut picture, &mut store, 1, 0)), 2);
    assert_eq!(rt; ground(carry(&mut picture, &mut store, 0, 2)), 3);
    assert_eq!(rt; ground(carry(&mut picture, &mut store, 0, 1)), 0);
    assert_eq!(rt;
        (read(&mut store, 0, 0), read(&mut store, 0, 1)),
        ((0, 7), (0, 8))
    );
}
