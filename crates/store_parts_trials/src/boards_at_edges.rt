ghost use Rattle.std.specs.Prelude.{◌≡◌, ◌*◌, is_ok, if◌then◌else◌};
ghost use Rattle.memory.specs.Memory.{overlaid};

use crate::answers::refusal;
use blocks::BLOCK_BYTES;
use boards::{Board, JoinedBoard, MemoryBoard};
use faults::Fault;
use std::test::Fail;

/// What a read into a block of nines tells: the refusal, and the last byte of the buffer.
fn read<B: Board>(board: &mut B, number: u32) -> (u32, u8) {
    let mut buffer = [9u8; BLOCK_BYTES];
    let (ground, _) = refusal(board.read(number, &mut buffer));
    (ground, buffer[BLOCK_BYTES - 1])
}

/// What a write of a block of ones tells.
fn write<B: Board>(board: &mut B, number: u32) -> (u32, u32) {
    refusal(board.write(number, &[1u8; BLOCK_BYTES]))
}

/// Lends the memory to a board for one write: every byte of it is known afterwards.
fn write_to(memory: &mut [u8], number: u32, from: &[u8]) -> Result<(), Fault>
    ensures { memory.new ≡ (if is_ok result then overlaid memory.old (number * 4096) from.now else memory.old) }
{
    let mut board = MemoryBoard::new(memory);
    board.write(number, from)
}

/// The bytes around the start and around the end of a block.
fn around(memory: &[u8], block: usize) -> [Option<u8>; 4] {
    let at = block.saturating_mul(BLOCK_BYTES);
    let end = at.saturating_add(BLOCK_BYTES);
    [
        memory.get(at.saturating_sub(1)).copied(),
        memory.get(at).copied(),
        memory.get(end.saturating_sub(1)).copied(),
        memory.get(end).copied(),
    ]
}

#[test]
fn no_block_at_all(rt: HostRuntime) {
    let mut none = [7u8; 0];
    let mut board = MemoryBoard::new(&mut none);
    assert_eq!(rt; board.blocks(), 0);
    assert_eq!(rt;
        (read(&mut board, 0), write(&mut board, 3)),
        ((6, 9), (6, 3))
    );
}

#[test]
fn one_byte_short_of_a_block(rt: HostRuntime) {
    let mut short = [7u8; BLOCK_BYTES - 1];
    let mut board = MemoryBoard::new(&mut short);
    assert_eq!(rt; (board.blocks(), write(&mut board, 0)), (0, (6, 0)));
}

#[test]
fn buffers_of_another_length(rt: HostRuntime) {
    let mut memory = [7u8; BLOCK_BYTES];
    let mut board = MemoryBoard::new(&mut memory);
    let mut short = [9u8; BLOCK_BYTES - 1];
    assert_eq!(rt; refusal(board.read(0, &mut short)), (5, 0));
    assert_eq!(rt;
        refusal(board.read(1, &mut short)),
        (5, 1),
        "the buffer is tried before the number"
    );
    assert_eq!(rt; short[0], 9);
    assert_eq!(rt; refusal(board.write(0, &[1u8; BLOCK_BYTES + 1])), (5, 0));
}

#[test]
fn one_block_more_than_a_board_has(rt: HostRuntime) -> Result<(), Fail> {
    let mut memory = vec![in rt.alloc(); 7u8; 4097 * BLOCK_BYTES]?;
    let mut board = MemoryBoard::new(memory.as_mut_slice());
    assert_eq!(rt; board.blocks(), 4096);
    assert_eq!(rt;
        (write(&mut board, 4096), write(&mut board, 4095)),
        ((6, 4096), (0, 0))
    );
    assert_eq!(rt;
        (read(&mut board, 4094), read(&mut board, 4095)),
        ((0, 7), (0, 1))
    );
    assert_eq!(rt;
        around(memory.as_slice(), 4095),
        [Some(7), Some(1), Some(1), Some(7)]
    );
    Ok(())
}

#[test]
fn joined_boards_are_cut(rt: HostRuntime) -> Result<(), Fail> {
    let mut front = vec![in rt.alloc(); 7u8; 3000 * BLOCK_BYTES]?;
    let mut back = vec![in rt.alloc(); 8u8; 2000 * BLOCK_BYTES]?;
    let left = MemoryBoard::new(front.as_mut_slice());
    let right = MemoryBoard::new(back.as_mut_slice());
    let mut board = JoinedBoard::new(left, right);
    assert_eq!(rt; board.blocks(), 4096);
    assert_eq!(rt;
        (write(&mut board, 4096), write(&mut board, 4095)),
        ((6, 4096), (0, 0))
    );
    assert_eq!(rt;
        (read(&mut board, 2999), read(&mut board, 3000)),
        ((0, 7), (0, 8))
    );
    let (_left, mut right) = board.into_parts();
    assert_eq!(rt;
        (read(&mut right, 1095), read(&mut right, 1096)),
        ((0, 1), (0, 8))
    );
    Ok(())
}

#[test]
fn joined_with_an_empty_half(rt: HostRuntime) {
    let mut none = [0u8; 0];
    let mut one = [8u8; BLOCK_BYTES];
    let mut behind = JoinedBoard::new(MemoryBoard::new(&mut none), MemoryBoard::new(&mut one));
    assert_eq!(rt; behind.blocks(), 1);
    assert_eq!(rt;
        (read(&mut behind, 0), read(&mut behind, 1)),
        ((0, 8), (6, 9))
    );
    let (none, one) = behind.into_parts();
    let mut before = JoinedBoard::new(one, none);
    assert_eq!(rt; before.blocks(), 1);
    assert_eq!(rt;
        (read(&mut before, 0), read(&mut before, 1)),
        ((0, 8), (6, 9))
    );
}
