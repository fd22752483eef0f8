//! Straight runs of blocks, and the walk that cuts one into keys.

ghost use Rattle.std.specs.Prelude.{◌≡◌, ℕ, ◌+◌, ◌-◌, ◌≤◌, if◌then◌else◌, MatchResult, nat_eq};
ghost use Rattle.extents.specs.Runs.{piece};
ghost use Rattle.run_keys.specs.declared.run.RunError.TheVariants.{Unadmitted, NoMemory};
ghost use Rattle.run_keys.specs.Walks.{Begun, Stepped, Planned, Unplanned};
ghost use Rattle.std.specs.Iterator.{at_most};

use crate::walk::{Run, Walk};
use blocks::{BOARD_BLOCKS, EXTENT_BLOCKS, NUMBERS};
use extents::key::Key;
use faults::Ground;
use std::alloc::{AllocError, AllocFailed, Global};

/// The length of the largest aligned extent that starts at a block and has at most so many blocks; 0 where none is left.
pub fn piece_length(block: u32, left: u32) -> u32
    ensures { result ≡ (if nat_eq left 0 then 0 else piece block (block + left)) }
{
    if left == 0 {
        return 0;
    }
    let aligned = block.trailing_zeros();
    let fitting = 31 - left.leading_zeros();
    1 << aligned.min(fitting).min(12)
}

impl Walk {
    /// A walk over the n blocks from `first`, which lie at the board numbers from `board` on.
    pub fn over(first: u32, n: u32, board: u32) -> Result<Walk, Ground>
        ensures { Begun first n board result }
    {
        if first >= NUMBERS || n > NUMBERS - first {
            return Err(Ground::Block);
        }
        if n == 0 || n > EXTENT_BLOCKS {
            return Err(Ground::Length);
        }
        if board > BOARD_BLOCKS || n > BOARD_BLOCKS - board {
            return Err(Ground::BoardNumber);
        }
        let run = Run {
            first,
            end: first + n,
            board,
        };
        Ok(run.walk())
    }
}

impl Iterator for Walk {
    type Item = Key;

    ghost next_gives = { Stepped };

    ghost remaining = { λ w. at_most (w.left.end - w.left.first) };

    #[tactic(auto, using(extents::proofs::Sizes::next_piece))]
    fn next(&mut self) -> Option<Key> {
        let Run { first, end, board } = self.left;
        if first == end {
            return None;
        }
        let length = piece_length(first, end - first);
        self.left = Run {
            first: first + length,
            end,
            board: board + length,
        };
        Some(Key {
            start: first as u16,
            length: length as u16,
            board: board as u16,
        })
    }
}

/// Why a run has no list of keys.
#[derive(Clone, Copy, PartialEq, Eq, Debug)]
pub enum RunError {
    /// The run is outside the numbers that there are.
    Unadmitted(Ground),
    /// No memory was found for the list.
    NoMemory,
}

/// By hand, as the next two: a clause names the case that `?` makes.
impl From<Ground> for RunError {
    ghost from_gives = { λ ground r. r ≡ Unadmitted ground };

    fn from(ground: Ground) -> RunError {
        RunError::Unadmitted(ground)
    }
}

impl From<AllocFailed<Key>> for RunError {
    ghost from_gives = { λ _ r. r ≡ NoMemory };

    fn from(_refused: AllocFailed<Key>) -> RunError {
        RunError::NoMemory
    }
}

impl From<AllocError> for RunError {
    ghost from_gives = { λ _ r. r ≡ NoMemory };

    fn from(_refused: AllocError) -> RunError {
        RunError::NoMemory
    }
}

/// The keys of the map that holds just one run, in rising order.
pub fn keys_of_run(heap: Global, first: u32, n: u32, board: u32) -> Result<Vec<Key>, RunError>
    ensures { MatchResult result (λ v. Planned first n board v.items) (Unplanned first n board) }
{
    Ok(Walk::over(first, n, board)?.collect(heap)?)
}
