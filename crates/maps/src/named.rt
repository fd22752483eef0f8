//! The extent that a call of a map names.

ghost use Rattle.std.specs.Prelude.{◌≡◌, ◌+◌, ◌≤◌, OnOk};
ghost use Rattle.maps.specs.Steps.{answer, ground_of_extent, ground_of_assign};
ghost use Rattle.maps.specs.Named.{numbers_in};

use crate::extent::Extent;
use blocks::{BOARD_BLOCKS, EXTENT_BLOCKS, NUMBERS};
use faults::{Fault, Ground, Layer};

impl Extent {
    /// The n blocks of a file from `first` on, or the map's refusal of an extent past the last file or block,
    /// of one of no block, and of one of too many.
    pub fn named(file: u32, first: u32, n: u32) -> Result<Extent, Fault>
        ensures { numbers_in result ≡ answer file first (ground_of_extent file first n) (file, first, n) }
    {
        let (narrow_file, _) = Layer::Map.narrow(file, first)?;
        let refused = |ground: Ground| Layer::Map.refusal(ground, file, first);
        if n > NUMBERS - first {
            return Err(refused(Ground::Block));
        }
        if n == 0 || n > EXTENT_BLOCKS {
            return Err(refused(Ground::Length));
        }
        Ok(Extent {
            file: narrow_file,
            first,
            n,
        })
    }

    /// The same for blocks that are to lie at the board numbers from `board` on, of which none may be past the last.
    pub fn on_board(file: u32, first: u32, n: u32, board: u32) -> Result<Extent, Fault>
        ensures answer { numbers_in result ≡ answer file first (ground_of_assign file first n board) (file, first, n) }
        ensures fits { OnOk result (board + n ≤ 4096) }
    {
        let extent = Extent::named(file, first, n)?;
        if board > BOARD_BLOCKS - n {
            return Err(Layer::Map.refusal(Ground::BoardNumber, file, first));
        }
        Ok(extent)
    }
}
