//! How files of blocks lie in memory, one behind the other.

ghost use Rattle.std.specs.Prelude.{◌≡◌, ◌*◌, ◌^◌, ◌<◌, ◌≤◌};
ghost use Rattle.flat.specs.Flat.{width_of, files_in, index_of};

use blocks::{BLOCK_BYTES, NUMBERS};
use lowers::Sizes;

/// The whole files of so many blocks that fit into so many bytes.
pub(crate) fn whole_files(bytes: usize, width: u32) -> Sizes
    ensures { (result.width ≡ width_of width) × (result.files ≡ files_in bytes (width_of width)) × (result.width ≤ 65536) }
{
    if width == 0 || width > NUMBERS {
        return Sizes { files: 0, width: 0 };
    }
    let files = (bytes / (width as usize * BLOCK_BYTES)).min(NUMBERS as usize);
    Sizes {
        files: files as u32,
        width,
    }
}

/// Where a block starts in memory.
pub(crate) fn start(sizes: Sizes, file: u32, block: u32) -> usize
    requires { index_of sizes.width file block * 4096 < 2 ^ 64 }
    ensures { result ≡ index_of sizes.width file block * 4096 }
{
    (file as usize * sizes.width as usize + block as usize) * BLOCK_BYTES
}
