//! The look-up path of a block, as a driver in C asks for it: the numbers 0 and 65,536 stand for none.

#![tactic(auto)]

ghost use Rattle.std.specs.Prelude.{◌≡◌};
ghost use Rattle.extents.specs.Extents.{length_of_path, key_on_path};

use extents::path::Path;

/// How many keys the look-up of a block may try; 0 for a block above 65,535.
pub fn path_length(block: u32) -> u32
    ensures { result ≡ length_of_path block }
{
    let Ok(block) = u16::try_from(block) else {
        return 0;
    };
    // The ones are counted, which is quicker than to walk the path.
    1 + (block & 4095).count_ones()
}

/// The k-th key that the look-up of a block tries, from 0; 65,536 where there is none.
pub fn path_key(block: u32, k: u32) -> u32
    ensures { result ≡ key_on_path block k }
{
    let Ok(first) = u16::try_from(block) else {
        return 65536;
    };
    // The first key starts at the block. The others are counted, which is quicker here than `nth`.
    let mut path = Path::of(first);
    let _ = path.next();
    if k == 0 {
        return block;
    }
    let mut i = 1;
    for start in path {
        if i == k {
            return u32::from(start);
        }
        i += 1;
    }
    65536
}
