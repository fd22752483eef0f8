//! The path functions under their C names.

#![tactic(auto)]

ghost use Rattle.std.specs.Prelude.{◌≡◌};
ghost use Rattle.extents.specs.Extents.{length_of_path, key_on_path};

/// How many keys the look-up of a block may try; 0 for a block above 65,535.
#[unsafe(no_mangle)]
pub extern "C" fn path_length(block: u32) -> u32
    ensures { result ≡ length_of_path block }
{
    paths::path_length(block)
}

/// The k-th key that the look-up of a block tries, from 0; 65,536 where there is none.
#[unsafe(no_mangle)]
pub extern "C" fn path_key(block: u32, k: u32) -> u32
    ensures { result ≡ key_on_path block k }
{
    paths::path_key(block, k)
}
