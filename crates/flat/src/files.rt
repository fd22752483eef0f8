//! The reading side that a flat store and a picture have in common.

ghost use Rattle.std.specs.Prelude.{◌≡◌};
ghost use Rattle.flat.specs.Flat.{Laid};

use lowers::Sizes;
use std::alloc::AllocError;
use std::convert::AsSlice;

/// Files of blocks in memory handed over, file by file.
/// What does not fill a file, and what lies behind 65,536 files, is left alone.
#[derive(Drop)]
pub struct Files<B: AsSlice<u8>> {
    pub(crate) sizes: Sizes,
    pub(crate) bytes: B,
    ghost laid: { Laid (B.AsSlice.items bytes) sizes.files sizes.width },
}

impl<B: AsSlice<u8> + Copy> Copy for Files<B> {}

/// By hand: none is derived over a ghost field and a parameter.
impl<B: AsSlice<u8> + Copy> Clone for Files<B> {
    ghost is_clone = { λ s t. t ≡ s };

    ghost is_infallible = { λ _. Unit {0} };

    fn clone(&self) -> Result<Self, AllocError> {
        Ok(*self)
    }
}
