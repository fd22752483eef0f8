//! A picture of bytes that are no longer changed.

ghost use Rattle.std.specs.Prelude.{◌≡◌, length};
ghost use Rattle.flat.specs.Flat.{width_of, files_in};

use crate::files::Files;
use crate::layout::whole_files;

/// Last season's bytes, laid out like a flat store, to be read and nothing else.
pub type Picture<'a> = Files<&'a [u8]>;

impl<'a> Picture<'a> {
    /// Lays the bytes out as files of `width` blocks.
    pub fn new(bytes: &'a [u8], width: u32) -> Self
        ensures memory { result.bytes.now ≡ bytes.now }
        ensures width { result.sizes.width ≡ width_of width }
        ensures files { result.sizes.files ≡ files_in (length bytes.now) (width_of width) }
    {
        let sizes = whole_files(bytes.len(), width);
        Files { sizes, bytes }
    }
}
