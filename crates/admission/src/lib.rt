//! Whether the arguments of a store's call admit it, by the sizes of the lower store.

#![tactic(auto)]

ghost use Rattle.std.specs.Prelude.{◌≡◌, Ok};
ghost use Rattle.ledger.specs.Store.{unless};
ghost use Rattle.lowers.specs.Lowers.{ground_of_block, ground_of_extent};
ghost use Rattle.admission.specs.Admission.{ground_of_write, ground_of_file};

use calls::StoreFault;
use faults::{Ground, Layer};
use lowers::{Lower, Reading};

/// Whether a read of a block with a buffer of so many bytes is admitted.
pub fn admit_read<L: Lower>(lower: &L, file: u32, block: u32, len: usize) -> Result<(), StoreFault>
    ensures { result ≡ unless (ground_of_block (L.Reading.files lower.now) (L.Reading.width lower.now) file block len) file block (Ok tt) }
{
    let ground = lower.sizes().block_ground(file, block, len);
    own_unless(ground, file, block)
}

/// Whether a write is.
pub fn admit_write<L: Lower>(
    lower: &L,
    file: u32,
    block: u32,
    mark: u32,
    len: usize,
) -> Result<(), StoreFault>
    ensures { result ≡ unless (ground_of_write (L.Reading.files lower.now) (L.Reading.width lower.now) file block mark len) file block (Ok tt) }
{
    let bad_mark = (mark > 1).then_some(Ground::Mark);
    let ground = bad_mark.or(lower.sizes().block_ground(file, block, len));
    own_unless(ground, file, block)
}

/// Whether a clear of the n blocks from the first on is.
pub fn admit_clear<L: Lower>(lower: &L, file: u32, first: u32, n: u32) -> Result<(), StoreFault>
    ensures { result ≡ unless (ground_of_extent (L.Reading.files lower.now) (L.Reading.width lower.now) file first n) file first (Ok tt) }
{
    let ground = lower.sizes().extent_ground(file, first, n);
    own_unless(ground, file, first)
}

/// Whether a call of a whole file is.
pub fn admit_file<L: Lower>(lower: &L, file: u32) -> Result<(), StoreFault>
    ensures { result ≡ unless (ground_of_file (L.Reading.files lower.now) file) file 0 (Ok tt) }
{
    let ground = (file >= lower.files()).then_some(Ground::File);
    own_unless(ground, file, 0)
}

/// The store's own fault where there is a ground for it.
fn own_unless(ground: Option<Ground>, file: u32, block: u32) -> Result<(), StoreFault>
    ensures { result ≡ unless ground file block (Ok tt) }
{
    Layer::Store
        .grant_unless(ground, file, block)
        .map_err(StoreFault::Own)
}
