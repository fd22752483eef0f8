//! Carrying all that a reading side has to a lower store, and comparing bytes afterwards.

#![tactic(auto)]

ghost use Rattle.std.specs.Prelude.{◌≡◌, ◌+◌, ◌-◌, ◌*◌, ◌<◌, ◌≤◌, ◌==◌, min, not, length, count_by, zip};
ghost use Rattle.lowers.specs.Lowers.{Holds};
ghost use Rattle.carrying.specs.Carrying.{file_carried, blocks_carried, all_carried, differing};

use lowers::{Lower, Reading, carry};

/// What carrying came to, in blocks.
#[derive(Clone, Copy, PartialEq, Eq, Debug)]
pub struct Summary {
    pub carried: u64,
    pub refused: u64,
}

/// Carries the first `width` blocks of one file, as far as both sides reach, and tells how many it carried.
fn carry_file<S: Reading, T: Lower>(source: &mut S, target: &mut T, file: u32, width: u32) -> u32
    ensures few { result ≤ width }
    ensures count { result ≡ blocks_carried (min (S.Reading.files source.old) (T.Reading.files target.old)) (min (S.Reading.width source.old) (T.Reading.width target.old)) file width }
    ensures target { Holds (T.Reading.files target.old) (T.Reading.width target.old) (file_carried (min (S.Reading.files source.old) (T.Reading.files target.old)) (min (S.Reading.width source.old) (T.Reading.width target.old)) (S.Reading.bytes source.old) file width (T.Reading.bytes target.old)) (T.Reading.files target.new) (T.Reading.width target.new) (T.Reading.bytes target.new) }
    ensures source { Holds (S.Reading.files source.old) (S.Reading.width source.old) (S.Reading.bytes source.old) (S.Reading.files source.new) (S.Reading.width source.new) (S.Reading.bytes source.new) }
{
    let mut carried = 0;
    // A loop and no chain: its step changes both sides, and of what a closure changes a chain tells a proof nothing.
    for block in 0..width {
        if carry(source, target, file, block).is_ok() {
            carried += 1;
        }
    }
    carried
}

/// Carries every block of the source that the target has a place for, and counts these and the others.
pub fn carry_all<S: Reading, T: Lower>(source: &mut S, target: &mut T) -> Summary
    ensures carried { result.carried ≡ (min (S.Reading.files source.old) (T.Reading.files target.old)) * (min (S.Reading.width source.old) (T.Reading.width target.old)) }
    ensures refused { result.carried + result.refused ≡ (S.Reading.files source.old) * (S.Reading.width source.old) }
    ensures target { Holds (T.Reading.files target.old) (T.Reading.width target.old) (all_carried (min (S.Reading.files source.old) (T.Reading.files target.old)) (min (S.Reading.width source.old) (T.Reading.width target.old)) (S.Reading.bytes source.old) (T.Reading.bytes target.old)) (T.Reading.files target.new) (T.Reading.width target.new) (T.Reading.bytes target.new) }
    ensures source { Holds (S.Reading.files source.old) (S.Reading.width source.old) (S.Reading.bytes source.old) (S.Reading.files source.new) (S.Reading.width source.new) (S.Reading.bytes source.new) }
{
    let width = source.width();
    let mut carried = 0;
    let mut refused = 0;
    // A loop and no chain: its step changes both sides.
    for file in 0..source.files() {
        let blocks = carry_file(source, target, file, width);
        carried += u64::from(blocks);
        refused += u64::from(width - blocks);
    }
    Summary { carried, refused }
}

/// How many bytes differ, place by place, as far as both sides reach.
pub fn bytes_differing(left: &[u8], right: &[u8]) -> usize
    ensures { result ≡ differing (min (length left.now) (length right.now)) left.now right.now }
{
    pairs_differing(left, right)
}

/// How many pairs of bytes at the same place are of two that differ.
/// (A function of its own: by its clause a caller knows what the chain counts.)
fn pairs_differing(left: &[u8], right: &[u8]) -> usize
    ensures { result ≡ count_by (λ p. not (p.0 == p.1)) (zip left.now right.now) }
{
    left.iter()
        .zip(right.iter())
        .map(|(l, r)| usize::from(l != r))
        .sum()
}
