//! Extents that are within the numbers of a map.

ghost use Rattle.std.specs.Prelude.{◌+◌, ◌<◌, ◌≤◌};

/// The n blocks of a file from `first` on, within the numbers of a map.
///
/// A call brings bare numbers, since what is no extent has to reach the map to be refused.
#[derive(Clone, Copy)]
pub struct Extent {
    pub file: u16,
    pub first: u32,
    pub n: u32,
    pub ghost within: { first + n ≤ 65536 },
    pub ghost some: { 0 < n },
    pub ghost few: { n ≤ 4096 },
}
