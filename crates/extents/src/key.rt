//! A key.

ghost use Rattle.std.specs.Prelude.{◌≡◌, ◌+◌};
ghost use Rattle.blocks.specs.Blocks.{inside};
ghost use Rattle.extents.specs.Extents.{entry as entry_of, key};

use blocks::Entry;

/// A key: an aligned extent of blocks, and the board number of its first.
#[derive(Clone, Copy, PartialEq, Eq, Debug)]
pub struct Key {
    pub start: u16,
    pub length: u16,
    pub board: u16,
}

impl Key {
    /// The key of an entry that stands at a start.
    pub fn at(start: u16, entry: Entry) -> Key
        ensures { result ≡ key start entry.length entry.board }
    {
        Key {
            start,
            length: entry.length,
            board: entry.board,
        }
    }

    /// What stands at the key's start.
    pub fn entry(self) -> Entry
        ensures { result ≡ entry_of self.length self.board }
    {
        Entry {
            length: self.length,
            board: self.board,
        }
    }

    /// Whether the key's extent contains a block.
    pub fn contains(self, block: u16) -> bool
        ensures { result ≡ inside self.start self.length block }
    {
        self.start <= block && block - self.start < self.length
    }

    /// The block behind the key's extent.
    pub fn end(self) -> u32
        ensures { result ≡ self.start + self.length }
    {
        u32::from(self.start) + u32::from(self.length)
    }
}
