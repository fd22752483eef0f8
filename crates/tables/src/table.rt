//! A key table, by its meaning.

ghost use Rattle.std.specs.Prelude.{◌≡◌, ℕ, ◌≤◌, not, is_some, if◌then◌else◌, Some, None, Option};
ghost use Rattle.blocks.specs.Blocks.{tally, changed, only};
ghost use Rattle.tables.specs.Calls.{answer, leaves, ground_of_key, ground_of_put};
ghost use Rattle.tables.specs.Holding.{Holding, Numbered, nothing, full, lowest_row};

use crate::row::*;
use blocks::Entry;
use faults::{Fault, Ground, Layer};

/// Holds entries under keys, a key being a file and a block.
///
/// The calls `get`, `put`, `drop` and `lowest` take any numbers, and refuse those above 65,535.
/// For code that has checked its numbers there are the same calls over 16 bits, which refuse nothing:
/// `find`, `store`, `remove` and `first_from`.
pub trait Table {
    /// The entry under each key.
    ghost holding: { Self → Holding };

    /// How many keys there is room for.
    ghost places: { Self → ℕ };

    /// How many keys there is room for.
    fn room(&self) -> u32
        ensures { result ≡ places self.now };

    /// How many keys are held.
    fn held(&self) -> u32
        ensures { result ≡ tally (holding self.now) };

    /// Drops all keys.
    fn empty(&mut self)
        ensures room { places self.new ≡ places self.old }
        ensures after { holding self.new ≡ nothing };

    /// The entry under a key.
    fn find(&self, file: u16, block: u16) -> Option<Entry>
        ensures { result ≡ holding self.now file block };

    /// Adds or replaces the entry under a key, and tells whether there was room (as the library's sets tell of an insert).
    fn store(&mut self, file: u16, block: u16, entry: Entry) -> bool
        ensures room { places self.new ≡ places self.old }
        ensures answer { result ≡ not (full (holding self.old) (places self.old) file block) }
        ensures after { holding self.new ≡ (if result then changed (holding self.old) file (only block) (λ _. Some entry) else holding self.old) };

    /// Drops a key, and tells whether it was there.
    fn remove(&mut self, file: u16, block: u16) -> bool
        ensures room { places self.new ≡ places self.old }
        ensures answer { result ≡ is_some (holding self.old file block) }
        ensures after { holding self.new ≡ changed (holding self.old) file (only block) (λ _. None) };

    /// The lowest key of a file from a block on, with its entry.
    fn first_from(&self, file: u16, block: u16) -> Option<Row>
        ensures { result ≡ lowest_row (holding self.now) file block }
    {
        for b in block..=65535 {
            if let Some(entry) = self.find(file, b) {
                return Some(Row {
                    file,
                    block: b,
                    entry,
                });
            }
        }
        None
    }

    /// The entry under a key.
    fn get(&self, file: u32, block: u32) -> Result<Option<Entry>, Fault>
        ensures { result ≡ answer file block (ground_of_key file block) (holding self.now file block) }
    {
        let key = Key::of(file, block)?;
        Ok(self.find(key.file, key.block))
    }

    /// Adds or replaces the entry under a key; refused if the key is new and the table full.
    fn put(&mut self, file: u32, block: u32, entry: Entry) -> Result<(), Fault>
        ensures room { places self.new ≡ places self.old }
        ensures answer { result ≡ answer file block (ground_of_put file block (full (holding self.old) (places self.old) file block)) tt }
        ensures after { holding self.new ≡ leaves (ground_of_put file block (full (holding self.old) (places self.old) file block)) (holding self.old) (changed (holding self.old) file (only block) (λ _. Some entry)) }
    {
        let key = Key::of(file, block)?;
        if self.store(key.file, key.block, entry) {
            Ok(())
        } else {
            Err(Layer::Table.refusal(Ground::TableFull, file, block))
        }
    }

    /// Drops a key, and tells whether it was there.
    fn drop(&mut self, file: u32, block: u32) -> Result<bool, Fault>
        ensures room { places self.new ≡ places self.old }
        ensures answer { result ≡ answer file block (ground_of_key file block) (is_some (holding self.old file block)) }
        ensures after { holding self.new ≡ leaves (ground_of_key file block) (holding self.old) (changed (holding self.old) file (only block) (λ _. None)) }
    {
        let key = Key::of(file, block)?;
        Ok(self.remove(key.file, key.block))
    }

    /// The lowest key of a file from a block on, with its entry.
    fn lowest(&self, file: u32, block: u32) -> Result<Option<Row>, Fault>
        ensures { result ≡ answer file block (ground_of_key file block) (lowest_row (holding self.now) file block) }
    {
        let key = Key::of(file, block)?;
        Ok(self.first_from(key.file, key.block))
    }

    ghost bounded: { (t : Self) → tally (holding t) ≤ places t };

    ghost numbered: { (t : Self) → Numbered (holding t) };
}
