//! What a table keeps, and which keys it takes.

ghost use Rattle.std.specs.Prelude.{◌≡◌};
ghost use Rattle.tables.specs.Calls.{answer, ground_of_key};

use blocks::Entry;
use faults::{Fault, Layer};

/// A key with its entry.
#[derive(Clone, Copy, PartialEq, Eq, Debug)]
pub struct Row {
    pub file: u16,
    pub block: u16,
    pub entry: Entry,
}

/// A file and a block number.
#[derive(Clone, Copy, PartialEq, Eq, Debug)]
pub struct Key {
    pub file: u16,
    pub block: u16,
}

impl Key {
    /// The key of a file and a block, or the table's refusal of numbers above 65,535.
    pub fn of(file: u32, block: u32) -> Result<Key, Fault>
        ensures { result ≡ answer file block (ground_of_key file block) (record { file = file; block = block }) }
    {
        let (file, block) = Layer::Table.narrow(file, block)?;
        Ok(Key { file, block })
    }
}
