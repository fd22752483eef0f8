//! One file's keys, found along a path.

ghost use Rattle.std.specs.Prelude.{◌≡◌, option_and_then};
ghost use Rattle.std.specs.Bool.{then_some};
ghost use Rattle.blocks.specs.Blocks.{inside};
ghost use Rattle.key_rule.specs.Keyed.{Held, placing};
ghost use Rattle.key_rule.specs.Mends.{Sane, Over};

use blocks::Entry;
use extents::key::Key;
use look_ups::{Keys, first_held};
use tables::table::Table;

/// One file's keys in a table that holds exactly those of each file's map.
#[derive(Drop)]
pub struct FileKeys<'a, T: Table> {
    pub table: &'a T,
    pub file: u16,
    ghost held: { Held (T.Table.holding table.now) },
}

impl<'a, T: Table> Keys for FileKeys<'a, T> {
    ghost table = { λ s. T.Table.holding s.table.now s.file };

    fn key_at(&self, start: u16) -> Option<Entry> {
        self.table.find(self.file, start)
    }
}

/// A key, if its extent contains a block.
fn covering(key: Option<Key>, block: u16) -> Option<Key>
    ensures { result ≡ option_and_then (λ k. then_some (inside k.start k.length block) k) key }
{
    key.filter(|key| key.contains(block))
}

impl<'a, T: Table> FileKeys<'a, T> {
    /// The key whose extent contains a block.
    pub fn key_over(&self, block: u16) -> Option<Key>
        ensures sane { Sane block result }
        ensures found { Over (placing (T.Table.holding self.now.table.now) self.now.file) block result }
    {
        covering(first_held(self, block).key, block)
    }
}
