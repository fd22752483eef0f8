//! The look-up of a block along its path.

#![tactic(auto)]

ghost use Rattle.std.specs.Prelude.{◌≡◌, ◌==◌, find, option_map, position};
ghost use Rattle.extents.specs.Extents.{KeyTable, entry, path, first_held_key, says, lookup, tried};
ghost use Rattle.extents.specs.Runs.{table_of};

use blocks::Entry;
use extents::key::Key;
use extents::path::Path;

/// A table of one file's keys.
pub trait Keys {
    /// What it holds at each start.
    ghost table: { Self → KeyTable };

    /// What it holds at a start.
    fn key_at(&self, start: u16) -> Option<Entry>
        ensures { result ≡ table self.now start };
}

/// A short list of keys, searched from the front.
impl Keys for Vec<Key> {
    ghost table = { λ keys. table_of keys.items };

    fn key_at(&self, start: u16) -> Option<Entry> {
        entry_in(self, start)
    }
}

/// What the first key of the list that begins at a start says.
fn entry_in(keys: &[Key], start: u16) -> Option<Entry>
    ensures { result ≡ option_map (λ k. entry k.length k.board) (find (λ k. k.start == start) keys.now) }
{
    let at = place_of(keys, start)?;
    Some(keys[at].entry())
}

/// Where the first key of the list that begins at a start stands.
fn place_of(keys: &[Key], start: u16) -> Option<usize>
    ensures { result ≡ position (λ k. k.start == start) keys.now }
{
    keys.iter().position(|key| key.start == start)
}

/// The first key that is held on a path, and how many keys were tried.
#[derive(Clone, Copy, PartialEq, Eq, Debug)]
pub struct Held {
    pub key: Option<Key>,
    pub tried: u32,
}

/// Tries the keys on a block's path in order, up to the first that is held.
pub fn first_held<K: Keys>(keys: &K, block: u16) -> Held
    ensures { result ≡ record { key = first_held_key (K.Keys.table keys.now) (path block); tried = tried (K.Keys.table keys.now) block } }
{
    let mut tried = 0;
    for start in Path::of(block) {
        tried += 1;
        if let Some(entry) = keys.key_at(start) {
            return Held {
                key: Some(Key::at(start, entry)),
                tried,
            };
        }
    }
    Held { key: None, tried }
}

/// The board number of a block by a key, or none where the key's extent does not contain it.
pub fn board_by(key: Option<Key>, block: u16) -> Option<u32>
    ensures { result ≡ says key block }
{
    let key = key?;
    if key.contains(block) {
        Some(u32::from(key.board) + u32::from(block - key.start))
    } else {
        None
    }
}

/// What a look-up found: the block's board number, or none for a hole, and how many keys it tried.
// A record beside `Held`: one type for both could not name what was found.
#[derive(Clone, Copy, PartialEq, Eq, Debug)]
pub struct Found {
    pub board: Option<u32>,
    pub tried: u32,
}

/// Looks a block up.
pub fn look_up<K: Keys>(keys: &K, block: u16) -> Found
    ensures { result ≡ record { board = lookup (K.Keys.table keys.now) block; tried = tried (K.Keys.table keys.now) block } }
{
    let held = first_held(keys, block);
    Found {
        board: board_by(held.key, block),
        tried: held.tried,
    }
}
