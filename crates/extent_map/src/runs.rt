//! Keys counted, dropped and put, many at a time.

ghost use Rattle.std.specs.Prelude.{◌≡◌, ◌+◌, ◌-◌, ◌≤◌};
ghost use Rattle.blocks.specs.Blocks.{Placement, tally};
ghost use Rattle.extents.specs.Extents.{Barrier};
ghost use Rattle.key_rule.specs.Keyed.{Held, placing};
ghost use Rattle.key_rule.specs.Mends.{blend, none, Counted, Laid, Mending};
ghost use Rattle.extent_map.specs.Calls.{Next, Remade};

use crate::keys::FileKeys;
use extents::key::Key;
use faults::Ground;
use run_keys::walk::Run;
use tables::table::Table;

/// How many keys a run has.
fn key_count(run: Run) -> u64
    ensures size { result ≤ 65536 }
    ensures count { Counted run.first run.end result }
{
    run.walk().count() as u64
}

/// Two runs and the hole between them.
#[derive(Clone, Copy)]
pub struct Cut {
    pub before: Run,
    pub behind: Run,
    ghost apart: { before.end ≤ behind.first },
}

/// The first key of a file that starts from a block on and below `end`.
///
/// The first two blocks are tried by themselves, so that the question for the lowest key, which may pass all rows,
/// is asked across longer holes only.
fn next_key<T: Table>(table: &T, file: u16, from: u32, end: u32) -> Option<Key>
    requires { (from ≤ end) × (end ≤ 65536) }
    ensures { Next (T.Table.holding table.now file) from end result }
{
    let far = end.min(from + 2);
    for block in from..far {
        let start = block as u16;
        if let Some(entry) = table.find(file, start) {
            return Some(Key::at(start, entry));
        }
    }
    if far == end {
        return None;
    }
    let row = table.first_from(file, far as u16)?;
    (u32::from(row.block) < end).then_some(Key::at(row.block, row.entry))
}

/// Drops the keys of a file from l up to r.
pub fn drop_keys<T: Table>(table: &mut T, file: u16, l: u32, r: u32)
    requires held { Held (T.Table.holding table.now) }
    requires range { (l ≤ r) × (r ≤ 65536) }
    requires barrier { Barrier (placing (T.Table.holding table.now) file) r }
    ensures room { T.Table.places table.new ≡ T.Table.places table.old }
    ensures after { T.Table.holding table.new ≡ blend file l r none (T.Table.holding table.old) }
{
    let mut x = l;
    // a loop and no iterator: between two steps the table does not hold exactly the keys of its map
    while let Some(key) = next_key(table, file, x, r) {
        let _ = table.remove(file, key.start);
        x = key.end();
    }
}

impl<'a, T: Table> FileKeys<'a, T> {
    /// How many keys are held from l up to r.
    fn count_keys(&self, l: u32, r: u32) -> u32
        requires range { (l ≤ r) × (r ≤ 65536) }
        requires barrier { Barrier (placing (T.Table.holding self.now.table.now) self.now.file) r }
        ensures { result + tally (blend self.now.file l r none (T.Table.holding self.now.table.now)) ≡ tally (T.Table.holding self.now.table.now) }
    {
        let mut x = l;
        let mut count = 0;
        // the same walk as drop_keys': an iterator for this one count would be longer
        while let Some(key) = next_key(self.table, self.file, x, r) {
            count += 1;
            x = key.end();
        }
        count
    }
}

/// Puts the keys of a run.
fn put_run<T: Table>(table: &mut T, file: u16, run: Run)
    ensures room { T.Table.places table.new ≡ T.Table.places table.old }
    ensures after { Laid (T.Table.holding table.old) (T.Table.places table.old) file run.first run.end run.board (T.Table.holding table.new) }
{
    for key in run.walk() {
        let _ = table.store(file, key.start, key.entry());
    }
}

/// Makes a file's blocks anew from the first of two runs to the end of the second: the runs and a hole between them.
/// Nothing changes if the map would then call for more keys than there is room for.
pub fn mend<T: Table>(table: &mut T, file: u16, cut: Cut) -> Result<(), Ground>
    requires held { Held (T.Table.holding table.now) }
    requires barrier { Barrier (placing (T.Table.holding table.now) file) cut.behind.end }
    ensures room { T.Table.places table.new ≡ T.Table.places table.old }
    ensures after { (n : Placement) → Mending (placing (T.Table.holding table.old)) n file cut.before.first cut.before.end cut.before.board cut.behind.first cut.behind.board cut.behind.end → Remade (T.Table.holding table.old) (T.Table.places table.old) n result (T.Table.holding table.new) }
{
    let keys = FileKeys {
        table: &*table,
        file,
    };
    let more = key_count(cut.before) + key_count(cut.behind);
    let less = keys.count_keys(cut.before.first, cut.behind.end);
    if u64::from(table.held()) + more > u64::from(table.room()) + u64::from(less) {
        return Err(Ground::TooManyKeys);
    }
    drop_keys(table, file, cut.before.first, cut.behind.end);
    put_run(table, file, cut.before);
    put_run(table, file, cut.behind);
    Ok(())
}
