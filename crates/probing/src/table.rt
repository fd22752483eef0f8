//! The table, over any spread.

ghost use Rattle.std.specs.Prelude.{◌≡◌, ℕ, ◌<◌, min, false, IfOk, vec_len};
ghost use Rattle.tables.specs.Holding.{nothing};
ghost use Rattle.probing.specs.Slots.{used, slot_at, Probed, Closed};
ghost use Rattle.probing.specs.Probing.{home_in, holding_of, looked_in};
ghost use Rattle.std.proofs.Common.{arith};
ghost use Rattle.probing.specs.SlotLaws.{occupied_le};

pub use crate::rows::ProbingTable;
use crate::slots::*;
use blocks::Entry;
use std::alloc::{AllocError, Global};
use tables::row::Row;
use tables::spread::Spread;
use tables::table::Table;

impl<S: Spread> ProbingTable<S> {
    /// A table with room for n keys, 2,048 at most.
    pub fn new(heap: Global, n: u32, spread: S) -> Result<ProbingTable<S>, AllocError>
    where
        S: Drop,
        ensures { IfOk result (λ t. (holding_of t ≡ nothing) × (t.room ≡ min n 2048)) }
    {
        let room = n.min(2048);
        let slots = Slots::new(heap, room)?;
        Ok(ProbingTable {
            slots,
            held: 0,
            room,
            spread,
        })
    }

    /// Searches for a key.
    fn probe(&self, file: u16, block: u16) -> Probe
        ensures { Probed self.now.room self.now.slots.slots.items (home_in self.now file block) file block result }
    {
        let home = self.spread.place_of(file, block, self.room);
        self.slots.search(home as usize, file, block)
    }

    /// How many rows a look-up of a key looks at.
    pub fn rows_looked_at(&self, file: u16, block: u16) -> usize
        ensures { result ≡ looked_in self.now file block }
    {
        let home = self.spread.place_of(file, block, self.room);
        self.slots.looked(home as usize, file, block)
    }
}

/// Closes the hole that a key left.
/// One pass over the slots that follow, up to a free one: a key that is searched for over the hole moves into it, and leaves the hole where it was.
fn close<S: Spread>(slots: &mut Slots, spread: &S, room: u32, start: usize)
    requires { (start < vec_len slots.old.slots) × (used (slot_at slots.old.slots.items start) ≡ false) }
    ensures len { vec_len slots.new.slots ≡ vec_len slots.old.slots }
    ensures closed { vec_len slots.old.slots ≡ room → Closed (λ f b. S.Spread.place spread.now f b room) room slots.old.slots.items start slots.new.slots.items }
{
    let n = slots.len();
    let mut hole = start;
    // As in a search, a chain of two ranges takes more instructions.
    for k in 1..n {
        let place = onward(n, start, k);
        let Some(row) = slots.slot(place).row else {
            return;
        };
        let home = spread.place_of(row.file, row.block, room) as usize;
        if distance(n, home, place) <= distance(n, home, hole) {
            continue;
        }
        let moved = slots.slot_mut(place).row.take();
        slots.slot_mut(hole).row = moved;
        hole = place;
    }
}

impl<S: Spread> Table for ProbingTable<S> {
    ghost holding = { holding_of };

    ghost places = { λ t. t.room };

    ghost bounded = { λ t. omega (arith, occupied_le t.slots.slots.items, t.sound.counted, t.sound.filled, t.sound.long) };

    ghost numbered = { λ t. t.sound.numbered };

    fn room(&self) -> u32 {
        self.room
    }

    fn held(&self) -> u32 {
        self.held
    }

    fn empty(&mut self) {
        self.slots.clear();
        self.held = 0;
    }

    fn find(&self, file: u16, block: u16) -> Option<Entry> {
        match self.probe(file, block) {
            Probe::Found(i) => self.slots.slot(i).row.map(|row| row.entry),
            Probe::Free(_) => None,
            Probe::Full => None,
        }
    }

    fn store(&mut self, file: u16, block: u16, entry: Entry) -> bool {
        let row = Row { file, block, entry };
        match self.probe(file, block) {
            Probe::Found(at) => {
                self.slots.slot_mut(at).row = Some(row);
                true
            }
            Probe::Free(i) => {
                self.slots.slot_mut(i).row = Some(row);
                self.held += 1;
                true
            }
            Probe::Full => false,
        }
    }

    fn remove(&mut self, file: u16, block: u16) -> bool {
        match self.probe(file, block) {
            Probe::Found(i) => {
                self.slots.slot_mut(i).row = None;
                close(&mut self.slots, &self.spread, self.room, i);
                self.held -= 1;
                true
            }
            Probe::Free(_) => false,
            Probe::Full => false,
        }
    }

    fn first_from(&self, file: u16, block: u16) -> Option<Row> {
        self.slots.lowest(file, block)
    }
}
