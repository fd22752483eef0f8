//! The slots of a table, whatever its spread.

ghost use Rattle.std.specs.Prelude.{◌≡◌, ℕ, ◌+◌, ◌-◌, ◌<◌, ◌≤◌, false, length, IfOk, vec_len};
ghost use Rattle.std.specs.Borrow.{sem, follows};
ghost use Rattle.std.specs.Vec.{with_item};
ghost use Rattle.probing.specs.contracts.slots.Slots.{the_row};
ghost use Rattle.probing.specs.contracts.slots.Slot.{the_row as slot_row};
ghost use Rattle.probing.specs.Slots.{used, slot_at, dist, Probed, Within, looked, Best};

use std::alloc::{AllocError, Global};
use tables::row::Row;

/// A place for a row. It is a type of its own, since it is what a table lends to be changed.
#[derive(Clone, Copy)]
pub struct Slot {
    pub row: Option<Row>,
}

/// What a search comes to: the key, a free slot, or neither. No type of the library has these three cases.
#[derive(Clone, Copy)]
pub enum Probe {
    Found(usize),
    Free(usize),
    Full,
}

/// So many slots on from a slot of n, going round.
pub fn onward(n: usize, from: usize, by: usize) -> usize
    requires { (from < n) × (by < n) }
    ensures { (result < n) × (dist n from result ≡ by) }
{
    if by < n - from {
        from + by
    } else {
        by - (n - from)
    }
}

/// How many slots on it is from one slot of n to another, going round.
pub fn distance(n: usize, from: usize, to: usize) -> usize
    ensures { result ≡ dist n from to }
{
    if from <= to {
        to - from
    } else {
        n.saturating_sub(from) + to
    }
}

/// Slots that are lent one by one to be changed.
#[derive(Drop)]
pub struct Slots {
    slots: Vec<Slot>,
}

impl Slots {
    /// So many free slots.
    pub fn new(heap: Global, n: u32) -> Result<Slots, AllocError>
        ensures { IfOk result (λ t. (vec_len t.slots ≡ n) × ((x : ℕ) → used (slot_at t.slots.items x) ≡ false)) }
    {
        let slots = vec![in heap; Slot { row: None }; n as usize]?;
        Ok(Slots { slots })
    }

    pub fn len(&self) -> usize
        ensures { result ≡ vec_len self.now.slots }
    {
        self.slots.len()
    }

    pub fn slot(&self, i: usize) -> Slot
        requires { i < vec_len self.now.slots }
        ensures { result ≡ slot_at self.now.slots.items i }
    {
        self.slots[i]
    }

    /// Lends a slot to be changed.
    pub fn slot_mut(&mut self, i: usize) -> &mut Slot
        requires { i < vec_len self.old.slots }
        ensures* writes_back { sem 𝓛 (follows the_row slot_row self.entry.ghost_name result.ghost_name (λ w. record { slots = with_item self.old.slots i w })) }
        ensures value { result.now ≡ slot_at self.old.slots.items i }
    {
        &mut self.slots[i]
    }

    /// Searches for a key, from a slot on and round to it.
    pub fn search(&self, from: usize, file: u16, block: u16) -> Probe
        ensures probed { from < vec_len self.now.slots → Probed (vec_len self.now.slots) self.now.slots.items from file block result }
        ensures within { Within (vec_len self.now.slots) result }
    {
        let n = self.slots.len();
        if from >= n {
            return Probe::Full;
        }
        // By a chain of two ranges, from..n and 0..from, a look-up takes a tenth more instructions.
        for k in 0..n {
            let place = onward(n, from, k);
            let Some(row) = self.slots[place].row else {
                return Probe::Free(place);
            };
            if row.file == file && row.block == block {
                return Probe::Found(place);
            }
        }
        Probe::Full
    }

    /// How many slots a search for a key looks at.
    pub fn looked(&self, from: usize, file: u16, block: u16) -> usize
        ensures { (0 < vec_len self.now.slots → from < vec_len self.now.slots) → result ≡ looked (vec_len self.now.slots) self.now.slots.items from file block }
    {
        let n = self.slots.len();
        match self.search(from, file, block) {
            Probe::Found(i) => distance(n, from, i) + 1,
            Probe::Free(i) => distance(n, from, i) + 1,
            Probe::Full => n,
        }
    }

    /// The row of the lowest key of a file from a block on.
    pub fn lowest(&self, file: u16, block: u16) -> Option<Row>
        ensures { Best self.now.slots.items file block (vec_len self.now.slots) result }
    {
        self.slots
            .iter()
            .filter_map(|slot| slot.row)
            .filter(|row| row.file == file && row.block >= block)
            .min_by_key(|row| row.block)
    }

    pub fn clear(&mut self)
        ensures len { vec_len self.new.slots ≡ vec_len self.old.slots }
        ensures cleared { (x : ℕ) → used (slot_at self.new.slots.items x) ≡ false }
    {
        self.slots.fill(Slot { row: None });
    }
}
