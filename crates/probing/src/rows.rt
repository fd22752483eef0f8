//! The rows of the table.

ghost use Rattle.std.specs.Prelude.{◌≤◌};
ghost use Rattle.probing.specs.Slots.{Sound};

use crate::slots::Slots;
use tables::spread::Spread;

/// Keys in slots, each in the first that was free from its place on, going round.
/// The memory of all slots is taken when the table is made.
#[derive(Drop)]
pub struct ProbingTable<S: Spread> {
    pub(crate) slots: Slots,
    pub(crate) held: u32,
    pub(crate) room: u32,
    pub(crate) spread: S,
    ghost few: { room ≤ 2048 },
    ghost sound: { Sound (λ f b. S.Spread.place spread f b room) room slots.slots.items held },
}
