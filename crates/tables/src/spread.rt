//! Where the search for a key begins.

ghost use Rattle.std.specs.Prelude.{◌≡◌, ℕ, ◌+◌, ◌*◌, ◌/◌, ◌%◌, ◌^◌, ◌<◌, ◌≤◌};
ghost use Rattle.tables.specs.Spreads.{mixed, levelled};
ghost use Rattle.std.proofs.Common.{rules};

/// Gives each key a place among n: below n, always the same, and 0 for n = 0.
pub trait Spread {
    /// The place of a file and a block among so many.
    ghost place: { Self → ℕ → ℕ → ℕ → ℕ };

    fn place_of(&self, file: u16, block: u16, n: u32) -> u32
        ensures { result ≡ place self.now file block n };

    ghost below: { (s : Self) (f b n : ℕ) → 0 < n → place s f b n < n };

    ghost nowhere: { (s : Self) (f b : ℕ) → place s f b 0 ≡ 0 };
}

/// Neighbouring blocks go far apart.
#[derive(Clone, Copy)]
pub struct Mixing;

/// Neighbouring blocks go side by side.
#[derive(Clone, Copy)]
pub struct Level;

impl Spread for Mixing {
    ghost place = { λ _. mixed };

    ghost below = { Prim.search rules };

    ghost nowhere = { Prim.search rules };

    fn place_of(&self, file: u16, block: u16, n: u32) -> u32 {
        let key = u32::from(file) * 65536 + u32::from(block);
        let mixed = key.wrapping_mul(2654435761) / 65536;
        mixed.checked_rem(n).unwrap_or(0)
    }
}

impl Spread for Level {
    ghost place = { λ _. levelled };

    ghost below = { Prim.search rules };

    ghost nowhere = { Prim.search rules };

    fn place_of(&self, file: u16, block: u16, n: u32) -> u32 {
        let sum = u32::from(file) + u32::from(block);
        sum.checked_rem(n).unwrap_or(0)
    }
}

/// Where the mixing spread puts file 0, block 1 among 2,048.
pub fn mixing_example() -> u32
    ensures { (result ≡ mixed 0 1 2048) × (mixed 0 1 2048 ≡ 1591) }
{
    Mixing.place_of(0, 1, 2048)
}
