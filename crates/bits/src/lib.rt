//! The single bits of a word of 64 bits.

#![tactic(auto)]

ghost use Rattle.std.specs.Prelude.{◌≡◌, ◌-◌, ◌%◌, true, false};
ghost use Rattle.bits.specs.Bits.{bit};
ghost use Rattle.ledger.specs.Free.{first_free};
ghost use Rattle.ledger.specs.Store.{put};

/// The word with one bit put to a value: the bit that `number` names, modulo 64.
pub fn put_bit(word: u64, number: u32, value: bool) -> u64
    ensures { bit result ≡ put (bit word) (number % 64) value }
{
    let mask = 1 << (number % 64);
    if value { word | mask } else { word & !mask }
}

/// The word with one bit set: the one that `number` names, modulo 64.
pub fn with_bit(word: u64, number: u32) -> u64
    ensures { bit result ≡ put (bit word) (number % 64) true }
{
    put_bit(word, number, true)
}

/// The word with one bit cleared: the one that `number` names, modulo 64.
pub fn without_bit(word: u64, number: u32) -> u64
    ensures { bit result ≡ put (bit word) (number % 64) false }
{
    put_bit(word, number, false)
}

/// The lowest zero bit of a word, from the bit on that `from` names, modulo 64; or none.
pub fn first_zero(word: u64, from: u32) -> Option<u32>
    ensures { result ≡ first_free (bit word) (from % 64) (64 - from % 64) }
{
    match !word & (u64::MAX << (from % 64)) {
        0 => None,
        zeros => Some(zeros.trailing_zeros()),
    }
}
