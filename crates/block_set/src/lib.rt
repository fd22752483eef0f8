//! Sets of board numbers below 4,096, one bit each.

#![tactic(auto)]

ghost use Rattle.std.specs.Prelude.{◌≡◌, ◌-◌, min, true, false, cond, nat_lt};
ghost use Rattle.ledger.specs.Free.{first_free};
ghost use Rattle.ledger.specs.Store.{put};
ghost use Rattle.block_set.specs.Members.{member, none, inserted, without};

use bits::{first_zero, put_bit};
use blocks::BOARD_BLOCKS;

/// A set of board numbers below 4,096: the bit of a number is one where the set has it.
// Its clauses read it by `member`, a function on numbers, which the value of a model can't be.
#[derive(Drop)]
pub struct BlockSet {
    words: [u64; 64],
}

impl BlockSet {
    /// The set of none.
    pub fn new() -> Self
        ensures { member result ≡ none }
    {
        BlockSet { words: [0; 64] }
    }

    /// Puts a number in. One that is not below 4,096 is left out.
    pub fn insert(&mut self, number: u32)
        ensures { member self.new ≡ inserted (member self.old) number }
    {
        self.put(number, true);
    }

    /// Takes a number out, if it is in.
    pub fn remove(&mut self, number: u32)
        ensures { member self.new ≡ put (member self.old) number false }
    {
        self.put(number, false);
    }

    /// Puts a number in or takes it out, if it is below 4,096.
    fn put(&mut self, number: u32, value: bool)
        ensures { member self.new ≡ cond (nat_lt number 4096) (put (member self.old) number value) (member self.old) }
    {
        if number < BOARD_BLOCKS {
            let word = (number / 64) as usize;
            self.words[word] = put_bit(self.words[word], number, value);
        }
    }

    /// Takes all the numbers of another set out.
    pub fn remove_all(&mut self, others: &BlockSet)
        ensures { member self.new ≡ without (member self.old) (member others.now) }
    {
        // By the index: after `iter_mut` under `zip` a proof knows nothing of the words.
        for (i, word) in others.words.iter().enumerate() {
            self.words[i] &= !*word;
        }
    }

    /// The lowest number from `from` up to and without `to` that is not in the set, looked for word by word.
    ///
    /// The search ends at 4,096.
    pub fn first_absent(&self, from: u32, to: u32) -> Option<u32>
        ensures { result ≡ first_free (member self.now) from (min to 4096 - from) }
    {
        let limit = to.min(BOARD_BLOCKS);
        for word in from / 64..limit.div_ceil(64) {
            let next = from.max(word * 64);
            if let Some(bit) = first_zero(self.words[word as usize], next) {
                let number = word * 64 + bit;
                return (number < limit).then_some(number);
            }
        }
        None
    }
}

impl Default for BlockSet {
    ghost is_default = { λ set. member set ≡ none };

    fn default() -> Self {
        BlockSet::new()
    }
}
