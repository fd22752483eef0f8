//! The pool of board blocks: which are taken, and the token of one that is.

#![tactic(auto)]

ghost use Rattle.std.specs.Prelude.{◌≡◌, false};
ghost use Rattle.block_set.specs.Members.{member, without};
ghost use Rattle.ledger.specs.Free.{free_from};
ghost use Rattle.ledger.specs.Store.{put};
ghost use Rattle.maps.specs.Steps.{Outcome, assign_step};
ghost use Rattle.pool.specs.Enter.{entered, map_answer, settled_answer, settled_taken};
ghost use Rattle.pool.specs.Pool.{taken_in, none_taken, board_size, number_in, taken_also};

use block_set::BlockSet;
use faults::Fault;
use maps::Map;

// Goal and size, or file and block, are numbers as a call of the store or the map has them: a struct of two would be made and
// taken apart at each call.

/// A board block that was taken from the pool.
///
/// It cannot be let go: it is entered in a map or handed back.
pub struct Taken {
    number: u32,
}

impl Taken {
    /// Its board number.
    pub fn number(&self) -> u32
        ensures { result ≡ self.now.number }
    {
        self.number
    }

    /// Enters it in a map as the place of a block, and tells its board number.
    ///
    /// If the map refuses, it comes back with the map's fault.
    pub fn enter<M: Map>(self, map: &mut M, file: u32, block: u32) -> Result<u32, Refusal>
        ensures room { M.Map.room map.new ≡ M.Map.room map.old }
        ensures token { result ≡ entered self (map_answer result) }
        ensures step { ◌≡◌ {A = Outcome} (map_answer result, M.Map.placed map.new) (assign_step M.Map.rule (M.Map.room map.old) (M.Map.placed map.old) file block 1 self.number) }
    {
        let Taken { number } = self;
        map.assign(file, block, 1, number)
            .map(|()| number)
            .map_err(|fault| Refusal {
                token: Taken { number },
                fault,
            })
    }
}

/// A token that a map refused to enter, and the map's fault.
pub struct Refusal {
    pub token: Taken,
    pub fault: Fault,
}

/// The set of the board blocks that are taken, of 4,096.
#[derive(Drop)]
pub struct Pool {
    taken: BlockSet,
}

impl Pool {
    /// A pool of which nothing is taken.
    pub fn new() -> Self
        ensures { taken_in result ≡ none_taken }
    {
        Pool {
            taken: BlockSet::new(),
        }
    }

    /// Takes the first free block of a board of `size` blocks from the goal on, going round, if one is free.
    ///
    /// A goal past the last block counts as 0.
    pub fn take(&mut self, goal: u32, size: u32) -> Option<Taken>
        ensures found { number_in result ≡ free_from (taken_in self.old) (board_size size) goal }
        ensures after { taken_in self.new ≡ taken_also (taken_in self.old) (free_from (taken_in self.old) (board_size size) goal) }
    {
        let number = self.nearest_free(goal, size)?;
        self.taken.insert(number);
        Some(Taken { number })
    }

    /// Makes a taken block free again, instead of entering it.
    pub fn hand_back(&mut self, token: Taken)
        ensures { taken_in self.new ≡ put (taken_in self.old) token.number false }
    {
        let Taken { number } = token;
        self.release(number);
    }

    /// What came of entering a token: if it was refused, it is handed back, and only the map's fault is left.
    pub fn settle(&mut self, entering: Result<u32, Refusal>) -> Result<u32, Fault>
        ensures answer { result ≡ settled_answer entering }
        ensures after { taken_in self.new ≡ settled_taken (taken_in self.old) entering }
    {
        // No `map_err`: what its closure lends is lost to the proof where it is not called.
        match entering {
            Ok(number) => Ok(number),
            Err(Refusal { token, fault }) => {
                self.hand_back(token);
                Err(fault)
            }
        }
    }

    /// Makes the block of a board number free again, as one that was entered and is no longer mapped.
    pub fn release(&mut self, number: u32)
        ensures { taken_in self.new ≡ put (taken_in self.old) number false }
    {
        self.taken.remove(number);
    }

    /// Makes every block of a set free again, as ones that were entered and are no longer mapped.
    pub fn give_back(&mut self, leaving: &BlockSet)
        ensures { taken_in self.new ≡ without (taken_in self.old) (member leaving.now) }
    {
        self.taken.remove_all(leaving);
    }

    /// The first free block from the goal on, going round.
    fn nearest_free(&self, goal: u32, size: u32) -> Option<u32>
        ensures { result ≡ free_from (taken_in self.now) (board_size size) goal }
    {
        self.taken
            .first_absent(goal, size)
            .or_else(|| self.taken.first_absent(0, goal.min(size)))
    }
}
