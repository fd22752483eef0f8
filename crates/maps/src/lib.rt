//! Maps from the blocks of files to board numbers, by their meaning.

#![tactic(auto)]

pub mod extent;
mod named;

ghost use Rattle.std.specs.Prelude.{◌≡◌, ℕ, ◌<◌, ◌≤◌, ◌⊎◌, Some, None, Option};
ghost use Rattle.blocks.specs.Blocks.{Placement, tally};
ghost use Rattle.maps.specs.Steps.{nowhere, forgotten, Outcome, find_answer, next_answer, assign_step, clear_step, forget_step};

use faults::Fault;

/// A partial map from files and blocks to board numbers, which calls for keys by a rule of its own and has room for so many.
///
/// A refused call changes nothing. A question may change what is remembered and never what is meant.
pub trait Map {
    /// Where each block lies.
    ghost placed: { Self → Placement };

    /// How many keys there is room for.
    ghost room: { Self → ℕ };

    /// How many keys a placement calls for.
    ghost rule: { Placement → ℕ };

    /// The board number of a block, or none.
    fn find(&mut self, file: u32, block: u32) -> Result<Option<u32>, Fault>
        ensures room { room self.new ≡ room self.old }
        ensures answer { result ≡ find_answer (placed self.old) file block }
        ensures same { placed self.new ≡ placed self.old };

    /// The lowest mapped block of a file from a block on, or none.
    fn next(&mut self, file: u32, block: u32) -> Result<Option<u32>, Fault>
        ensures room { room self.new ≡ room self.old }
        ensures answer { result ≡ next_answer (placed self.old) file block }
        ensures same { placed self.new ≡ placed self.old };

    /// Maps the n blocks of a file from `first` on to the board numbers from `board` on.
    fn assign(&mut self, file: u32, first: u32, n: u32, board: u32) -> Result<(), Fault>
        ensures room { room self.new ≡ room self.old }
        ensures step { ◌≡◌ {A = Outcome} (result, placed self.new) (assign_step rule (room self.old) (placed self.old) file first n board) };

    /// Takes the n blocks of a file from `first` on out.
    fn clear(&mut self, file: u32, first: u32, n: u32) -> Result<(), Fault>
        ensures room { room self.new ≡ room self.old }
        ensures step { ◌≡◌ {A = Outcome} (result, placed self.new) (clear_step rule (room self.old) (placed self.old) file first n) };

    /// Takes a whole file out.
    fn forget(&mut self, file: u32) -> Result<(), Fault>
        ensures room { room self.new ≡ room self.old }
        ensures step { ◌≡◌ {A = Outcome} (result, placed self.new) (forget_step (placed self.old) file) };

    /// Takes every file out.
    fn forget_all(&mut self)
        ensures room { room self.new ≡ room self.old }
        ensures after { placed self.new ≡ nowhere }
    {
        for file in 0..65536 {
            let _ = self.forget(file);
        }
    }

    /// No placement calls for more keys than it has mapped blocks,
    ghost bounded: { (p : Placement) → rule p ≤ tally p };

    /// and taking a whole file out never raises the number.
    ghost lighter: { (p : Placement) (file : ℕ) → rule (forgotten p file) ≤ rule p };

    /// What is placed is within the numbers that files, blocks and boards have,
    ghost within: { (s : Self) → (f b : ℕ) → (65536 ≤ f) ⊎ (65536 ≤ b) → placed s f b ≡ None };

    ghost on_board: { (s : Self) → (f b p : ℕ) → placed s f b ≡ Some p → p < 4096 };

    /// and never calls for more keys than there is room for.
    ghost roomy: { (s : Self) → rule (placed s) ≤ room s };
}
