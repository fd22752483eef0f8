//! What a plan asks for and what it counts.

ghost use Rattle.std.specs.Prelude.{Some};
ghost use Rattle.planning.specs.Plans.{summary_text};

use std::fmt;

/// A straight run of blocks, by its first block, its number of blocks and its first board number.
#[derive(Clone, Copy, PartialEq, Eq, Debug)]
pub struct Run {
    pub first: u32,
    pub blocks: u32,
    pub board: u32,
}

/// What is counted over a plan.
#[derive(Clone, Copy, Default, PartialEq, Eq, Debug)]
pub struct Summary {
    /// lines read
    pub lines: u64,
    /// lines whose run was planned
    pub planned: u64,
    /// lines that were refused
    pub refused: u64,
    /// blocks of the planned runs
    pub blocks: u64,
    /// keys of the planned runs
    pub keys: u64,
    /// the most keys that a look-up tried
    pub tried: u32,
    /// blocks that the look-up over a run's keys finds where the run has them
    pub right: u64,
}

impl fmt::Display for Summary {
    ghost output = { λ s. Some (summary_text s) };

    fn fmt<W: fmt::Write>(&self, f: &mut fmt::Formatter<W>) -> fmt::Result {
        let Summary {
            lines,
            planned,
            refused,
            blocks,
            keys,
            tried,
            right,
        } = *self;
        write!(
            f,
            "\nlines {lines}\nplanned {planned}\nrefused {refused}\nblocks {blocks}\nkeys {keys}\nmost tried {tried}\nread back {right}\n"
        )
    }
}
