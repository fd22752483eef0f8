//! What a block store is asked and what it answers.

#![tactic(auto)]

ghost use Rattle.std.specs.Prelude.{◌≡◌};
ghost use Rattle.calls.specs.Answers.{fault_in};
ghost use Rattle.calls.specs.declared.StoreFault.TheVariants.{FromMap};

use faults::Fault;

/// A call of a store. A write and a read bring a buffer besides.
#[derive(Clone, Copy, PartialEq, Eq, Debug)]
pub enum Call {
    /// mark 1 keeps the block on the board, mark 0 leaves it to the lower store; a number, since the store refuses others
    Write { file: u32, block: u32, mark: u32 },
    Read { file: u32, block: u32 },
    /// the n blocks from the first on
    Clear { file: u32, first: u32, n: u32 },
    Remove { file: u32 },
    Demote { file: u32 },
}

/// Where a write put its bytes.
#[derive(Clone, Copy, PartialEq, Eq, Debug)]
pub enum Written {
    Lower,
    /// the board number, and whether that board block was newly taken
    Board { number: u32, taken: bool },
}

/// Where the bytes of a read came from.
#[derive(Clone, Copy, PartialEq, Eq, Debug)]
pub enum Source {
    Lower,
    Board,
}

/// What a granted call tells.
#[derive(Clone, Copy, PartialEq, Eq, Debug)]
pub enum Granted {
    Wrote(Written),
    Showed(Source),
    /// how many board blocks a clear, a remove or a demote gave back
    GaveBack(u32),
}

/// Why a store refused a call.
#[derive(Clone, Copy, PartialEq, Eq, Debug)]
pub enum StoreFault {
    /// on a ground of the store's own
    Own(Fault),
    /// since its map refused: the map's fault as it came
    FromMap(Fault),
}

impl StoreFault {
    /// The refusal, whoever it came from.
    pub fn fault(self) -> Fault
        ensures { result ≡ fault_in self }
    {
        match self {
            StoreFault::Own(fault) | StoreFault::FromMap(fault) => fault,
        }
    }
}

/// What a map refuses reaches the store's caller whole.
impl From<Fault> for StoreFault {
    ghost from_gives = { λ x r. r ≡ FromMap x };

    fn from(value: Fault) -> Self {
        StoreFault::FromMap(value)
    }
}

/// The answer to any call.
pub type Answer = Result<Granted, StoreFault>;
