//! Why a call is refused, and by which layer.

#![tactic(auto)]

ghost use Rattle.std.specs.Prelude.{◌≡◌};
ghost use Rattle.faults.specs.Grounds.{ground_number, layer_name};
ghost use Rattle.faults.specs.Answers.{refused_by, answered, ground_of_numbers};

/// A ground of refusal, by the number under which it is known.
/// The first seven come from what a call brings, the others from the state that it meets.
#[derive(Clone, Copy, PartialEq, Eq, Debug)]
pub enum Ground {
    /// a mark that is none
    Mark = 1,
    /// a file past the last
    File = 2,
    /// a block past the last, or an extent that ends past it
    Block = 3,
    /// an extent of no block, or of too many
    Length = 4,
    /// a buffer of another length than asked, or too short
    Buffer = 5,
    /// a board number past the last, or an extent that ends past it
    BoardNumber = 6,
    /// a line outside the forms
    Line = 7,
    /// a block that is mapped already
    Mapped = 11,
    /// no board block is free
    NoFreeBlock = 12,
    /// the map would call for more keys than there are places
    TooManyKeys = 13,
    /// a new key, and no place for it
    TableFull = 14,
}

impl Ground {
    /// The number under which the ground is known.
    pub fn number(self) -> u32
        ensures { result ≡ ground_number self }
    {
        self as u32
    }
}

/// The part of the store that was called.
#[derive(Clone, Copy, PartialEq, Eq, Debug)]
pub enum Layer {
    Table,
    Map,
    Store,
    Board,
    Lower,
    Console,
}

impl Layer {
    pub fn name(self) -> &'static str
        ensures { result.now ≡ layer_name self }
    {
        match self {
            Layer::Table => "table",
            Layer::Map => "map",
            Layer::Store => "store",
            Layer::Board => "board",
            Layer::Lower => "lower",
            Layer::Console => "console",
        }
    }

    /// This layer's refusal of a call with this file and first block.
    pub fn refusal(self, ground: Ground, file: u32, block: u32) -> Fault
        ensures { result ≡ refused_by self ground file block }
    {
        Fault {
            ground,
            file,
            block,
            layer: self,
        }
    }

    /// This layer's answer to a call with this file and first block: granted, unless there is a ground to refuse it.
    pub fn grant_unless(self, ground: Option<Ground>, file: u32, block: u32) -> Result<(), Fault>
        ensures { result ≡ answered self file block ground tt }
    {
        match ground {
            None => Ok(()),
            Some(ground) => Err(self.refusal(ground, file, block)),
        }
    }

    /// A file and a block number in 16 bits, or this layer's refusal of those above 65,535.
    pub fn narrow(self, file: u32, block: u32) -> Result<(u16, u16), Fault>
        ensures { result ≡ answered self file block (ground_of_numbers file block) (file, block) }
    {
        let refused = |ground: Ground| self.refusal(ground, file, block);
        let narrow_file = u16::try_from(file).map_err(|_| refused(Ground::File))?;
        let narrow_block = u16::try_from(block).map_err(|_| refused(Ground::Block))?;
        Ok((narrow_file, narrow_block))
    }
}

/// A refusal: its ground, the layer that was called, and the file and the first block of the call, 0 where it has none.
#[derive(Clone, Copy, PartialEq, Eq, Debug)]
pub struct Fault {
    pub ground: Ground,
    pub layer: Layer,
    pub file: u32,
    pub block: u32,
}
