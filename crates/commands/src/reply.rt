//! What is printed for a line of the console.

/// The answer to a line.
#[derive(Clone, Copy, PartialEq, Eq, Debug)]
pub enum Reply {
    /// `ok K`: a granted change, and the keys now held
    Granted(u32),
    /// `no G`: the number of the refusal
    Refused(u32),
    /// `at P tried T`: the board number of a block, and the keys tried
    At { board: u32, tried: u32 },
    /// `hole tried T`
    Hole { tried: u32 },
    /// `next B`: the lowest mapped block
    NextAt(u32),
    /// `none`
    NoNext,
    /// `keys K`: the keys held
    Held(u32),
}
