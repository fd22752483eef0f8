//! A straight run of blocks, and how far a walk over one has come.

ghost use Rattle.std.specs.Prelude.{◌≡◌, ◌+◌, ◌-◌, ◌≤◌};

/// A straight run of blocks, from `first` up to `end`, at the board numbers from `board` on.
#[derive(Clone, Copy)]
pub struct Run {
    pub first: u32,
    pub end: u32,
    pub board: u32,
    ghost order: { first ≤ end },
    ghost inside: { end ≤ 65536 },
    ghost fitting: { board + (end - first) ≤ 4096 },
}

impl Run {
    /// The walk that cuts the run into keys.
    pub fn walk(self) -> Walk
        ensures { result.left ≡ self }
    {
        Walk { left: self }
    }
}

/// What is left of a straight run that is being cut into keys.
#[derive(Drop)]
pub struct Walk {
    pub(crate) left: Run,
}
