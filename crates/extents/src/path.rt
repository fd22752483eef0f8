//! The path of a block.

ghost use Rattle.std.specs.Prelude.{◌≡◌};
ghost use Rattle.std.specs.Iterator.{YieldsFirst, item_count};
ghost use Rattle.extents.specs.Extents.{path};
ghost use Rattle.extents.specs.OnPath.{starts};

/// The starts of the keys that the look-up of a block tries, in order: those that are still to come.
#[derive(Drop)]
pub struct Path {
    start: Option<u16>,
}

impl Path {
    /// The whole path of a block.
    pub fn of(block: u16) -> Path
        ensures { starts result ≡ path block }
    {
        Path { start: Some(block) }
    }
}

impl Iterator for Path {
    type Item = u16;

    ghost next_gives = { YieldsFirst starts };

    ghost remaining = { item_count starts };

    fn next(&mut self) -> Option<u16> {
        let start = self.start?;
        self.start = if start & 4095 == 0 {
            None
        } else {
            Some(start & (start - 1))
        };
        Some(start)
    }
}
