//! Translations that are remembered: the eight that were learned last.

ghost use Rattle.std.specs.Prelude.{◌≡◌};
ghost use Rattle.cached_map.specs.Remembering.{says, struck, blank_memory, recalled, remembered, without};

/// So many lines are kept.
const LINES: usize = 8;

/// The board number of a block.
#[derive(Clone, Copy)]
pub struct Line {
    pub file: u32,
    pub block: u32,
    pub board: u32,
}

/// The board number that a line has for a block.
fn said(line: Option<Line>, file: u32, block: u32) -> Option<u32>
    ensures { result ≡ says file block line }
{
    line.filter(|line| line.file == file && line.block == block)
        .map(|line| line.board)
}

/// The line, unless its block is one of the n of the file from `first` on.
fn kept(line: Option<Line>, file: u32, first: u32, n: u32) -> Option<Line>
    ensures { result ≡ struck file first n line }
{
    line.filter(|line| !(line.file == file && line.block >= first && line.block - first < n))
}

/// Eight lines that are written in turn, round and round, so that the next to be replaced is the oldest.
#[derive(Clone, Copy)]
pub struct Memory {
    lines: [Option<Line>; LINES],
    turn: usize,
}

impl Memory {
    /// Remembers nothing.
    pub fn blank() -> Memory
        ensures { result ≡ blank_memory }
    {
        Memory {
            lines: [None; LINES],
            turn: 0,
        }
    }

    /// The board number of a block, if it is remembered.
    pub fn recall(&self, file: u32, block: u32) -> Option<u32>
        ensures { result ≡ recalled self.now.lines file block }
    {
        let line = self
            .lines
            .iter()
            .find(|line| said(**line, file, block).is_some())?;
        said(*line, file, block)
    }

    /// Remembers a block's board number in place of the oldest line.
    pub fn remember(&mut self, file: u32, block: u32, board: u32)
        ensures { self.new ≡ remembered self.old file block board }
    {
        let place = self.turn % LINES;
        self.lines[place] = Some(Line { file, block, board });
        self.turn = place + 1;
    }

    /// Forgets the n blocks of a file from `first` on.
    pub fn forget(&mut self, file: u32, first: u32, n: u32)
        ensures { self.new ≡ without self.old file first n }
    {
        for line in self.lines.iter_mut() {
            *line = kept(*line, file, first, n);
        }
    }
}
