//! A plain model of a map: the board number of every block of every file, in a row, and the rules applied to it literally.

use faults::{Fault, Ground, Layer};
use std::alloc::{AllocError, Global};

/// The files that the model has, the last one among them; blocks run from 0 to 65,535.
pub const FILES: [u32; 3] = [0, 1, 65535];

/// How a map counts its keys.
/// (An enum and no closure: a model keeps its rule from call to call.)
#[derive(Clone, Copy)]
pub enum Rule {
    /// one for each mapped block
    Blocks,
    /// one for each straight aligned extent that lies in no longer one
    Extents,
}

#[derive(Drop)]
pub struct Model {
    boards: Vec<Option<u32>>,
    rule: Rule,
    room: u32,
}

impl Model {
    pub fn new(heap: Global, rule: Rule, room: u32) -> Result<Model, AllocError> {
        Ok(Model {
            boards: vec![in heap; None; 196608]?,
            rule,
            room,
        })
    }

    pub fn at(&self, file: u32, block: u32) -> Option<u32> {
        self.boards.get(place_of(file, block)?).copied().flatten()
    }

    fn put(&mut self, file: u32, block: u32, board: Option<u32>) {
        if let Some(place) = place_of(file, block) {
            if place < self.boards.len() {
                self.boards[place] = board;
            }
        }
    }

    /// Takes the n blocks of a file from `first` on out.
    fn take_out(&mut self, file: u32, first: u32, n: u32) {
        for block in first..first.saturating_add(n) {
            self.put(file, block, None);
        }
    }

    /// The lowest mapped block of a file, of the n from `first` on.
    pub fn lowest(&self, file: u32, first: u32, n: u32) -> Option<u32> {
        (first..first.saturating_add(n)).find(|block| self.at(file, *block).is_some())
    }

    /// How many keys the map calls for.
    pub fn keys(&self) -> u32 {
        FILES.iter().fold(0, |sum: u32, file| {
            sum.saturating_add(match self.rule {
                Rule::Blocks => self.mapped(*file),
                Rule::Extents => self.extents(*file),
            })
        })
    }

    fn mapped(&self, file: u32) -> u32 {
        (0..65536)
            .filter(|block| self.at(file, *block).is_some())
            .count() as u32
    }

    fn extents(&self, file: u32) -> u32 {
        (0..16).fold(0, |keys: u32, window: u32| {
            keys.saturating_add(self.keys_in(file, window.saturating_mul(4096), 4096))
        })
    }

    /// The keys in an aligned extent: one if it is straight, none if nothing in it is mapped, else those of its halves.
    fn keys_in(&self, file: u32, start: u32, length: u32) -> u32 {
        if self.straight(file, start, length) {
            return 1;
        }
        if length <= 1 || self.lowest(file, start, length).is_none() {
            return 0;
        }
        let half = length / 2;
        self.keys_in(file, start, half)
            .saturating_add(self.keys_in(file, start.saturating_add(half), half))
    }

    fn straight(&self, file: u32, start: u32, length: u32) -> bool {
        let Some(board) = self.at(file, start) else {
            return false;
        };
        (start..start.saturating_add(length))
            .zip(board..board.saturating_add(length))
            .all(|(block, number)| self.at(file, block) == Some(number))
    }

    pub fn assign(&mut self, file: u32, first: u32, n: u32, board: u32) -> Result<(), Fault> {
        admit(file, first, n)?;
        if board.saturating_add(n) > 4096 {
            return refuse(Ground::BoardNumber, file, first);
        }
        if let Some(block) = self.lowest(file, first, n) {
            return refuse(Ground::Mapped, file, block);
        }
        for (block, number) in (first..first.saturating_add(n)).zip(
            board..board.saturating_add(n),
        ) {
            self.put(file, block, Some(number));
        }
        if self.keys() > self.room {
            self.take_out(file, first, n);
            return refuse(Ground::TooManyKeys, file, first);
        }
        Ok(())
    }

    pub fn clear(
        &mut self,
        heap: Global,
        file: u32,
        first: u32,
        n: u32,
    ) -> Result<Result<(), Fault>, AllocError> {
        if let Err(fault) = admit(file, first, n) {
            return Ok(Err(fault));
        }
        let end = first.saturating_add(n);
        let mut before = Vec::new(heap);
        for block in first..end {
            before.push(self.at(file, block))?;
        }
        self.take_out(file, first, n);
        if self.keys() > self.room {
            for (block, board) in (first..end).zip(before.as_slice()) {
                self.put(file, block, *board);
            }
            return Ok(refuse(Ground::TooManyKeys, file, first));
        }
        Ok(Ok(()))
    }

    pub fn forget(&mut self, file: u32) -> Result<(), Fault> {
        if file > 65535 {
            return refuse(Ground::File, file, 0);
        }
        self.take_out(file, 0, 65536);
        Ok(())
    }
}

fn place_of(file: u32, block: u32) -> Option<usize> {
    if block > 65535 {
        return None;
    }
    let index = FILES.iter().position(|known| *known == file)?;
    Some(65536 * index + block as usize)
}

/// A refusal, written out: what is tried has no part in what is due.
fn refuse(ground: Ground, file: u32, block: u32) -> Result<(), Fault> {
    Err(Fault {
        ground,
        layer: Layer::Map,
        file,
        block,
    })
}

fn admit(file: u32, first: u32, n: u32) -> Result<(), Fault> {
    if file > 65535 {
        return refuse(Ground::File, file, first);
    }
    if first > 65535 || first.saturating_add(n) > 65536 {
        return refuse(Ground::Block, file, first);
    }
    if n == 0 || n > 4096 {
        return refuse(Ground::Length, file, first);
    }
    Ok(())
}
