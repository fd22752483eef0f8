//! A map that remembers the translations found last.

ghost use Rattle.std.specs.Prelude.{◌≡◌, true, is_some};
ghost use Rattle.maps.specs.Steps.{nowhere, Outcome, find_answer, next_answer, assign_step, clear_step, forget_step};
ghost use Rattle.cached_map.specs.Remembering.{AllTrue, AllTrue-prop, blank_memory, recalled, after_find, after_taking};
ghost use Rattle.std.proofs.Common.{rules};

use crate::memory::Memory;
use faults::Fault;
use maps::Map;

/// A map with the last eight translations that a look-up in it found.
/// What is remembered is answered with no look-up below.
#[derive(Drop)]
pub struct CachedMap<M: Map> {
    map: M,
    memory: Memory,
    ghost sound: { AllTrue (M.Map.placed map) memory.lines } by { AllTrue-prop (M.Map.placed map) memory.lines },
}

impl<M: Map> CachedMap<M> {
    /// The same map, of which nothing is remembered yet.
    pub fn new(map: M) -> CachedMap<M>
        ensures map { result.map ≡ map }
        ensures memory { result.memory ≡ blank_memory }
    {
        CachedMap {
            map,
            memory: Memory::blank(),
        }
    }

    /// The map below.
    pub fn into_map(self) -> M
        ensures { result ≡ self.map }
    {
        let CachedMap { map, memory: _ } = self;
        map
    }
}

impl<M: Map> Map for CachedMap<M> {
    ghost placed = { λ s. M.Map.placed s.map };

    ghost room = { λ s. M.Map.room s.map };

    ghost rule = { M.Map.rule };

    ghost bounded = { Prim.search rules };

    ghost lighter = { Prim.search rules };

    ghost within = { Prim.search rules };

    ghost on_board = { λ s. M.Map.on_board s.map };

    ghost roomy = { Prim.search rules };

    fn find(&mut self, file: u32, block: u32) -> Result<Option<u32>, Fault>
        ensures room { M.Map.room self.new.map ≡ M.Map.room self.old.map }
        ensures answer { result ≡ find_answer (M.Map.placed self.old.map) file block }
        ensures same { M.Map.placed self.new.map ≡ M.Map.placed self.old.map }
        ensures memory { self.new.memory ≡ after_find self.old.memory file block result }
        ensures hit { is_some (recalled self.old.memory.lines file block) ≡ true → self.new ≡ self.old }
    {
        if let Some(board) = self.memory.recall(file, block) {
            return Ok(Some(board));
        }
        let found = self.map.find(file, block)?;
        if let Some(board) = found {
            self.memory.remember(file, block, board);
        }
        Ok(found)
    }

    fn next(&mut self, file: u32, block: u32) -> Result<Option<u32>, Fault>
        ensures room { M.Map.room self.new.map ≡ M.Map.room self.old.map }
        ensures answer { result ≡ next_answer (M.Map.placed self.old.map) file block }
        ensures same { M.Map.placed self.new.map ≡ M.Map.placed self.old.map }
        ensures memory { self.new.memory ≡ self.old.memory }
    {
        self.map.next(file, block)
    }

    /// What was mapped stays where it is, so all that is remembered stays true.
    fn assign(&mut self, file: u32, first: u32, n: u32, board: u32) -> Result<(), Fault>
        ensures room { M.Map.room self.new.map ≡ M.Map.room self.old.map }
        ensures step { ◌≡◌ {A = Outcome} (result, M.Map.placed self.new.map) (assign_step M.Map.rule (M.Map.room self.old.map) (M.Map.placed self.old.map) file first n board) }
        ensures memory { self.new.memory ≡ self.old.memory }
    {
        self.map.assign(file, first, n, board)
    }

    fn clear(&mut self, file: u32, first: u32, n: u32) -> Result<(), Fault>
        ensures room { M.Map.room self.new.map ≡ M.Map.room self.old.map }
        ensures step { ◌≡◌ {A = Outcome} (result, M.Map.placed self.new.map) (clear_step M.Map.rule (M.Map.room self.old.map) (M.Map.placed self.old.map) file first n) }
        ensures memory { self.new.memory ≡ after_taking self.old.memory file first n result }
    {
        self.map.clear(file, first, n)?;
        self.memory.forget(file, first, n);
        Ok(())
    }

    fn forget(&mut self, file: u32) -> Result<(), Fault>
        ensures room { M.Map.room self.new.map ≡ M.Map.room self.old.map }
        ensures step { ◌≡◌ {A = Outcome} (result, M.Map.placed self.new.map) (forget_step (M.Map.placed self.old.map) file) }
        ensures memory { self.new.memory ≡ after_taking self.old.memory file 0 65536 result }
    {
        self.map.forget(file)?;
        self.memory.forget(file, 0, 65536);
        Ok(())
    }

    fn forget_all(&mut self)
        ensures room { M.Map.room self.new.map ≡ M.Map.room self.old.map }
        ensures after { M.Map.placed self.new.map ≡ nowhere }
        ensures memory { self.new.memory ≡ blank_memory }
    {
        self.map.forget_all();
        self.memory = Memory::blank();
    }
}
