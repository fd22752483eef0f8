//! The key tables on examples, and on many random calls beside a map of the library.

#![tactic(auto)]

#[cfg(test)]
mod tests {
    use blocks::Entry;
    use faults::{Fault, Ground, Layer};
    use ordered::OrderedTable;
    use probing::table::ProbingTable;
    use std::alloc::AllocError;
    use std::collections::BTreeMap;
    use std::process::Abort;
    use std::test::Fail;
    use tables::row::Row;
    use tables::spread::{Level, Mixing, Spread};
    use tables::table::Table;

    // A call of a table.
    #[derive(Clone, Copy)]
    enum Call {
        Put(u32, u32, u16, u16),
        Get(u32, u32),
        Drop(u32, u32),
        Lowest(u32, u32),
        Empty,
    }

    // What a table answered.
    #[derive(Clone, Copy, PartialEq, Eq, Debug)]
    enum Told {
        Done,
        Entry(Option<Entry>),
        Lowest(Option<Row>),
        Dropped(bool),
    }

    // What a table answers to a call, or its refusal.
    fn tell<T: Table>(table: &mut T, call: Call) -> Result<Told, Fault> {
        match call {
            Call::Put(file, block, length, board) => {
                table.put(file, block, Entry { length, board })?;
                Ok(Told::Done)
            }
            Call::Get(file, block) => Ok(Told::Entry(table.get(file, block)?)),
            Call::Drop(file, block) => Ok(Told::Dropped(table.drop(file, block)?)),
            Call::Lowest(file, block) => Ok(Told::Lowest(table.lowest(file, block)?)),
            Call::Empty => {
                table.empty();
                Ok(Told::Done)
            }
        }
    }

    // ---- examples

    const DONE: Result<Told, Fault> = Ok(Told::Done);

    const NO_ENTRY: Result<Told, Fault> = Ok(Told::Entry(None));

    const NO_ROW: Result<Told, Fault> = Ok(Told::Lowest(None));

    fn at(length: u16, board: u16) -> Result<Told, Fault> {
        Ok(Told::Entry(Some(Entry { length, board })))
    }

    fn row(file: u16, block: u16, length: u16, board: u16) -> Result<Told, Fault> {
        Ok(Told::Lowest(Some(Row {
            file,
            block,
            entry: Entry { length, board },
        })))
    }

    fn dropped(there: bool) -> Result<Told, Fault> {
        Ok(Told::Dropped(there))
    }

    fn no(ground: Ground, file: u32, block: u32) -> Result<Told, Fault> {
        Err(Fault {
            ground,
            layer: Layer::Table,
            file,
            block,
        })
    }

    // Makes the calls of a script on a table, and compares what it tells, and how many keys it holds in the end.
    fn run<T: Table>(
        rt: &impl Abort,
        table: &mut T,
        script: &[(Call, Result<Told, Fault>)],
        held: u32,
    ) {
        for (call, told) in script {
            assert_eq!(rt; tell(table, *call), *told);
        }
        assert_eq!(rt; table.held(), held);
    }

    // The same on each kind of table, made with n.
    fn on_each(
        rt: &(impl Abort + AllocGlobal),
        n: u32,
        script: &[(Call, Result<Told, Fault>)],
        held: u32,
    ) -> Result<(), Fail> {
        run(rt, &mut OrderedTable::new(rt.alloc(), n)?, script, held);
        run(
            rt,
            &mut ProbingTable::new(rt.alloc(), n, Mixing)?,
            script,
            held,
        );
        run(
            rt,
            &mut ProbingTable::new(rt.alloc(), n, Level)?,
            script,
            held,
        );
        Ok(())
    }

    #[test]
    fn no_places(rt: HostRuntime) -> Result<(), Fail> {
        let script = [
            (Call::Put(1, 2, 1, 9), no(Ground::TableFull, 1, 2)),
            (Call::Get(1, 2), NO_ENTRY),
            (Call::Drop(1, 2), dropped(false)),
            (Call::Lowest(1, 0), NO_ROW),
            (Call::Empty, DONE),
        ];
        on_each(&rt, 0, &script, 0)
    }

    #[test]
    fn one_place(rt: HostRuntime) -> Result<(), Fail> {
        let script = [
            (Call::Put(65535, 65535, 65535, 65535), DONE),
            (Call::Get(65535, 65535), at(65535, 65535)),
            (Call::Put(65535, 65535, 0, 7), DONE),
            (
                Call::Put(65535, 65534, 1, 1),
                no(Ground::TableFull, 65535, 65534),
            ),
            (Call::Get(65535, 65535), at(0, 7)),
            (Call::Drop(65535, 65534), dropped(false)),
            (Call::Drop(65535, 65535), dropped(true)),
            (Call::Put(65535, 65534, 1, 1), DONE),
        ];
        on_each(&rt, 1, &script, 1)
    }

    #[test]
    fn wide_numbers(rt: HostRuntime) -> Result<(), Fail> {
        let script = [
            (Call::Put(65535, 65535, 4, 5), DONE),
            (
                Call::Put(65536, 65536, 4, 5),
                no(Ground::File, 65536, 65536),
            ),
            (Call::Put(0, 65536, 4, 5), no(Ground::Block, 0, 65536)),
            (Call::Get(131071, 65535), no(Ground::File, 131071, 65535)),
            (Call::Get(65535, 131071), no(Ground::Block, 65535, 131071)),
            (Call::Drop(4294967295, 0), no(Ground::File, 4294967295, 0)),
            (Call::Drop(65535, 65536), no(Ground::Block, 65535, 65536)),
            (Call::Lowest(65536, 0), no(Ground::File, 65536, 0)),
            (Call::Lowest(0, 65536), no(Ground::Block, 0, 65536)),
            (Call::Get(65535, 65535), at(4, 5)),
        ];
        on_each(&rt, 3, &script, 1)
    }

    #[test]
    fn lowest_keys(rt: HostRuntime) -> Result<(), Fail> {
        let script = [
            (Call::Put(1, 10, 2, 3), DONE),
            (Call::Put(1, 4, 4, 5), DONE),
            (Call::Put(2, 0, 6, 7), DONE),
            (Call::Put(1, 65535, 8, 9), DONE),
            (Call::Lowest(1, 4), row(1, 4, 4, 5)),
            (Call::Lowest(1, 5), row(1, 10, 2, 3)),
            (Call::Lowest(1, 11), row(1, 65535, 8, 9)),
            (Call::Lowest(2, 0), row(2, 0, 6, 7)),
            (Call::Lowest(2, 1), NO_ROW),
            (Call::Lowest(0, 0), NO_ROW),
        ];
        on_each(&rt, 4, &script, 4)
    }

    // Three keys begin at the last row, so that two go round to the first.
    #[test]
    fn going_round(rt: HostRuntime) -> Result<(), Fail> {
        let script = [
            (Call::Put(0, 7, 1, 1), DONE),
            (Call::Put(0, 15, 1, 2), DONE),
            (Call::Put(0, 23, 1, 3), DONE),
            (Call::Drop(0, 7), dropped(true)),
            (Call::Get(0, 15), at(1, 2)),
            (Call::Get(0, 23), at(1, 3)),
            (Call::Get(0, 7), NO_ENTRY),
        ];
        let mut table = ProbingTable::new(rt.alloc(), 8, Level)?;
        run(&rt, &mut table, &script, 2);
        assert_eq!(rt; table.rows_looked_at(0, 23), 2);
        assert_eq!(rt; table.rows_looked_at(0, 31), 3);
        Ok(())
    }

    #[test]
    fn places(rt: HostRuntime) {
        assert_eq!(rt; Mixing.place_of(0, 1, 2048), 1591);
        assert_eq!(rt; Mixing.place_of(3, 4, 0), 0);
        assert_eq!(rt; Level.place_of(65535, 65535, 2048), 2046);
        assert_eq!(rt; Level.place_of(3, 4, 0), 0);
    }

    // ---- the greatest room

    // The i-th of the keys from a block on, by thirds in three files.
    fn third(first: u16, i: u16) -> (u32, u32) {
        (
            u32::from(i % 3),
            u32::from(first.wrapping_add(i.wrapping_mul(31))),
        )
    }

    // Puts so many of these keys, and tells how many were refused.
    fn fill<T: Table>(table: &mut T, first: u16, n: u16) -> usize {
        (0..n)
            .map(|i| {
                let (file, block) = third(first, i);
                table.put(
                    file,
                    block,
                    Entry {
                        length: 1,
                        board: i,
                    },
                )
            })
            .filter(|answer| answer.is_err())
            .count()
    }

    // Drops every other of these keys, and tells how many were there.
    fn thin<T: Table>(table: &mut T, first: u16, n: u16) -> usize {
        (0..n)
            .filter(|i| *i % 2 == 0)
            .map(|i| {
                let (file, block) = third(first, i);
                table.drop(file, block)
            })
            .filter(|answer| *answer == Ok(true))
            .count()
    }

    // Tells how many of these keys are found with their entries.
    fn seen<T: Table>(table: &T, first: u16, n: u16) -> usize {
        (0..n)
            .filter(|i| {
                let (file, block) = third(first, *i);
                matches!(table.get(file, block), Ok(Some(entry)) if entry.board == *i)
            })
            .count()
    }

    fn crowded<T: Table>(rt: &impl Abort, table: &mut T) {
        assert_eq!(rt; table.room(), 2048);
        assert_eq!(rt; fill(table, 0, 2100), 52);
        assert_eq!(rt; seen(table, 0, 2100), 2048);
        assert_eq!(rt; thin(table, 0, 2048), 1024);
        assert_eq!(rt; seen(table, 0, 2100), 1024);
        assert_eq!(rt; fill(table, 7, 1025), 1);
        assert_eq!(rt; seen(table, 7, 1025), 1024);
        assert_eq!(rt; fill(table, 7, 1024), 0);
    }

    #[test]
    fn most_places(rt: HostRuntime) -> Result<(), Fail> {
        crowded(&rt, &mut OrderedTable::new(rt.alloc(), 2049)?);
        crowded(&rt, &mut ProbingTable::new(rt.alloc(), 4294967295, Mixing)?);
        crowded(&rt, &mut ProbingTable::new(rt.alloc(), 2048, Level)?);
        Ok(())
    }

    // ---- many calls beside a map

    fn key(file: u32, block: u32) -> u32 {
        file.wrapping_mul(65536).wrapping_add(block)
    }

    // What a table with this room is to answer, by a map of the library.
    fn model(
        map: &mut BTreeMap<u32, Entry>,
        room: usize,
        call: Call,
    ) -> Result<Result<Told, Fault>, AllocError> {
        match call {
            Call::Put(file, block, length, board) => {
                let full = map.len() >= room && !map.contains_key(&key(file, block));
                if full {
                    return Ok(no(Ground::TableFull, file, block));
                }
                let _ = map.insert(key(file, block), Entry { length, board })?;
                Ok(DONE)
            }
            Call::Get(file, block) => Ok(Ok(Told::Entry(map.get(&key(file, block)).copied()))),
            Call::Drop(file, block) => Ok(dropped(map.remove(&key(file, block)).is_some())),
            Call::Lowest(file, block) => Ok(Ok(Told::Lowest(next_key(map, file, block)))),
            Call::Empty => {
                map.clear();
                Ok(DONE)
            }
        }
    }

    fn next_key(map: &BTreeMap<u32, Entry>, file: u32, block: u32) -> Option<Row> {
        let from = key(file, block);
        let to = key(file, 65535);
        if from > to {
            return None;
        }
        let (k, entry) = map.range(from..=to).next()?;
        Some(Row {
            file: (*k / 65536) as u16,
            block: (*k % 65536) as u16,
            entry: *entry,
        })
    }

    // The next number of a simple row of random ones. The trials of the maps have another row: each keeps its numbers.
    fn random(x: &mut u32) -> u32 {
        *x = x.wrapping_mul(1664525).wrapping_add(1013904223);
        *x / 65536
    }

    // A random number below n, or the last if n is 0.
    fn random_below(x: &mut u32, n: u32) -> u32 {
        if n == 0 { 65535 } else { random(x) % n }
    }

    fn random_call(x: &mut u32, files: u32, blocks: u32) -> Call {
        let file = random_below(x, files);
        let block = random_below(x, blocks);
        let choice = random(x) % 1000;
        if choice < 400 {
            Call::Put(
                file % 65536,
                block % 65536,
                (random(x) % 65536) as u16,
                (random(x) % 65536) as u16,
            )
        } else if choice < 600 {
            Call::Get(file, block)
        } else if choice < 900 {
            Call::Drop(file, block)
        } else if choice < 999 {
            Call::Lowest(file, block)
        } else {
            Call::Empty
        }
    }

    fn beside<T: Table>(
        rt: &(impl Abort + AllocGlobal),
        table: &mut T,
        seed: u32,
        files: u32,
        blocks: u32,
    ) -> Result<(), Fail> {
        let mut map = BTreeMap::new(rt.alloc());
        let room = table.room() as usize;
        let mut x = seed;
        for i in 0..20000u32 {
            let call = random_call(&mut x, files, blocks);
            assert_eq!(rt; tell(table, call), model(&mut map, room, call)?);
            assert_eq!(rt; table.held() as usize, map.len());
        }
        Ok(())
    }

    #[test]
    fn ordered_beside_a_map(rt: HostRuntime) -> Result<(), Fail> {
        beside(&rt, &mut OrderedTable::new(rt.alloc(), 13)?, 1, 3, 9)?;
        beside(&rt, &mut OrderedTable::new(rt.alloc(), 300)?, 2, 600, 0)?;
        beside(&rt, &mut OrderedTable::new(rt.alloc(), 300)?, 3, 7, 65536)
    }

    fn probing_beside<S: Spread + Drop>(
        rt: &(impl Abort + AllocGlobal),
        spread: S,
        n: u32,
        seed: u32,
        files: u32,
        blocks: u32,
    ) -> Result<(), Fail> {
        let mut table = ProbingTable::new(rt.alloc(), n, spread)?;
        beside(rt, &mut table, seed, files, blocks)
    }

    #[test]
    fn mixing_beside_a_map(rt: HostRuntime) -> Result<(), Fail> {
        probing_beside(&rt, Mixing, 13, 4, 3, 9)?;
        probing_beside(&rt, Mixing, 64, 6, 0, 100)?;
        probing_beside(&rt, Mixing, 300, 7, 7, 65536)
    }

    #[test]
    fn level_beside_a_map(rt: HostRuntime) -> Result<(), Fail> {
        probing_beside(&rt, Level, 8, 8, 3, 5)?;
        probing_beside(&rt, Level, 64, 10, 2, 40)?;
        probing_beside(&rt, Level, 300, 11, 7, 65536)
    }
}
