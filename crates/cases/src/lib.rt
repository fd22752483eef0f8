//! Worked cases: what the rules come to on numbers, proved from the rules and then run.

#![tactic(auto)]

ghost use Rattle.cases.specs.Cases.{Worked};

/// The worked cases hold by the rules alone.
pub fn worked_cases()
    ensures { Worked }
{}

#[cfg(test)]
mod tests {
    use crate::worked_cases;
    use extents::key::Key;
    use paths::{path_key, path_length};
    use run_keys::run::keys_of_run;
    use std::test::Fail;
    use tables::spread::{Mixing, Spread};

    const PATHS: [(u32, [u32; 4], u32); 4] = [
        (7, [7, 6, 4, 0], 4),
        (4095, [4095, 4094, 4092, 4088], 13),
        (4096, [4096, 65536, 65536, 65536], 1),
        (4103, [4103, 4102, 4100, 4096], 4),
    ];

    // The worked cases, one after another, as the code answers them.
    #[test]
    fn the_code_agrees_with_the_worked_cases(rt: HostRuntime) -> Result<(), Fail> {
        worked_cases();
        for (block, starts, length) in PATHS {
            assert_eq!(rt; path_length(block), length);
            for (k, start) in (0..4u32).zip(starts) {
                assert_eq!(rt; path_key(block, k), start);
            }
        }
        assert_eq!(rt; Mixing.place_of(0, 1, 2048), 1591);
        let keys = keys_of_run(rt.alloc(), 3, 8, 103)?;
        assert_eq!(rt;
            keys.as_slice(),
            [
                key(3, 1, 103),
                key(4, 4, 104),
                key(8, 2, 108),
                key(10, 1, 110),
            ]
            .as_slice()
        );
        let keys = keys_of_run(rt.alloc(), 0, 11, 100)?;
        assert_eq!(rt;
            keys.as_slice(),
            [key(0, 8, 100), key(8, 2, 108), key(10, 1, 110)].as_slice()
        );
        Ok(())
    }

    fn key(start: u16, length: u16, board: u16) -> Key {
        Key {
            start,
            length,
            board,
        }
    }
}
