//! How far look-ups go in a probing table that is half full, before and after a million puts and drops.
//! Counts go to standard output, times to standard error.

#![tactic(auto)]

use blocks::Entry;
use probing::table::ProbingTable;
use std::ops::Range;
use std::time::Instant;
use tables::spread::{Level, Mixing, Spread};
use tables::table::Table;

/// Rows of the table.
const PLACES: u32 = 2048;

/// Keys held between rounds.
const HALF: u32 = 1024;

/// Puts and drops of the churn, as many of each.
const CHURN: u32 = 500000;

/// Look-ups of keys with odd blocks, which are never put.
const MISSES: u32 = 65536;

/// Numbers in turn become numbers at random, no two alike.
fn scatter(k: u32) -> u32 {
    let x = (k ^ (k >> 16)).wrapping_mul(2146121005);
    let y = (x ^ (x >> 15)).wrapping_mul(2221713035);
    y ^ (y >> 16)
}

/// The file and the block of the k-th key, at random, the block even.
fn key(k: u32) -> (u16, u16) {
    let x = scatter(k);
    ((x / 65536) as u16, (x % 65536 / 2 * 2) as u16)
}

/// The file and the block of the k-th key that is never put.
fn absent_key(k: u32) -> (u16, u16) {
    let (file, block) = key(k);
    (file, block | 1)
}

/// Puts these keys in turn, and before each drops the oldest.
fn churn<T: Table>(table: &mut T, keys: Range<u32>) {
    for k in keys {
        let (file, block) = key(k.wrapping_sub(HALF));
        let _ = table.remove(file, block);
        let (file, block) = key(k);
        let entry = Entry {
            length: 1,
            board: 0,
        };
        let _ = table.store(file, block, entry);
    }
}

/// How many of the look-ups of absent keys find an entry all the same.
fn misses<T: Table>(table: &T) -> usize {
    (0..MISSES)
        .filter(|k| {
            let (file, block) = absent_key(*k);
            table.find(file, block).is_some()
        })
        .count()
}

/// The rows that look-ups of absent keys look at: all together, and the most for one.
fn rows<S: Spread>(table: &ProbingTable<S>) -> (usize, usize) {
    (0..MISSES)
        .map(|k| {
            let (file, block) = absent_key(k);
            table.rows_looked_at(file, block)
        })
        .fold((0usize, 0usize), |(sum, most), n| {
            (sum.saturating_add(n), most.max(n))
        })
}

fn report<S: Spread>(
    rt: &HostRuntime,
    name: &str,
    when: &str,
    table: &ProbingTable<S>,
) -> anyhow::Result<()> {
    let (sum, most) = rows(table);
    let held = table.held();
    let tenths = sum.saturating_mul(10) / MISSES as usize;
    let whole = tenths / 10;
    let part = tenths % 10;
    println!(rt;
        "{name}, {when}: {held} keys held; a look-up that misses looks at {whole}.{part} rows on average, {most} at most"
    )?;
    let start = Instant::now(rt)?;
    let found = misses(table);
    let spent = start.elapsed(rt)?.as_micros();
    eprintln!(rt;
        "{name}, {when}: {MISSES} look-ups that miss, {found} found, took {spent} microseconds"
    )?;
    Ok(())
}

fn bench<S: Spread + Drop>(rt: &HostRuntime, name: &str, spread: S) -> anyhow::Result<()> {
    let mut table = ProbingTable::new(rt.alloc(), PLACES, spread)?;
    churn(&mut table, HALF..2 * HALF);
    report(rt, name, "new", &table)?;
    let start = Instant::now(rt)?;
    churn(&mut table, 2 * HALF..2 * HALF + CHURN);
    let spent = start.elapsed(rt)?.as_micros();
    eprintln!(rt; "{name}: {CHURN} puts and as many drops took {spent} microseconds")?;
    report(rt, name, "after the churn", &table)
}

fn main(rt: HostRuntime) -> anyhow::Result<()> {
    bench(&rt, "mixing", Mixing)?;
    bench(&rt, "level", Level)
}
