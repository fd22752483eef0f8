//! Carries a season's picture, read from standard input, into a flat store, and prints what came of it.

#![tactic(auto)]

use blocks::BLOCK_BYTES;
use carrying::{Summary, bytes_differing, carry_all};
use flat::{FlatStore, Picture};
use lowers::Reading;
use std::io::Read;

/// The blocks of a file, in the picture and in the store.
const WIDTH: u32 = 2;

/// The files of the store.
const FILES: u32 = 4;

fn main(rt: HostRuntime) -> anyhow::Result<()> {
    let mut season = Vec::new(rt.alloc());
    rt.stdin().read_to_end(&mut season)?;
    let size = FILES as usize * WIDTH as usize * BLOCK_BYTES;
    let mut memory = vec![in rt.alloc(); 0u8; size]?;

    let mut picture = Picture::new(season.as_slice(), WIDTH);
    let mut store = FlatStore::new(memory.as_mut_slice(), WIDTH);
    let pictured = picture.files();
    let files = store.files();
    let Summary { carried, refused } = carry_all(&mut picture, &mut store);

    let whole = pictured as usize * WIDTH as usize * BLOCK_BYTES;
    let reach = season.len().min(whole);
    let differing = bytes_differing(&season.as_slice()[..reach], memory.as_slice());
    println!(rt; "picture: {pictured} files of {WIDTH} blocks")?;
    println!(rt; "store: {files} files of {WIDTH} blocks")?;
    println!(rt; "blocks carried: {carried}")?;
    println!(rt; "blocks refused: {refused}")?;
    println!(rt; "bytes that differ: {differing}")?;
    Ok(())
}
