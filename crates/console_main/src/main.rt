//! Reads commands for one extent map from standard input, a line each, and prints the reply to each.
//! Input behind the first 8,192 bytes is not read.

#![tactic(auto)]

use console::{LONGEST_INPUT, print_replies};
use std::io::{Read, Write};

/// Enough for the replies to the longest input.
const OUTPUT_BYTES: usize = 5 * LONGEST_INPUT + 5;

fn main(rt: HostRuntime) -> anyhow::Result<()> {
    let mut input = Vec::new(rt.alloc());
    let _ = rt
        .stdin()
        .take(LONGEST_INPUT as u64)
        .read_to_end(&mut input)?;
    let mut output = vec![in rt.alloc(); 0u8; OUTPUT_BYTES]?;
    let replies = output.as_mut_slice();
    let printed = print_replies(rt.alloc(), input.as_slice(), replies)?;
    rt.stdout().write_all(&replies[0..printed])?;
    Ok(())
}
