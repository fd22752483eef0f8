//! Plans extents: reads runs of blocks, one a line, and prints the keys of each.

#![tactic(auto)]

use planning::plan::plan;
use std::io::Read;

fn main(rt: HostRuntime) -> anyhow::Result<()> {
    let mut input = Vec::new(rt.alloc());
    let _ = rt.stdin().read_to_end(&mut input)?;
    let text = plan(rt.alloc(), &input)?;
    rt.print(text)?;
    Ok(())
}
