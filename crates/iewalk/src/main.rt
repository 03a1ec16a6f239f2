// iewalk: how a UL NAS TRANSPORT message on standard input divides into information elements.
#![tactic(auto)]

use listing::{LONGEST_INPUT, listing};
use std::io::Read;

mod line;
mod listing;

fn run(rt: &HostRuntime) -> anyhow::Result<()> {
    let mut input = Vec::new(rt.alloc());
    // one octet more than is taken, so that a longer input is seen to be longer
    rt.stdin()
        .take(LONGEST_INPUT as u64 + 1)
        .read_to_end(&mut input)?;
    let text = listing(rt.alloc(), input.as_slice())?;
    rt.print(text)?;
    Ok(())
}

fn main(rt: HostRuntime) -> anyhow::Result<()> {
    run(&rt)
}
