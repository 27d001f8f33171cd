// Shows how each line of the standard input is cut into tokens, as a rule text.
#![tactic(auto)]

use protocol::{lines_in, listing, read_input};
use std::io::Write;

fn run(rt: &HostRuntime) -> anyhow::Result<()> {
    let input = read_input(rt.alloc(), rt.stdin())?;
    let mut out = rt.stdout();
    for line in lines_in(input.as_slice()) {
        let tokens = listing(rt.alloc(), line)?;
        out.write_all(tokens.as_slice())?;
    }
    Ok(())
}

fn main(rt: HostRuntime) -> anyhow::Result<()> {
    run(&rt)
}
