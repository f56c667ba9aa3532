// Reads a link file from standard input and prints the pages of its routers, or its fault.
// kept: each program has a `main` of its own, beside that of the other; they differ in the one function of the library that is called.
#![tactic(auto)]

use printing::{LONGEST_INPUT, print_pages};
use std::io::{Read, Write};

fn main(rt: HostRuntime) -> anyhow::Result<()> {
    // one byte more than may be read tells an input that is too long
    let longest = LONGEST_INPUT as u64 + 1;
    let mut input = Vec::new(rt.alloc());
    rt.stdin().take(longest).read_to_end(&mut input)?;
    let bytes = print_pages(rt.alloc(), &input)?;
    rt.stdout().write_all(&bytes)?;
    Ok(())
}
