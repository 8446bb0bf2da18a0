// Replays calls with the answers that the original gave to them, and prints how many there are and which differ.
// `tools/compare NEMO_SOURCE ARCHIVE replay` makes the file stdin: calls with the answers of the original (Nemo, commit 7706c48f81), with
// blocks of 16. No answer comes from this library.
#![tactic(auto)]

mod call;
mod dictionary_memory;
mod replay;

use std::io;
use std::io::{BufWriter, Read, Write};

// Kept: `calls` begins alike. A function for both would take what is done with the input as a closure, and is no plainer than these lines.
fn main(rt: HostRuntime) -> io::Result<()> {
    let alloc = rt.alloc();
    let mut input = Vec::new(alloc);
    rt.stdin().read_to_end(&mut input)?;
    let mut out = BufWriter::new(alloc, io::writer(&rt))?;
    replay::run(&mut out, alloc, input.as_slice())?;
    out.flush()
}
