// Makes the calls of its input, on all the exported entries. Prints each with its answer.
// tools/expected_calls.py makes the files stdin and stdout. It has the answers from document 01, from published vectors, and from a running Nemo.
#![tactic(auto)]

mod call;
mod leaf;
mod run;
mod script;
mod show;

use std::io;
use std::io::{BufWriter, Read, Write};

// Kept: `replay` begins alike. A function for both would take what is done with the input as a closure, and is no plainer than these lines.
fn main(rt: HostRuntime) -> io::Result<()> {
    let alloc = rt.alloc();
    let mut input = Vec::new(alloc);
    rt.stdin().read_to_end(&mut input)?;
    let mut out = BufWriter::new(alloc, io::writer(&rt))?;
    run::run(&mut out, alloc, input.as_slice())?;
    out.flush()
}
