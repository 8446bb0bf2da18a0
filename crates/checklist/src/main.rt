// The field checklist on the command line: numbers names, reads numbers back, compares or pairs two numberings. The README has the commands.
#![tactic(auto)]

mod arguments;
mod command;
mod compare;
mod input;
mod line;
mod names_in_memory;
mod number;
mod report;

use std::io;
use std::io::BufWriter;

fn main(rt: HostRuntime) -> io::Result<()> {
    let alloc = rt.alloc();
    let words = arguments::arguments(&rt, alloc)?;
    let out = BufWriter::new(alloc, io::writer(&rt))?;
    command::run(&rt, alloc, out, words.as_slice())
}
