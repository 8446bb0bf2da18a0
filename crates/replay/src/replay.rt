// Makes the calls of its input and compares the answers. A line is a call with its answer (call.rt), but for three:
//   o        opens the dictionary anew
//   = NAME   prints the name, how many calls there were and how many of them differ, and counts from 0 again
//   -- TEXT  a title: prints the line as it is
use crate::call::Call;
use crate::dictionary_memory::Memory;
use std::alloc::Global;
use std::io::Write;
use std::{io, mem};

// How many calls were made, and how many of them had another answer.
#[derive(Clone, Copy, Default)]
struct Tally {
    calls: u64,
    differ: u64,
}

impl Tally {
    fn count(&mut self, agrees: bool) {
        self.calls = self.calls.wrapping_add(1);
        if !agrees {
            self.differ = self.differ.wrapping_add(1);
        }
    }
}

// Where lines are printed, the dictionary, and the calls since they were last printed.
#[derive(Drop)]
struct Replay<'a, W: Write> {
    out: &'a mut W,
    memory: Memory,
    tally: Tally,
}

impl<W: Write> Replay<'_, W> {
    fn line(&mut self, line: &[u8]) -> io::Result<()> {
        match line {
            // Only the line o has fewer than two bytes.
            [] | [_] => self.open(),
            [b'-', ..] => self.print(line),
            [b'=', _, name @ ..] => {
                let Tally { calls, differ } = mem::take(&mut self.tally);
                self.out.write_all(name)?;
                writeln!(self.out, ": {calls} calls, {differ} differ")
            }
            _ => self.call(line),
        }
    }

    fn open(&mut self) -> io::Result<()> {
        if self.memory.open() {
            return Ok(());
        }
        writeln!(self.out, "not opened")
    }

    fn print(&mut self, line: &[u8]) -> io::Result<()> {
        self.out.write_all(line)?;
        writeln!(self.out)
    }

    // Makes the call of the line, counts it, and prints the line if the answer differs. A line that is no call differs.
    fn call(&mut self, line: &[u8]) -> io::Result<()> {
        let agrees = Call::parse(line).is_some_and(|call| self.memory.agrees(call));
        self.tally.count(agrees);
        if agrees {
            return Ok(());
        }
        self.out.write_all(b"differs: ")?;
        self.print(line)
    }
}

// Takes the lines, one after the other.
// Kept: `calls` has a loop like this one. A function for both would take what is done with a line as a closure, and is no plainer than three lines.
pub fn run<W: Write>(out: &mut W, alloc: Global, input: &[u8]) -> io::Result<()> {
    let mut replay = Replay {
        out,
        memory: Memory::new(alloc)?,
        tally: Tally::default(),
    };
    for line in input.split_inclusive(|b| *b == b'\n') {
        replay.line(line.strip_suffix(b"\n").unwrap_or(line))?;
    }
    Ok(())
}
