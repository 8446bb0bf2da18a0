// Makes a call from each line of the input. The first character says which call. Words follow, with a space between two. P and L say how
// many bytes of the pages and of the lists are lent. NAME is a kind and two parts.
//   o P L SIZE SIZE SIZE SIZE SIZE   open
//   a P L NAME                       add
//   f P L NAME                       find
//   r P L NUMBER LENGTH              read, into a buffer of AA of that length
//   c P L KIND                       count
//   b P L FROM FROM                  no call: prints the lent pages and the lent lists from there on
//   A P L NAME, C P L KIND           add and count: prints only the answer, and no line end
//   T S H R W P U VALUE LENGTH PART PART   a leaf rule: text check, split, hash, frequent id read and written, packing, unpacking. Each takes
//                                    what it needs of the value, a buffer of AA of that length, and the two parts
//   q P L NAME                       add: prints nothing
//   = P L NAME NUMBER                read: prints nothing, and counts one more right if the number has that name
//   n TEXT                           prints the text and how many were right, and counts from 0 again
//   m BYTE                           fills all the memory with that byte
//   t TEXT                           prints the text, and no line end
//   -- TEXT                          a title: prints the line as it is
// A line of no bytes or of one byte prints a line end. A line with any other character prints "not a call". Nothing is done with a
// line of calls, or with such a line, if P or L is more than there is, nor with a line that asks for a buffer longer than LONGEST.
use crate::call::{Call, Memory};
use crate::leaf::Rule;
use crate::script::Words;
use std::alloc::{AllocError, Global};
use std::io::Write;
use std::{io, mem};

// The memory of all calls. Each call is lent a part of it.
const PAGE_BYTES: usize = 65536;

const LIST_BYTES: usize = 20416;

// What a line is.
#[derive(Clone, Copy)]
enum Line {
    Title,
    Text,
    Right,
    Fill,
    Rule(Rule),
    Call(Call),
}

impl Line {
    // What the first character of a line says.
    // Kept: an Option, and no error type: nothing is told but that it is none. The caller prints "not a call".
    fn named(character: u8) -> Option<Line> {
        match character {
            b'-' => Some(Line::Title),
            b't' => Some(Line::Text),
            b'n' => Some(Line::Right),
            b'm' => Some(Line::Fill),
            _ => match Rule::named(character) {
                Some(rule) => Some(Line::Rule(rule)),
                None => Call::named(character).map(Line::Call),
            },
        }
    }
}

// Reads the number of a line, into a buffer of the length behind it.
fn read<W: Write>(out: &mut W, memory: &Memory<'_>, words: &mut Words<'_>) -> io::Result<()> {
    let number = words.number();
    match words.buffer()? {
        Some(mut bytes) => memory.read(out, number, bytes.as_mut_slice()),
        None => Ok(()),
    }
}

// Counts one more right if the number behind the name of a line has that name. It is read back into a buffer just long enough.
fn read_back(
    alloc: Global,
    memory: &Memory<'_>,
    words: &mut Words<'_>,
    right: &mut u64,
) -> io::Result<()> {
    let name = words.name()?;
    let length = name.first.len().saturating_add(name.second.len());
    let mut bytes = vec![in alloc; 0xAAu8; length]?;
    if memory.reads_back(words.number(), &name, bytes.as_mut_slice()) {
        *right = right.saturating_add(1);
    }
    Ok(())
}

// The memory of the dictionary.
// Kept: each of the three programs has such a struct. A common one needs one more crate for two fields; `replay` fills it otherwise, and `checklist` sizes it otherwise.
#[derive(Drop)]
struct Whole {
    pages: Vec<u8>,
    lists: Vec<u8>,
}

impl Whole {
    fn new(alloc: Global) -> Result<Whole, AllocError> {
        Ok(Whole {
            pages: vec![in alloc; 0u8; PAGE_BYTES]?,
            lists: vec![in alloc; 0u8; LIST_BYTES]?,
        })
    }

    // The memory that a line with P and L is lent, if there is as much.
    fn lend(&mut self, words: &mut Words<'_>) -> Option<Memory<'_>> {
        let j = words.number() as usize;
        let k = words.number() as usize;
        Some(Memory {
            pages: self.pages.as_mut_slice().get_mut(..j)?,
            lists: self.lists.as_mut_slice().get_mut(..k)?,
        })
    }

    fn fill(&mut self, byte: u8) {
        self.pages.fill(byte);
        self.lists.fill(byte);
    }
}

// Where answers are printed, the memory, and how many names were right since they were last printed.
#[derive(Drop)]
struct Runner<'a, W: Write> {
    out: &'a mut W,
    alloc: Global,
    memory: Whole,
    right: u64,
}

impl<W: Write> Runner<'_, W> {
    fn line(&mut self, s: &[u8]) -> io::Result<()> {
        let [character, _, text @ ..] = s else {
            return writeln!(self.out);
        };
        let mut words = Words::new(self.alloc, text);
        // Kept: a match, as in `call` below. Each case takes another part of the line.
        match Line::named(*character) {
            Some(Line::Title) => self.title(s),
            Some(Line::Text) => self.out.write_all(text),
            Some(Line::Right) => self.tell_right(text),
            Some(Line::Fill) => {
                if let Ok(byte) = u8::try_from(words.number()) {
                    self.memory.fill(byte);
                }
                Ok(())
            }
            Some(Line::Rule(rule)) => self.rule(rule, &mut words),
            Some(Line::Call(call)) => self.call(call, &mut words),
            None => self.unknown(&mut words),
        }
    }

    fn title(&mut self, s: &[u8]) -> io::Result<()> {
        self.out.write_all(s)?;
        writeln!(self.out)
    }

    // Prints the text and how many names were right, and counts from 0 again.
    fn tell_right(&mut self, text: &[u8]) -> io::Result<()> {
        self.out.write_all(text)?;
        writeln!(self.out, " {}", mem::take(&mut self.right))
    }

    // A line that is none of these.
    fn unknown(&mut self, words: &mut Words<'_>) -> io::Result<()> {
        match self.memory.lend(words) {
            Some(_) => writeln!(self.out, "not a call"),
            None => Ok(()),
        }
    }

    // A line with a leaf rule: no memory is lent to it.
    fn rule(&mut self, rule: Rule, words: &mut Words<'_>) -> io::Result<()> {
        let value = words.number();
        let buffer = words.buffer()?;
        let (first, second) = words.parts()?;
        match buffer {
            Some(mut bytes) => rule.call(
                self.out,
                value,
                first.as_slice(),
                second.as_slice(),
                bytes.as_mut_slice(),
            ),
            None => Ok(()),
        }
    }

    // A line with a call. Nothing is done if it is to be lent more than there is.
    // Kept: a match. Each case takes another part of the words, so closures or a trait would have the same bodies.
    fn call(&mut self, call: Call, words: &mut Words<'_>) -> io::Result<()> {
        let Some(mut memory) = self.memory.lend(words) else {
            return Ok(());
        };
        match call {
            Call::Open => memory.open(self.out, words.sizes()),
            Call::Named(call) => memory.named(self.out, call, words),
            Call::Read => read(self.out, &memory, words),
            Call::Count => memory.count(self.out, words.number()),
            Call::CountBriefly => memory.count_briefly(self.out, words.number()),
            Call::ReadBack => read_back(self.alloc, &memory, words, &mut self.right),
            Call::Beyond => {
                let j = words.number() as usize;
                let k = words.number() as usize;
                memory.beyond(self.out, j, k)
            }
        }
    }
}

// Runs the lines, one after the other.
// Kept: `replay` has a loop like this one. A function for both would take what is done with a line as a closure, and is no plainer than three lines.
pub fn run<W: Write>(out: &mut W, alloc: Global, input: &[u8]) -> io::Result<()> {
    let mut runner = Runner {
        out,
        alloc,
        memory: Whole::new(alloc)?,
        right: 0,
    };
    for line in input.split_inclusive(|b| *b == b'\n') {
        runner.line(line.strip_suffix(b"\n").unwrap_or(line))?;
    }
    Ok(())
}
