// The calls on lent memory. Each method that prints, but for `beyond`, makes one call and prints it with its answer, on one line.
use crate::script::{Name, Words};
use crate::show;
use crate::show::{Buffer, Counted, Found, Numbered, Opened, Part};
use numbers::{NamedictName, NamedictNumbered};
use std::fmt::{Display, Formatter};
use std::io::Write;
use std::{fmt, io};

// What is done with lent memory.
#[derive(Clone, Copy)]
pub enum Call {
    Open,
    Named(Named),
    Read,
    Count,
    // Counts, and prints only the answer and no line end.
    CountBriefly,
    // Reads a number, prints nothing, and counts whether it has the name.
    ReadBack,
    // No call of an entry: prints the bytes of the memory.
    Beyond,
}

// A call that is given a name.
#[derive(Clone, Copy)]
pub enum Named {
    Add,
    Find,
    // Adds a name, and prints only the answer and no line end.
    AddBriefly,
    // Adds a name, and prints nothing.
    AddSilently,
}

impl Call {
    // The call that the first character of a line says.
    // Kept: an Option, and no error type: nothing is told but that it is none. The caller prints "not a call".
    pub fn named(character: u8) -> Option<Call> {
        Some(match character {
            b'o' => Call::Open,
            b'a' => Call::Named(Named::Add),
            b'f' => Call::Named(Named::Find),
            b'r' => Call::Read,
            b'c' => Call::Count,
            b'A' => Call::Named(Named::AddBriefly),
            b'C' => Call::CountBriefly,
            b'q' => Call::Named(Named::AddSilently),
            b'=' => Call::ReadBack,
            b'b' => Call::Beyond,
            _ => return None,
        })
    }
}

impl Display for Name {
    fn fmt<W: fmt::Write>(&self, f: &mut Formatter<W>) -> fmt::Result {
        let first = Part(self.first.as_slice());
        let second = Part(self.second.as_slice());
        write!(f, " {}{first}{second}", self.kind)
    }
}

// The sizes of a dictionary.
// Kept: five u64, as the exported entry takes them. The input has sizes that are refused.
#[derive(Clone, Copy)]
pub struct Sizes {
    pub page_width: u64,
    pub page_count: u64,
    pub list_length: u64,
    pub block_width: u64,
    pub block_count: u64,
}

impl Display for Sizes {
    fn fmt<W: fmt::Write>(&self, f: &mut Formatter<W>) -> fmt::Result {
        let Sizes {
            page_width,
            page_count,
            list_length,
            block_width,
            block_count,
        } = *self;
        write!(
            f,
            " {page_width} {page_count} {list_length} {block_width} {block_count}"
        )
    }
}

// Two hashes of the lent memory.
#[derive(Clone, Copy, PartialEq, Eq)]
struct Hashes {
    pages: u32,
    lists: u32,
}

// The memory that is lent to a call.
#[derive(Drop)]
pub struct Memory<'a> {
    pub pages: &'a mut [u8],
    pub lists: &'a mut [u8],
}

impl Memory<'_> {
    fn hashes(&self) -> Hashes {
        Hashes {
            pages: fnv::fnv(self.pages),
            lists: fnv::fnv(self.lists),
        }
    }

    // Says of a refused call whether it left the memory as found.
    fn left(&self, refusal: u64, before: Hashes) -> &'static str {
        if refusal == 0 {
            ""
        } else if before == self.hashes() {
            ", memory as found"
        } else {
            ", memory changed"
        }
    }

    pub fn open<W: Write>(&mut self, out: &mut W, sizes: Sizes) -> io::Result<()> {
        let before = self.hashes();
        let refusal = self.open_silently(sizes);
        let memory = self.left(refusal, before);
        writeln!(
            out,
            "open{sizes} in {} {}:{}{memory}",
            self.pages.len(),
            self.lists.len(),
            Opened(refusal)
        )
    }

    // Makes the call and prints nothing.
    fn open_silently(&mut self, sizes: Sizes) -> u64 {
        // Kept: two typed lets. Tried as arguments: the prover does not cover `self.pages`, which is only read, beside `self.lists`, which is written.
        let pages: &mut [u8] = self.pages;
        let lists: &mut [u8] = self.lists;
        namedict::namedict_open(
            pages,
            lists,
            sizes.page_width,
            sizes.page_count,
            sizes.list_length,
            sizes.block_width,
            sizes.block_count,
        )
    }

    // Makes a call that is given the name of a line.
    pub fn named<W: Write>(
        &mut self,
        out: &mut W,
        call: Named,
        words: &mut Words<'_>,
    ) -> io::Result<()> {
        let name = words.name()?;
        match call {
            Named::Add => self.add(out, &name),
            Named::Find => self.find(out, &name),
            Named::AddBriefly => write!(out, "{}", Numbered(self.add_silently(&name))),
            Named::AddSilently => {
                let _ = self.add_silently(&name);
                Ok(())
            }
        }
    }

    fn add<W: Write>(&mut self, out: &mut W, name: &Name) -> io::Result<()> {
        let before = self.hashes();
        let answer = self.add_silently(name);
        let memory = self.left(answer.refusal, before);
        writeln!(out, "add{name}:{}{memory}", Numbered(answer))
    }

    // Makes the call and prints nothing.
    fn add_silently(&mut self, name: &Name) -> NamedictNumbered {
        let first = name.first.as_slice();
        let second = name.second.as_slice();
        namedict::namedict_add(self.pages, self.lists, name.kind, first, second)
    }

    fn find<W: Write>(&self, out: &mut W, name: &Name) -> io::Result<()> {
        let first = name.first.as_slice();
        let second = name.second.as_slice();
        let answer = namedict::namedict_find(self.pages, self.lists, name.kind, first, second);
        writeln!(out, "find{name}:{}", Numbered(answer))
    }

    pub fn read<W: Write>(&self, out: &mut W, number: u64, buffer: &mut [u8]) -> io::Result<()> {
        let answer = Found(namedict::namedict_read(self.pages, self.lists, number, buffer));
        show::with_buffer(out, format_args!("read {number}"), answer, buffer)
    }

    // Whether the number reads back as this name. The buffer is just as long as both parts.
    // Kept: `replay` has a test like this one. There a name is fields of its call, and a case of no name comes; so one for both is no plainer.
    pub fn reads_back(&self, number: u64, name: &Name, buffer: &mut [u8]) -> bool {
        let answer = namedict::namedict_read(self.pages, self.lists, number, buffer);
        let expected = NamedictName {
            refusal: 0,
            word: numbers::NAME,
            kind: name.kind,
            first_len: name.first.len() as u64,
            second_len: name.second.len() as u64,
        };
        answer == expected
            && buffer.strip_prefix(name.first.as_slice()) == Some(name.second.as_slice())
    }

    pub fn count<W: Write>(&self, out: &mut W, kind: u64) -> io::Result<()> {
        writeln!(out, "count {kind}:{}", self.count_silently(kind))
    }

    // Prints only the answer and no line end.
    pub fn count_briefly<W: Write>(&self, out: &mut W, kind: u64) -> io::Result<()> {
        write!(out, "{}", self.count_silently(kind))
    }

    // Makes the call and prints nothing.
    fn count_silently(&self, kind: u64) -> Counted {
        Counted(namedict::namedict_count(self.pages, self.lists, kind))
    }

    // Prints the pages from j on and the lists from k on.
    pub fn beyond<W: Write>(&self, out: &mut W, j: usize, k: usize) -> io::Result<()> {
        match (self.pages.get(j..), self.lists.get(k..)) {
            (Some(pages), Some(lists)) => {
                writeln!(out, "beyond:{} and{}", Buffer(pages), Buffer(lists))
            }
            _ => Ok(()),
        }
    }
}
