// How parts of names, buffers and answers are printed. Each begins with a space.
use numbers::{NamedictCounted, NamedictName, NamedictNumbered};
use std::fmt::{Display, Formatter};
use std::io::Write;
use std::{fmt, io};

// More bytes than this are printed as runs of equal bytes.
const MOST_BYTES: usize = 48;

// A byte as a character. A quote, a '\' and a byte that is no printable ASCII character are printed as \x and two digits.
#[derive(Clone, Copy)]
struct Character(u8);

impl Display for Character {
    fn fmt<W: fmt::Write>(&self, f: &mut Formatter<W>) -> fmt::Result {
        match self.0 {
            b'"' | b'\\' | 0..0x20 | 0x7F.. => write!(f, "\\x{:02x}", self.0),
            _ => write!(f, "{}", char::from(self.0)),
        }
    }
}

// Bytes as runs: how often, and which byte.
#[derive(Clone, Copy)]
struct Runs<'a>(&'a [u8]);

impl Runs<'_> {
    // The bytes as runs, if there are too many to be printed one by one.
    fn of(bytes: &[u8]) -> Option<Runs<'_>> {
        (bytes.len() > MOST_BYTES).then_some(Runs(bytes))
    }
}

impl Display for Runs<'_> {
    fn fmt<W: fmt::Write>(&self, f: &mut Formatter<W>) -> fmt::Result {
        for run in self.0.chunk_by(|a, b| *a == *b) {
            write_run(f, run)?;
        }
        Ok(())
    }
}

fn write_run<W: fmt::Write>(f: &mut Formatter<W>, run: &[u8]) -> fmt::Result {
    match run.first() {
        Some(b) => write!(f, " {} x '{}'", run.len(), Character(*b)),
        None => Ok(()),
    }
}

// A part of a name: its characters between quotes.
#[derive(Clone, Copy)]
pub struct Part<'a>(pub &'a [u8]);

impl Display for Part<'_> {
    fn fmt<W: fmt::Write>(&self, f: &mut Formatter<W>) -> fmt::Result {
        if let Some(runs) = Runs::of(self.0) {
            return write!(f, "{runs}");
        }
        f.write_str(" \"")?;
        for b in self.0 {
            write!(f, "{}", Character(*b))?;
        }
        f.write_str("\"")
    }
}

// A buffer with all its bytes, in hexadecimal.
#[derive(Clone, Copy)]
pub struct Buffer<'a>(pub &'a [u8]);

impl Display for Buffer<'_> {
    fn fmt<W: fmt::Write>(&self, f: &mut Formatter<W>) -> fmt::Result {
        if let Some(runs) = Runs::of(self.0) {
            return write!(f, "{runs}");
        }
        for b in self.0 {
            write!(f, " {b:02x}")?;
        }
        Ok(())
    }
}

// What is said of the numbers that should be 0.
fn beside(others: &[u64]) -> &'static str {
    if others.iter().all(|n| *n == 0) {
        ""
    } else {
        " with other numbers"
    }
}

// Prints an answer, or that the call was refused. The others are all numbers of the answer beside the refusal. They should be 0 beside a refusal; if
// they are not, that is printed.
// Kept: a number, as the C interface gives it. This program prints each refusal that comes, also one that no answer has. At a word that no answer
// has it prints "none with other numbers".
pub fn answered<W: fmt::Write, A: Display + Drop>(
    f: &mut Formatter<W>,
    refusal: u64,
    others: &[u64],
    answer: A,
) -> fmt::Result {
    if refusal != 0 {
        return write!(f, " refused {refusal}{}", beside(others));
    }
    write!(f, "{answer}")
}

// Prints a call with its answer, and the buffer after it.
pub fn with_buffer<W: Write, C: Display + Drop, A: Display + Drop>(
    out: &mut W,
    call: C,
    answer: A,
    buffer: &[u8],
) -> io::Result<()> {
    let room = buffer.len();
    let bytes = Buffer(buffer);
    writeln!(out, "{call} in {room}:{answer}, buffer{bytes}")
}

// Kept: a type for each answer, here and below. `Display` has to stand with one of its two types, and each answer of the C interface has other fields.
// The answer of open: it has no numbers beside the refusal.
#[derive(Clone, Copy)]
pub struct Opened(pub u64);

impl Display for Opened {
    fn fmt<W: fmt::Write>(&self, f: &mut Formatter<W>) -> fmt::Result {
        answered(f, self.0, &[], " done")
    }
}

#[derive(Clone, Copy)]
pub struct Numbered(pub NamedictNumbered);

impl Display for Numbered {
    fn fmt<W: fmt::Write>(&self, f: &mut Formatter<W>) -> fmt::Result {
        let NamedictNumbered {
            refusal,
            word,
            number,
        } = self.0;
        let others = &[word, number];
        match (refusal, word) {
            (0, numbers::FRESH) => write!(f, " fresh {number}"),
            (0, numbers::KNOWN) => write!(f, " known {number}"),
            _ => answered(f, refusal, others, format_args!(" none{}", beside(others))),
        }
    }
}

#[derive(Clone, Copy)]
pub struct Found(pub NamedictName);

impl Display for Found {
    fn fmt<W: fmt::Write>(&self, f: &mut Formatter<W>) -> fmt::Result {
        let NamedictName {
            refusal,
            word,
            kind,
            first_len,
            second_len,
        } = self.0;
        let others = &[word, kind, first_len, second_len];
        match (refusal, word) {
            (0, numbers::NAME) => write!(f, " kind {kind} lengths {first_len} {second_len}"),
            _ => answered(f, refusal, others, format_args!(" none{}", beside(others))),
        }
    }
}

#[derive(Clone, Copy)]
pub struct Counted(pub NamedictCounted);

impl Display for Counted {
    fn fmt<W: fmt::Write>(&self, f: &mut Formatter<W>) -> fmt::Result {
        let NamedictCounted { refusal, count } = self.0;
        answered(f, refusal, &[count], format_args!(" {count}"))
    }
}
