// What is printed. A line that begins with '#' is a remark: it is no name and no number, and it is passed over when it is read again.
use refusals::Refusal;
use std::alloc::AllocError;
use std::fmt::Display;
use std::io;
use std::io::Write;

// How many lines of a file there were so far, and how many of them were refused. A task counts by itself what else they give.
#[derive(Clone, Copy, Default)]
pub struct Tally {
    pub line: u64,
    pub refused: u64,
}

// Counts one more.
pub fn count(n: &mut u64) {
    *n = n.saturating_add(1);
}

// Why a command that fails is the last one.
// Kept: an enum. It is the error of a Result, and `?` makes it of other errors by `From`, which an Option could not have.
#[derive(Drop)]
pub enum Stop {
    // A remark says why, and the program ends as usual.
    Told,
    Failed(io::Error),
}

impl From<io::Error> for Stop {
    fn from(error: io::Error) -> Stop {
        Stop::Failed(error)
    }
}

impl From<AllocError> for Stop {
    fn from(error: AllocError) -> Stop {
        Stop::Failed(io::Error::from(error))
    }
}

// Where the answers to the lines of a file are printed, and how many lines there were so far.
#[derive(Drop)]
pub struct Report<'a, W> {
    pub out: &'a mut W,
    pub tally: Tally,
}

impl<W: Write> Report<'_, W> {
    // Prints a line or a name, and what stands before it.
    pub fn line<B: Display + Drop>(&mut self, before: B, s: &[u8]) -> io::Result<()> {
        line(self.out, before, s)
    }

    // Prints why a line cannot be taken, and counts it as refused.
    pub fn passed_over<D: Display + Drop>(&mut self, why: D) -> io::Result<()> {
        count(&mut self.tally.refused);
        let line = self.tally.line;
        writeln!(self.out, "# line {line}: {why}")
    }

    pub fn refused(&mut self, refusal: Refusal) -> io::Result<()> {
        self.passed_over(format_args!("refused, {refusal}"))
    }
}

// Prints a line that ends in bytes which need not be text.
pub fn line<W: Write, B: Display + Drop>(out: &mut W, before: B, s: &[u8]) -> io::Result<()> {
    write!(out, "{before}")?;
    out.write_all(s)?;
    writeln!(out)
}

pub fn remark<W: Write, D: Display + Drop>(out: &mut W, what: D, which: &[u8]) -> io::Result<()> {
    line(out, format_args!("# {what}"), which)
}

// Prints a remark why a command stops.
pub fn give_up<W: Write, D: Display + Drop>(out: &mut W, what: D, which: &[u8]) -> Stop {
    match remark(out, what, which) {
        Ok(()) => Stop::Told,
        Err(error) => Stop::Failed(error),
    }
}

// Prints which commands there are, at a word that names none.
pub fn usage<W: Write>(out: &mut W, word: &[u8]) -> io::Result<()> {
    remark(out, "not a command with its words: ", word)?;
    let commands = "number FILE, read FILE, compare FILE FILE, pair FILE FILE, blocks WIDTH COUNT";
    writeln!(
        out,
        "# {commands}, one after the other; - is the standard input"
    )
}
