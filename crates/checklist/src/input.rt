// The lines of a file, read through a buffer: no file is too long.
use crate::report;
use crate::report::{Report, Stop, Tally, count};
use refusals::Refusal;
use std::alloc::Global;
use std::io;
use std::io::{BufRead, BufReader, Read, Write};

// What is done with each line of a file.
pub trait Task {
    // Prints what a line gives, and counts it.
    fn line<W: Write>(&mut self, report: &mut Report<'_, W>, s: &[u8]) -> io::Result<()>;
}

// A line with its end has at most as many bytes as the buffer.
const LONGEST: usize = 65536;

// What is read next.
#[derive(Clone, Copy)]
enum Next {
    // A line that had its end, or what was left of one.
    Line,
    // The last line, with no end behind it.
    Last,
    // As many bytes as the buffer has, with no end among them.
    Piece,
    End,
}

// Reads the next line without its end. One that is too long is read piece by piece.
fn read_next<R: BufRead>(lines: &mut R, line: &mut Vec<u8>) -> io::Result<Next> {
    line.clear();
    let n = lines.by_ref().take(LONGEST as u64).read_until(b'\n', line)?;
    if n == 0 {
        return Ok(Next::End);
    }
    if line.last() == Some(&b'\n') {
        let _ = line.pop();
        return Ok(Next::Line);
    }
    if n < LONGEST {
        return Ok(Next::Last);
    }
    Ok(Next::Piece)
}

// A line without each '\r' before the '\n', which some editors put there, and without the three bytes that some put at a file's start to mark it as
// UTF-8.
fn trimmed(line: u64, s: &[u8]) -> &[u8] {
    let mut rest = s;
    while let Some(front) = rest.strip_suffix(b"\r") {
        rest = front;
    }
    if line != 1 {
        return rest;
    }
    rest.strip_prefix(b"\xEF\xBB\xBF").unwrap_or(rest)
}

// Does the task with a line. An empty line, or one that begins with '#', is passed over.
fn one<W: Write, T: Task>(report: &mut Report<'_, W>, task: &mut T, line: &[u8]) -> io::Result<()> {
    count(&mut report.tally.line);
    let s = trimmed(report.tally.line, line);
    match s {
        [] | [b'#', ..] => Ok(()),
        _ => task.line(report, s),
    }
}

// A line that is too long is refused, unless it begins with '#'. No mark of UTF-8 is taken off it.
fn too_long<W: Write>(report: &mut Report<'_, W>, line: &[u8]) -> io::Result<()> {
    count(&mut report.tally.line);
    match line {
        [b'#', ..] => Ok(()),
        _ => report.refused(Refusal::TooLong),
    }
}

// Does the task with what was read next.
fn take<W: Write, T: Task>(
    report: &mut Report<'_, W>,
    task: &mut T,
    next: Next,
    line: &[u8],
) -> io::Result<()> {
    match next {
        Next::Line | Next::Last => one(report, task, line),
        Next::Piece => too_long(report, line),
        Next::End => Ok(()),
    }
}

// Does the task with each line of an open file. A remark says so if it cannot be read to its end.
pub fn run<R: Read + Drop, W: Write, T: Task>(
    file: R,
    alloc: Global,
    out: &mut W,
    task: &mut T,
) -> Result<Tally, Stop> {
    let mut lines = BufReader::with_capacity(alloc, LONGEST, file)?;
    // A line has this much room from the start, so no memory is asked for while it is read.
    let mut line = Vec::with_capacity(alloc, LONGEST)?;
    let mut report = Report {
        out,
        tally: Tally::default(),
    };
    // Whether what comes next belongs to a line that is too long, which is refused already.
    let mut cut = false;
    // Kept: a `for` that counts. A `loop` is no plainer: it needs a measure, and nothing bounds how many lines a file has.
    for _ in 0..u64::MAX {
        // Whoever writes the input line by line has the answers to all lines before this one.
        if !lines.buffer().contains(&b'\n') {
            report.out.flush()?;
        }
        let Ok(next) = read_next(&mut lines, &mut line) else {
            return Err(report::give_up(report.out, "cannot be read to its end", b""));
        };
        if !cut {
            take(&mut report, task, next, line.as_slice())?;
        }
        match next {
            Next::Line => cut = false,
            Next::Piece => cut = true,
            Next::Last | Next::End => break,
        }
    }
    Ok(report.tally)
}
