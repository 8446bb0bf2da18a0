// The words of a line: numbers, and the parts of a name.
// A number is written in hexadecimal. A digit is taken only while the number is below `ROOM`.
// A part is written as its bytes, two digits each. A '*' and a number behind a byte say how often it is repeated. A '.' ends that number if
// more bytes follow: 612f78*f9e, 68*c8.2f68*c8. A part of no bytes is '-'.
ghost use Rattle.std.specs.Prelude.{◌≤◌, length};

use crate::call::Sizes;
use std::alloc::{AllocError, Global};

// The longest packed form and buffer in the input. Both parts of a line have room for as many bytes together.
const LONGEST: usize = 8004;

// A name that a call is given.
// Kept: a type of its own. It owns its bytes, because a line writes them in hexadecimal. The names of the other two programs borrow parts of the line,
// and the library's own holds a `Kind`: here any number may come, as in the C interface.
#[derive(Drop)]
pub struct Name {
    pub kind: u64,
    pub first: Vec<u8>,
    pub second: Vec<u8>,
}

// The words of a line that are not read yet, and where what they say is stored.
#[derive(Drop)]
pub struct Words<'a> {
    alloc: Global,
    rest: &'a [u8],
}

impl<'a> Words<'a> {
    pub fn new(alloc: Global, line: &'a [u8]) -> Words<'a> {
        Words { alloc, rest: line }
    }

    // The number in front. The byte behind it is passed over.
    pub fn number(&mut self) -> u64 {
        let (value, behind) = number(self.rest);
        self.rest = behind;
        value
    }

    // The part in front, without the runs for which `room` bytes are too few.
    fn part(&mut self, room: usize) -> Result<Vec<u8>, AllocError> {
        let line = self.rest;
        let end = lines::end_of(line, 0, b' ');
        self.rest = &line[lines::behind(line, end)..];
        part(self.alloc, &line[..end], room)
    }

    // Two parts. What the first leaves is the room of the second.
    pub fn parts(&mut self) -> Result<(Vec<u8>, Vec<u8>), AllocError> {
        let first = self.part(LONGEST)?;
        let second = self.part(LONGEST.saturating_sub(first.len()))?;
        Ok((first, second))
    }

    // A buffer of AA with the length in front; none if it would be longer than any buffer of the input.
    pub fn buffer(&mut self) -> Result<Option<Vec<u8>>, AllocError> {
        let length = self.number();
        if length > LONGEST as u64 {
            return Ok(None);
        }
        let bytes = vec![in self.alloc; 0xAAu8; length as usize]?;
        Ok(Some(bytes))
    }

    pub fn sizes(&mut self) -> Sizes {
        Sizes {
            page_width: self.number(),
            page_count: self.number(),
            list_length: self.number(),
            block_width: self.number(),
            block_count: self.number(),
        }
    }

    pub fn name(&mut self) -> Result<Name, AllocError> {
        let kind = self.number();
        let (first, second) = self.parts()?;
        Ok(Name {
            kind,
            first,
            second,
        })
    }
}

// A number below this has room for one more digit.
const ROOM: u64 = 1 << 60;

// The number in front of a text, and what is behind the byte after it.
fn number(text: &[u8]) -> (u64, &[u8])
    ensures { length result.1.now ≤ length text.now }
{
    let (value, behind) = lines::digits::<16, ROOM>(text);
    (value, &behind[lines::behind(behind, 0)..])
}

// A byte of a part, and how often it is repeated.
#[derive(Clone, Copy)]
struct Run {
    byte: u8,
    count: u64,
}

// The byte that two digits write.
fn byte(high: u8, low: u8) -> Option<u8> {
    let high = lines::digit::<16>(high)?;
    let low = lines::digit::<16>(low)?;
    Some(high * 16 + low)
}

// How often the byte in front of this text is repeated, and what is behind that.
fn repeated(text: &[u8]) -> (u64, &[u8])
    ensures { length result.1.now ≤ length text.now }
{
    match text {
        [b'*', digits @ ..] => number(digits),
        _ => (1, text),
    }
}

// The run in front of a text, which has a first character, and the text behind it. A character that begins no byte is passed over: there is no run.
fn run_at(first: u8, behind: &[u8]) -> (Option<Run>, &[u8])
    ensures { length result.1.now ≤ length behind.now }
{
    if let [low, text @ ..] = behind
        && let Some(byte) = byte(first, *low)
    {
        let (count, behind) = repeated(text);
        return (Some(Run { byte, count }), behind);
    }
    (None, behind)
}

// The bytes of a part. A run that has no room is left out.
fn part(alloc: Global, text: &[u8], room: usize) -> Result<Vec<u8>, AllocError> {
    let mut bytes = Vec::new(alloc);
    let mut rest = text;
    while let Some((first, behind)) = rest.split_first() {
        let (run, behind) = run_at(*first, behind);
        if let Some(run) = run {
            put(&mut bytes, run, room)?;
        }
        rest = behind;
    }
    Ok(bytes)
}

// Puts a run behind the bytes, or nothing if there would be more than `room`.
fn put(bytes: &mut Vec<u8>, run: Run, room: usize) -> Result<(), AllocError> {
    let n = bytes.len();
    if n <= room && run.count <= (room - n) as u64 {
        bytes.resize(n + run.count as usize, run.byte)?;
    }
    Ok(())
}
