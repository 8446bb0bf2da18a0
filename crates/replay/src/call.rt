// A call with the answer that the original gave. It is a line of the input: + add, ? find, # count, < or any other character read; the kind;
// f fresh, k known, - none, n or any other character a name; the number in four hexadecimal digits and a space; the first part, '|', the
// second part. A read is given the number, and the name is its answer.
ghost use Rattle.std.specs.Prelude.{◌≤◌};

use numbers::{NamedictCounted, NamedictName, NamedictNumbered};

// Which entry is called.
#[derive(Clone, Copy)]
pub enum Entry {
    Add,
    Find,
    Read,
    Count,
}

// The entry that a character says.
impl From<u8> for Entry {
    fn from(character: u8) -> Entry {
        match character {
            b'+' => Entry::Add,
            b'?' => Entry::Find,
            b'#' => Entry::Count,
            _ => Entry::Read,
        }
    }
}

// What the original answered.
#[derive(Clone, Copy, PartialEq, Eq)]
enum Word {
    Fresh,
    Known,
    Name,
    Nothing,
}

// The answer that a character says.
// Kept: two matches. One function for both enums would need their characters as data, and is no plainer.
impl From<u8> for Word {
    fn from(character: u8) -> Word {
        match character {
            b'f' => Word::Fresh,
            b'k' => Word::Known,
            b'-' => Word::Nothing,
            _ => Word::Name,
        }
    }
}

// Kept: the name has no type of its own here. It borrows parts of the line, as a name of `checklist` does: a common type for the two would need one
// more crate. A name of `calls` owns its bytes, and the library's own holds a `Kind`: here any number may come, as in the C interface.
#[derive(Clone, Copy)]
pub struct Call<'a> {
    pub entry: Entry,
    pub kind: u64,
    word: Word,
    pub number: u64,
    pub first: &'a [u8],
    pub second: &'a [u8],
}

// The value of a digit of the kind or of the number.
// Kept: std's `to_digit` and `lines::digit` are no plainer here. Every character has a value, also one that is no digit.
fn digit(character: u8) -> u64
    ensures { result ≤ 255 }
{
    match character {
        b'a'.. => u64::from(character - b'a') + 10,
        b'0'.. => u64::from(character - b'0'),
        _ => 0,
    }
}

impl<'a> Call<'a> {
    // The call that a line is. None: the line is too short, or has no '|'.
    pub fn parse(line: &'a [u8]) -> Option<Call<'a>> {
        let [entry, kind, word, a, b, c, d, _, name @ ..] = line else {
            return None;
        };
        let mut parts = name.splitn(2, |b| *b == b'|');
        Some(Call {
            entry: Entry::from(*entry),
            kind: digit(*kind),
            word: Word::from(*word),
            number: ((digit(*a) * 16 + digit(*b)) * 16 + digit(*c)) * 16 + digit(*d),
            first: parts.next()?,
            second: parts.next()?,
        })
    }

    // Whether this is the answer of add or of find. Neither answers with a name.
    pub fn is_numbered(self, answer: NamedictNumbered) -> bool {
        let word = match self.word {
            Word::Fresh => numbers::FRESH,
            Word::Known => numbers::KNOWN,
            Word::Name | Word::Nothing => numbers::NONE,
        };
        let expected = NamedictNumbered {
            refusal: 0,
            word,
            number: self.number,
        };
        answer == expected
    }

    // Whether this is the answer of read, which put the name's parts into the buffer.
    // Kept: `calls` has a test like this one. It has its own type of names and no case of no name, so one for both is no plainer.
    pub fn is_read(self, answer: NamedictName, buffer: &[u8]) -> bool {
        if self.word == Word::Nothing {
            return answer.refusal == 0 && answer.word == numbers::NONE;
        }
        let expected = NamedictName {
            refusal: 0,
            word: numbers::NAME,
            kind: self.kind,
            first_len: self.first.len() as u64,
            second_len: self.second.len() as u64,
        };
        answer == expected
            && buffer
                .strip_prefix(self.first)
                .is_some_and(|behind| behind.starts_with(self.second))
    }

    // Whether this is the answer of count.
    pub fn is_counted(self, answer: NamedictCounted) -> bool {
        let expected = NamedictCounted {
            refusal: 0,
            count: self.number,
        };
        answer == expected
    }
}
