// The tool's dictionary: the library's entries on memory of its own, and their answers as results.
use crate::line::Name;
use numbers::{NamedictName, NamedictNumbered};
use refusals::Refusal;
use std::alloc::{AllocError, Global};

const PAGE_WIDTH: u64 = 16;

const PAGES: u64 = 32;

const LIST_LENGTH: u64 = 16384;

// The bytes that these sizes need, with up to 4,096 blocks.
const PAGE_BYTES: usize = 2097152;

const LIST_BYTES: usize = 2523904;

// The length of the longest name.
pub const LONGEST: usize = 4000;

// The blocks of a dictionary: how many, and that each has 2^width numbers. The numbers depend on the width, so the caller chooses.
#[derive(Clone, Copy)]
pub struct Blocks {
    pub width: u64,
    pub count: u64,
}

impl Blocks {
    // The blocks if the caller asks for none. They are as wide as Nemo's.
    pub const NEMO: Blocks = Blocks {
        width: 24,
        count: 4096,
    };
}

// The number that a name has, and whether the name is new.
// Kept: an enum of its own. The tool calls the exported entries alone, as a program in C does, and these give a u64 and a word.
#[derive(Clone, Copy)]
pub enum Added {
    Fresh(u64),
    Known(u64),
}

impl Added {
    pub fn number(self) -> u64 {
        match self {
            Added::Fresh(number) | Added::Known(number) => number,
        }
    }
}

impl TryFrom<NamedictNumbered> for Added {
    type Error = Refusal;

    fn try_from(answer: NamedictNumbered) -> Result<Added, Refusal> {
        checked(answer.refusal)?;
        Ok(match answer.word {
            numbers::FRESH => Added::Fresh(answer.number),
            _ => Added::Known(answer.number),
        })
    }
}

// The refusal that an answer gives by its number. Any other answer has 0 there, which is no refusal's number: the library gives no other number.
// Kept: a function. `From` has to stand beside one of its two types, and both are std's: `u64` and `Result`.
fn checked(refusal: u64) -> Result<(), Refusal> {
    match Refusal::try_from(refusal) {
        Ok(why) => Err(why),
        Err(_) => Ok(()),
    }
}

// Kept: each of the three programs has such a struct. A common one needs one more crate for two fields; the two others size it otherwise.
#[derive(Drop)]
pub struct Names {
    pages: Vec<u8>,
    lists: Vec<u8>,
}

impl Names {
    // A dictionary with no names.
    pub fn new(alloc: Global) -> Result<Names, AllocError> {
        let mut names = Names {
            pages: vec![in alloc; 0u8; PAGE_BYTES]?,
            lists: vec![in alloc; 0u8; LIST_BYTES]?,
        };
        // Not refused: these blocks are within the limits, and the memory has the bytes that they need.
        let _ = names.open(Blocks::NEMO);
        Ok(names)
    }

    // Begins a dictionary with no names in the same memory. If the blocks are refused, the old dictionary stays.
    pub fn open(&mut self, blocks: Blocks) -> Result<(), Refusal> {
        checked(namedict::namedict_open(
            self.pages.as_slice(),
            self.lists.as_mut_slice(),
            PAGE_WIDTH,
            PAGES,
            LIST_LENGTH,
            blocks.width,
            blocks.count,
        ))
    }

    pub fn add(&mut self, name: Name<'_>) -> Result<Added, Refusal> {
        let pages = self.pages.as_mut_slice();
        let lists = self.lists.as_mut_slice();
        Added::try_from(namedict::namedict_add(pages, lists, name.kind, name.first, name.second))
    }

    // The name that has this number, if there is one. The buffer takes its parts.
    pub fn read<'a>(
        &self,
        number: u64,
        buffer: &'a mut [u8; LONGEST],
    ) -> Result<Option<Name<'a>>, Refusal> {
        let pages = self.pages.as_slice();
        let lists = self.lists.as_slice();
        let answer = namedict::namedict_read(pages, lists, number, buffer);
        checked(answer.refusal)?;
        Ok(name_in(buffer, answer))
    }
}

// The name whose parts stand at the buffer's front, if there is one.
fn name_in(buffer: &[u8], answer: NamedictName) -> Option<Name<'_>> {
    if answer.word == numbers::NONE {
        return None;
    }
    let (first, behind) = buffer.split_at_checked(answer.first_len as usize)?;
    let (second, _) = behind.split_at_checked(answer.second_len as usize)?;
    Some(Name {
        kind: answer.kind,
        first,
        second,
    })
}
