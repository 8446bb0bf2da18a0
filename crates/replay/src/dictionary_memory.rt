// The memory of the dictionary, and the calls on it.
use crate::call::{Call, Entry};
use std::alloc::{AllocError, Global};

// The sizes of the dictionary. A block has 16 numbers.
const PAGE_WIDTH: u64 = 13;

const PAGES: u64 = 8;

const LIST_LENGTH: u64 = 120;

const BLOCK_WIDTH: u64 = 4;

const BLOCKS: u64 = 64;

// The bytes that these sizes need.
const PAGE_BYTES: usize = 65536;

const LIST_BYTES: usize = 20416;

// A buffer for a name. The names of the input are shorter.
const BUFFER: usize = 300;

// Kept: each of the three programs has such a struct. A common one needs one more crate for two fields; `calls` fills it otherwise, and `checklist` sizes it otherwise.
#[derive(Drop)]
pub struct Memory {
    pages: Vec<u8>,
    lists: Vec<u8>,
}

impl Memory {
    pub fn new(alloc: Global) -> Result<Memory, AllocError> {
        Ok(Memory {
            pages: vec![in alloc; 0xAAu8; PAGE_BYTES]?,
            lists: vec![in alloc; 0xAAu8; LIST_BYTES]?,
        })
    }

    // Opens the dictionary anew, and returns whether it could.
    pub fn open(&mut self) -> bool {
        let pages = self.pages.as_slice();
        let lists = self.lists.as_mut_slice();
        namedict::namedict_open(
            pages,
            lists,
            PAGE_WIDTH,
            PAGES,
            LIST_LENGTH,
            BLOCK_WIDTH,
            BLOCKS,
        ) == 0
    }

    // Makes the call, and returns whether the original's answer comes.
    pub fn agrees(&mut self, call: Call<'_>) -> bool {
        let pages = self.pages.as_mut_slice();
        let lists = self.lists.as_mut_slice();
        let Call {
            kind,
            number,
            first,
            second,
            ..
        } = call;
        // Kept: a match. Each entry takes other arguments and returns another struct, so closures or a trait would have the same bodies.
        match call.entry {
            Entry::Add => {
                call.is_numbered(namedict::namedict_add(pages, lists, kind, first, second))
            }
            Entry::Find => {
                call.is_numbered(namedict::namedict_find(pages, lists, kind, first, second))
            }
            Entry::Read => {
                let mut buffer = [0xAAu8; BUFFER];
                let answer = namedict::namedict_read(pages, lists, number, &mut buffer);
                call.is_read(answer, &buffer)
            }
            Entry::Count => call.is_counted(namedict::namedict_count(pages, lists, kind)),
        }
    }
}
