// Several numbers in one word or one quad of `lists`: how each is made, and how it is taken apart.
#![tactic(auto)]

ghost use Rattle.std.specs.Prelude.{◌≡◌, ◌+◌, ◌*◌, ◌≤◌, ◌<◌};
ghost use Rattle.layout.specs.Fields.{page_of, offset_of, size_of, entry_word, owner_of, used_of, position_of, page_word, named_by, top_of, block_word};
ghost use Rattle.layout.specs.Packed.{block_owner};

use crate::{ENTRY_NUMBERS, PAGE_NUMBERS};

// A page: its owner below OWNERS, then its used bytes below OFFSETS, then its position from POSITION up. An entry: its page below PAGE_NUMBERS, then its offset
// below OFFSETS, then its length from LENGTH up. A block: 1 + its kind below OWNERS, then its local block. An index place: its entry + 1 below ENTRY_NUMBERS, then
// the top bits of the hash.
const OWNERS: usize = 16;

const OFFSETS: usize = 2097152;

const POSITION: usize = 33554432;

const LENGTH: usize = 2147483648;

// Where an entry lies: its page, its offset there, and its length.
// Kept: the numbers here are as a word holds them, and their bounds are asked where a word is made. Foreign memory may hold any word, so whoever reads one tests it;
// a type with the bounds in it would be no plainer for the one or two writers of each, who hand them on from their callers. The impls are alike, but each word has other parts.
#[derive(Clone, Copy)]
pub struct Extent {
    pub page: usize,
    pub offset: usize,
    pub len: usize,
}

impl From<usize> for Extent {
    ghost from_gives = { λ w x. (x.page ≡ page_of w) × (x.offset ≡ offset_of w) × (x.len ≡ size_of w) };

    fn from(w: usize) -> Extent {
        Extent {
            page: w % PAGE_NUMBERS,
            offset: w / PAGE_NUMBERS % OFFSETS,
            len: w / LENGTH,
        }
    }
}

impl Extent {
    // The word of these numbers.
    pub fn word(self) -> usize
        requires { (self.page < 1024) × (self.offset ≤ 1048576) × (self.len ≤ 1048576) }
        ensures { result ≡ entry_word self.page self.offset self.len }
    {
        self.page + PAGE_NUMBERS * self.offset + LENGTH * self.len
    }
}

// A page: its owner, which is its dictionary + 1 or 0 for none, how many of its bytes are used, and its position among its dictionary's pages.
#[derive(Clone, Copy)]
pub struct PageState {
    pub owner: usize,
    pub used: usize,
    pub position: usize,
}

impl From<usize> for PageState {
    ghost from_gives = { λ w x. (x.owner ≡ owner_of w) × (x.used ≡ used_of w) × (x.position ≡ position_of w) };

    fn from(w: usize) -> PageState {
        PageState {
            owner: w % OWNERS,
            used: w / OWNERS % OFFSETS,
            position: w / POSITION,
        }
    }
}

impl PageState {
    // The word of these numbers.
    pub fn word(self) -> usize
        requires { (self.owner < 16) × (self.used < 2097152) × (self.position < 549755813888) }
        ensures { result ≡ page_word self.owner self.used self.position }
    {
        self.owner + OWNERS * self.used + POSITION * self.position
    }
}

// An index place that is not empty: the entry + 1, and the top bits of the hash of the entry's key.
#[derive(Clone, Copy)]
pub struct IndexPlace {
    pub entry: usize,
    pub top: usize,
}

impl From<usize> for IndexPlace {
    ghost from_gives = { λ q x. (x.entry ≡ named_by q) × (x.top ≡ top_of q) };

    fn from(q: usize) -> IndexPlace {
        IndexPlace {
            entry: q % ENTRY_NUMBERS,
            top: q / ENTRY_NUMBERS,
        }
    }
}

impl IndexPlace {
    // The number of the place.
    pub fn quad(self) -> usize
        requires { (self.entry < 2097152) × (self.top < 2048) }
        ensures { result ≡ self.entry + 2097152 * self.top }
    {
        self.entry + ENTRY_NUMBERS * self.top
    }
}

// Whose a global block is: the number of its kind, and the kind's local block.
#[derive(Clone, Copy)]
pub struct BlockOwner {
    pub kind: usize,
    pub block: usize,
}

impl BlockOwner {
    // None: the block is free.
    // Kept: a function. `From` has to stand with one of its types, and Option is std's.
    pub fn of(w: usize) -> Option<BlockOwner>
        ensures { result ≡ block_owner w }
    {
        if w == 0 {
            return None;
        }
        Some(BlockOwner {
            kind: (w - 1) % OWNERS,
            block: (w - 1) / OWNERS,
        })
    }

    // The word of these numbers.
    pub fn word(self) -> usize
        requires { (self.kind < 4) × (self.block < 4096) }
        ensures { result ≡ block_word self.kind self.block }
    {
        1 + self.kind + OWNERS * self.block
    }
}
