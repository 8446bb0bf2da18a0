// The index in which a dictionary's entries are searched. It replaces the HashMap of Nemo's bytes_dictionary.rs. The places of a search and the comparison of keys are in bytes_key.
#![tactic(auto)]

ghost use Rattle.std.specs.Prelude.{◌≡◌, ◌<◌};
ghost use Rattle.words.specs.Words.{word_at};
ghost use Rattle.layout.specs.Numbers.{dictionary_number};
ghost use Rattle.layout.specs.Fields.{entry_at};
ghost use Rattle.bytes_index.specs.Field.{entry_bytes, entry_in, SpanOf};
ghost use Rattle.bytes_key.specs.KeyBytes.{bytes_in};
ghost use Rattle.bytes_index.specs.Search.{Searched};

use bytes_key::{Key, Measured};
use layout::Dictionary;
use layout::lent::{Lists, Memory};
use layout::packed::{Extent, IndexPlace};
use refusals::Refusal;
use words::{QUAD, WORD};

// A search ends at the entry of its key, or at an empty place.
// Kept: an enum of its own. Neither end is an error, and the search may also refuse: a Result of two numbers inside a Result is no plainer.
#[derive(Clone, Copy)]
pub enum Probe {
    At(usize),
    Free(usize),
}

// Where an entry's bytes lie in the pages.
#[derive(Clone, Copy)]
pub struct Span {
    pub at: usize,
    pub len: usize,
}

// Where the bytes of entry i of dictionary d lie, which the lists alone say. Unopened: its word is no dictionary's.
#[tactic(auto, using(crate::proofs::Inside::inside))]
pub fn entry_span(lists: &Lists<'_>, d: Dictionary, i: usize) -> Result<Span, Refusal>
    requires { i < lists.now.layout.sizes.e }
    ensures { SpanOf lists.now.layout.sizes (word_at lists.now.bytes.now (entry_at lists.now.layout.sizes (dictionary_number d) i)) result }
{
    let layout = &lists.layout;
    let at = layout.dict_at(usize::from(d));
    let lies = Extent::from(words::number_at::<WORD>(lists.bytes, at + i));
    let size = layout.page_size();
    if layout.sizes.n <= lies.page {
        return Err(Refusal::Unopened);
    }
    if size < lies.offset + lies.len {
        return Err(Refusal::Unopened);
    }
    let at = lies.page * size + lies.offset;
    let len = lies.len;
    Ok(Span { at, len })
}

// The bytes of entry i of dictionary d. Unopened: its word is no dictionary's.
pub fn entry<'p>(memory: &Memory<'_, 'p>, d: Dictionary, i: usize) -> Result<&'p [u8], Refusal>
    requires { i < memory.now.lists.layout.sizes.e }
    ensures { entry_in result ≡ entry_bytes memory.now.lists.layout.sizes memory.now.pages.now (word_at memory.now.lists.bytes.now (entry_at memory.now.lists.layout.sizes (dictionary_number d) i)) }
{
    let span = entry_span(&memory.lists, d, i)?;
    let end = span.at + span.len;
    Ok(&memory.pages[span.at..end])
}

// Searches the index of a key's dictionary. It goes from the key's hash up, over at most 2e places, to the key's entry or the first empty place.
// An entry whose hash has other top bits has another key. Unopened: the memory is no dictionary's.
#[tactic(auto, using(crate::proofs::Inside::inside))]
pub fn bytes_to_id(memory: &Memory<'_, '_>, key: &Key<'_, '_>) -> Result<Probe, Refusal>
    ensures { Searched memory.now.lists.layout.sizes (dictionary_number key.now.d) memory.now.pages.now memory.now.lists.bytes.now (bytes_in key.now) result }
{
    let lists = &memory.lists;
    let e = lists.layout.sizes.e;
    let m = 2 * e;
    let d = key.d;
    let front = Measured::new(key.parts.front);
    let rest = Measured::new(key.parts.rest);
    let places = 2 * (lists.layout.dict_at(usize::from(d)) + m);
    let top = bytes_key::top_bits(key.h);
    let mut j = bytes_key::start(key.h, m);
    let mut t = 0;
    let mut w = 0;
    // Kept: the customer's document names this form, a loop with a label that is left from inside the comparison of bytes. Its steps are counted beside it: a `for`
    // that is left and one that has ended would go on at the same place.
    'probe: loop {
        if t == m {
            return Err(Refusal::Unopened);
        }
        let q = words::number_at::<QUAD>(lists.bytes, places + j);
        if q == 0 {
            return Ok(Probe::Free(j));
        }
        let place = IndexPlace::from(q);
        if place.top == top {
            w = place.entry;
            if w == 0 {
                return Err(Refusal::Unopened);
            }
            if e < w {
                return Err(Refusal::Unopened);
            }
            let stored = entry(memory, d, w - 1)?;
            if front.is_front(stored, rest.len) {
                let mut left = rest.len;
                loop {
                    if left == 0 {
                        break 'probe;
                    }
                    let Some(agreed) = rest.agreeing(stored, left) else {
                        break;
                    };
                    left -= agreed;
                }
            }
        }
        j = bytes_key::up(j, m);
        t += 1;
    }
    let i = w - 1;
    Ok(Probe::At(i))
}
