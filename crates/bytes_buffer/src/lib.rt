// Pages (Nemo's bytes_buffer.rs): where the next entry goes. It only reads; a page's words and its own bytes are written elsewhere.
#![tactic(auto)]

ghost use Rattle.std.specs.Prelude.{◌≡◌, ◌+◌, ◌*◌, ◌^◌, ◌≤◌, ◌<◌, length};
ghost use Rattle.words.specs.Words.{word_at};
ghost use Rattle.layout.specs.Sizes.{page_size};
ghost use Rattle.layout.specs.Numbers.{dictionary_number};
ghost use Rattle.layout.specs.Fields.{untaken_at};
ghost use Rattle.bytes_buffer.specs.Spots.{up_to, lowest_of, next_of, spot_in, InPages, untaken_after};

use layout::lent::Lists;
use layout::packed::PageState;
use layout::{CURRENT, Dictionary, PAGES, STRIDE, Sizes, UNTAKEN};
use refusals::Refusal;
use words::WORD;

// Where an entry goes: behind the used bytes of the current page, or to the front of the lowest untaken page.
#[derive(Clone, Copy)]
pub enum Spot {
    Current { page: usize, offset: usize },
    Next(usize),
}

// A word of the lists that counts something, of which there are `most`. Unopened: the word is no dictionary's.
pub fn word_up_to(lists: &Lists<'_>, i: usize, most: usize) -> Result<usize, Refusal>
    requires { 8 * i + 8 ≤ length lists.now.bytes.now }
    ensures { result ≡ up_to most (word_at lists.now.bytes.now i) }
{
    let w = words::number_at::<WORD>(lists.bytes, i);
    if w <= most {
        return Ok(w);
    }
    Err(Refusal::Unopened)
}

// The lowest untaken page; n if none is left. Unopened: the word is no dictionary's.
// Kept: n for none. It is the word as memory holds it, and a plan counts on from it. An Option would be made of it and turned back into it.
#[tactic(auto, unfolding(crate::specs::Spots::lowest_of, layout::specs::Sizes::list_bytes))]
pub fn untaken(lists: &Lists<'_>) -> Result<usize, Refusal>
    ensures { result ≡ lowest_of lists.now.layout.sizes (word_at lists.now.bytes.now untaken_at) }
{
    word_up_to(lists, UNTAKEN, lists.layout.sizes.n)
}

// One more page, if one is left.
#[tactic(auto, unfolding(crate::specs::Spots::next_of))]
fn next(s: Sizes, untaken: usize) -> Result<Spot, Refusal>
    ensures { result ≡ next_of s untaken }
{
    let n = s.n;
    if untaken < n {
        return Ok(Spot::Next(untaken));
    }
    Err(Refusal::NoPage)
}

// Where an entry of len bytes goes in dictionary d. NoPage: no page is left. Unopened: the words are no dictionary's. It only reads: one add may plan two
// entries, the second with the next untaken page.
// Kept: the length is asked to be at most a page's, here and in the plans of an add. A type of such lengths would hold the sizes too, which stand in the lists already.
#[tactic(auto, unfolding(layout::specs::Sizes::list_bytes))]
pub fn plan(lists: &Lists<'_>, d: Dictionary, untaken: usize, len: usize) -> Result<Spot, Refusal>
    requires { len ≤ page_size lists.now.layout.sizes }
    ensures spot { result ≡ spot_in lists.now.layout.sizes (word_at lists.now.bytes.now) (dictionary_number d) untaken len }
    ensures in_pages { InPages lists.now.layout.sizes untaken len result }
{
    let s = lists.layout.sizes;
    let current = words::number_at::<WORD>(lists.bytes, CURRENT + STRIDE * usize::from(d));
    if current == 0 {
        return next(s, untaken);
    }
    let n = s.n;
    if n < current {
        return Err(Refusal::Unopened);
    }
    let page = current - 1;
    let used = PageState::from(words::number_at::<WORD>(lists.bytes, PAGES + page)).used;
    let size = lists.layout.page_size();
    if size < used {
        return Err(Refusal::Unopened);
    }
    if used + len <= size {
        return Ok(Spot::Current { page, offset: used });
    }
    next(s, untaken)
}

// The lowest untaken page after an entry at the spot, or after none. The plan of a second entry starts from it.
pub fn untaken_after(untaken: usize, spot: Option<Spot>) -> usize
    requires { untaken + 1 < 2 ^ 64 }
    ensures { result ≡ untaken_after untaken spot }
{
    match spot {
        Some(Spot::Next(_)) => untaken + 1,
        Some(Spot::Current { .. }) | None => untaken,
    }
}
