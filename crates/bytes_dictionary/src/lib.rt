// Inserts and reads a dictionary's entries (Nemo's bytes_dictionary.rs). The search is in bytes_index, the writes of one entry are in bytes_entry.
#![tactic(auto)]

ghost use Rattle.std.specs.Prelude.{◌≡◌, ◌+◌, ◌*◌, ◌≤◌, ◌<◌, length, take, drop};
ghost use Rattle.words.specs.Words.{word_at};
ghost use Rattle.layout.specs.Numbers.{dictionary_number};
ghost use Rattle.layout.specs.Fields.{count_at};
ghost use Rattle.layout.specs.Lent.{Fit};
ghost use Rattle.bytes_key.specs.KeyBytes.{bytes_in};
ghost use Rattle.bytes_dictionary.specs.Written.{pages_after, lists_after, HasRoom, page_at, offset_at, pages_with, lists_with, HasRoomIf};
ghost use Rattle.bytes_dictionary.specs.Reading.{count_in, LookedUp, entry_given, Looked};

use bytes_buffer::Spot;
use bytes_entry::NewEntry;
use bytes_index::Span;
use bytes_key::Key;
use layout::lent::{Layout, Lists, Memory};
use layout::packed::Extent;
use layout::{COUNT, Dictionary, STRIDE};
use refusals::Refusal;

// An entry's number in its dictionary.
#[derive(Clone, Copy)]
pub struct EntryId(pub usize);

// How many entries a dictionary has. Unopened: the memory is no dictionary's.
#[tactic(auto, unfolding(crate::specs::Reading::count_in, layout::specs::Sizes::list_bytes))]
pub fn count(lists: &Lists<'_>, d: Dictionary) -> Result<usize, Refusal>
    ensures { result ≡ count_in lists.now.layout.sizes (word_at lists.now.bytes.now (count_at (dictionary_number d))) }
{
    bytes_buffer::word_up_to(lists, COUNT + STRIDE * usize::from(d), lists.layout.sizes.e)
}

// Where an entry's bytes lie that goes to a spot.
fn extent_at(spot: Spot, len: usize) -> Extent
    ensures { (result.page ≡ page_at spot) × (result.offset ≡ offset_at spot) × (result.len ≡ len) }
{
    match spot {
        Spot::Current { page, offset } => Extent { page, offset, len },
        Spot::Next(page) => Extent {
            page,
            offset: 0,
            len,
        },
    }
}

// Writes a fresh key at its planned spot. It cannot fail.
pub fn insert(
    pages: &mut [u8],
    lists: &mut [u8],
    layout: &Layout,
    key: &Key<'_, '_>,
    x: NewEntry,
    spot: Spot,
)
    requires fit { Fit layout.now.sizes pages.old lists.old × (x.n < layout.now.sizes.e) × (x.place < 2 * layout.now.sizes.e) }
    requires has_room { HasRoom layout.now.sizes (length (bytes_in key.now)) spot }
    ensures pages { pages.new ≡ pages_after layout.now.sizes pages.old spot (bytes_in key.now) }
    ensures lists { lists.new ≡ lists_after layout.now.sizes lists.old (dictionary_number key.now.d) x.n x.place spot x.stamp (bytes_in key.now) }
{
    let len = key.parts.len();
    let lies = extent_at(spot, len);
    bytes_entry::place_entry(pages, lists, layout, key.d, key.h, &key.parts, x, lies);
    match spot {
        Spot::Current { page, offset } => page_words::extend(lists, page, offset + len),
        Spot::Next(page) => page_words::take_page(lists, key.d, page, len),
    }
}

// Writes a fresh key at its planned spot. It cannot fail. If the plan has no spot, it writes nothing.
pub fn insert_planned(
    pages: &mut [u8],
    lists: &mut [u8],
    layout: &Layout,
    key: &Key<'_, '_>,
    x: NewEntry,
    spot: Option<Spot>,
)
    requires fit { Fit layout.now.sizes pages.old lists.old × (x.n < layout.now.sizes.e) × (x.place < 2 * layout.now.sizes.e) }
    requires has_room { HasRoomIf layout.now.sizes (length (bytes_in key.now)) spot }
    ensures pages { pages.new ≡ pages_with layout.now.sizes pages.old spot (bytes_in key.now) }
    ensures lists { lists.new ≡ lists_with layout.now.sizes lists.old (dictionary_number key.now.d) x.n x.place spot x.stamp (bytes_in key.now) }
{
    let Some(spot) = spot else {
        return;
    };
    insert(pages, lists, layout, key, x, spot);
}

// Where an entry lies in the pages, which the lists alone say. None: its number is not below the count. Unopened: the memory is no dictionary's.
pub fn look_up(lists: &Lists<'_>, d: Dictionary, id: EntryId) -> Result<Option<Span>, Refusal>
    ensures { LookedUp lists.now.layout.sizes (dictionary_number d) id.0 lists.now.bytes.now result }
{
    let i = id.0;
    let n = count(lists, d)?;
    if n <= i {
        return Ok(None);
    }
    let span = bytes_index::entry_span(lists, d, i)?;
    Ok(Some(span))
}

// The bytes of an entry that lies there. The pages may be any.
pub fn bytes_at(pages: &[u8], span: Span) -> &[u8]
    requires { span.at + span.len ≤ length pages.now }
    ensures { result.now ≡ take span.len (drop span.at pages.now) }
{
    let end = span.at + span.len;
    &pages[span.at..end]
}

// The bytes of an entry. None: its number is not below the count. Unopened: the memory is no dictionary's.
pub fn id_to_bytes<'p>(
    memory: &Memory<'_, 'p>,
    d: Dictionary,
    id: EntryId,
) -> Result<Option<&'p [u8]>, Refusal>
    ensures { Looked memory.now.lists.layout.sizes (dictionary_number d) id.0 memory.now.pages.now memory.now.lists.bytes.now (entry_given result) }
{
    let Some(span) = look_up(&memory.lists, d, id)? else {
        return Ok(None);
    };
    let stored = bytes_at(memory.pages, span);
    Ok(Some(stored))
}
