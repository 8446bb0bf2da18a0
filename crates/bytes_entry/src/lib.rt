// Writes an entry: its key's bytes into the page, and its words into the lists.
#![tactic(auto)]

ghost use Rattle.std.specs.Prelude.{◌≡◌, ◌+◌, ◌*◌, ◌≤◌, ◌<◌, length};
ghost use Rattle.std.proofs.lemmas.List.Edits.{sets};
ghost use Rattle.layout.specs.Sizes.{page_size, list_bytes};
ghost use Rattle.layout.specs.Numbers.{dictionary_number};
ghost use Rattle.layout.specs.Fields.{place_word};
ghost use Rattle.layout.specs.Lent.{Fit};
ghost use Rattle.bytes_key.specs.KeyBytes.{stored};
ghost use Rattle.bytes_entry.specs.Written.{entry_written};

use bytes_key::Parts;
use layout::lent::Layout;
use layout::packed::{Extent, IndexPlace};
use layout::{COUNT, Dictionary, STRIDE};
use words::{QUAD, WORD};

// Writes a key at the start of its page's tail: its front, and the rest behind it.
fn write_tail(tail: &mut [u8], parts: &Parts<'_, '_>)
    requires { length (stored parts.now) ≤ length tail.old }
    ensures { tail.new ≡ sets tail.old 0 (stored parts.now) }
{
    let m = parts.front.measure();
    parts.front.write(tail);
    parts.rest.write(&mut tail[m..]);
}

// The value of the index place of entry number n, whose key has the hash h.
fn place_word(n: usize, h: u32) -> usize
    requires { n < 1048576 }
    ensures { result ≡ place_word n h }
{
    let place = IndexPlace {
        entry: n + 1,
        top: bytes_key::top_bits(h),
    };
    place.quad()
}

// A fresh entry: its number in its dictionary, the index place that names it, and its stamp.
// Kept: each writer asks that number and place are below those of the layout, and so do `commit` and `enter` for a name and its head. An entry that held a layout
// would have to be the same layout as the writer's, which is one clause more.
#[derive(Clone, Copy)]
pub struct NewEntry {
    pub n: usize,
    pub place: usize,
    pub stamp: usize,
}

// Writes the words of a fresh entry of dictionary d, whose key has the hash h: where it lies, its stamp, the place that names it, and the count.
#[tactic(auto, using(crate::proofs::Inside::inside), unfolding(layout::specs::Sizes::list_bytes))]
fn write_entry(lists: &mut [u8], layout: &Layout, d: Dictionary, h: u32, x: NewEntry, lies: Extent)
    requires lists_fit { (list_bytes layout.now.sizes ≤ length lists.old) × (x.n < layout.now.sizes.e) × (x.place < 2 * layout.now.sizes.e) }
    requires page_bound { (lies.page < 1024) × (lies.offset ≤ 1048576) × (lies.len ≤ 1048576) }
    ensures { lists.new ≡ entry_written layout.now.sizes lists.old (dictionary_number d) x.n lies.page lies.offset lies.len x.stamp x.place h }
{
    let e = layout.sizes.e;
    let n = x.n;
    let d = usize::from(d);
    let base = layout.dict_at(d);
    words::put_number::<WORD>(lists, base + n, lies.word());
    words::put_number::<WORD>(lists, base + (e + n), x.stamp);
    words::put_number::<QUAD>(lists, 2 * (base + 2 * e) + x.place, place_word(n, h));
    words::put_number::<WORD>(lists, COUNT + STRIDE * d, n + 1);
}

// Writes an entry's bytes and its words.
// Kept: the dictionary, the hash and the parts of a key beside each other. A key has the hash of its bytes, which nothing here asks.
#[tactic(auto, using(crate::proofs::Inside::page_in))]
pub fn place_entry(
    pages: &mut [u8],
    lists: &mut [u8],
    layout: &Layout,
    d: Dictionary,
    h: u32,
    parts: &Parts<'_, '_>,
    x: NewEntry,
    lies: Extent,
)
    requires fit { Fit layout.now.sizes pages.old lists.old × (x.n < layout.now.sizes.e) × (x.place < 2 * layout.now.sizes.e) }
    requires page_lt_n { (lies.page < layout.now.sizes.n) × (lies.offset + lies.len ≤ page_size layout.now.sizes) × (lies.len ≡ length (stored parts.now)) }
    ensures pages { pages.new ≡ sets pages.old (lies.page * page_size layout.now.sizes + lies.offset) (stored parts.now) }
    ensures lists { lists.new ≡ entry_written layout.now.sizes lists.old (dictionary_number d) x.n lies.page lies.offset lies.len x.stamp x.place h }
{
    let size = layout.page_size();
    let start = lies.page * size;
    // The byte writer is lent only the rest of the page, no byte of another one.
    write_tail(&mut pages[start + lies.offset..start + size], parts);
    write_entry(lists, layout, d, h, x, lies);
}
