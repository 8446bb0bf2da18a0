// An add of a name that is legal and not stored: a plan, and then all writes. The memory may hold any bytes.
#![tactic(auto)]

ghost use Rattle.std.specs.Prelude.{◌≡◌, ◌*◌, ◌≤◌, ◌<◌, length};
ghost use Rattle.std.proofs.Math.Option.{none};
ghost use Rattle.layout.specs.Sizes.{page_size};
ghost use Rattle.layout.specs.Lent.{Fit};
ghost use Rattle.bytes_key.specs.KeyBytes.{bytes_in};
ghost use Rattle.names.specs.Given.{given};
ghost use Rattle.model.specs.Steps.{shape_refusal};
ghost use Rattle.search.specs.declared.Place.TheVariants as P;
ghost use Rattle.search.specs.Found.{PlaceEnded};
ghost use Rattle.commit.specs.Answers.{added_by};
ghost use Rattle.commit.specs.Written.{head_place, head_bytes};
ghost use Rattle.enter.specs.Added.{EntersName, AddsName};

use bytes_index::Probe;
use bytes_key::Key;
use commit::Added;
use commit::new_name::{NewHead, NewName};
use kind_table::Row;
use layout::lent::{Layout, Lists, Memory};
use names::Name;
use parts::Part;
use plan_room::Head;
use refusals::Refusal;
use search::{HeadPlace, KeyPlace, Place};

// Plans and writes a name: its head, if it is a new one, and its key.
fn enter_name(
    pages: &mut [u8],
    lists: &mut [u8],
    layout: &Layout,
    w: &NewName<'_, '_, '_, '_>,
) -> Result<Added, Refusal>
    requires fit { Fit layout.now.sizes pages.old lists.old × (head_place w.now < 2 * layout.now.sizes.e) × (w.now.place < 2 * layout.now.sizes.e) }
    requires paged { (length (head_bytes w.now) ≤ page_size layout.now.sizes) × (length (bytes_in w.now.key.now) ≤ page_size layout.now.sizes) }
    ensures { EntersName layout.now.sizes pages.old lists.old w.now (added_by result) pages.new lists.new }
{
    let head = w.head.map(|head| Head {
        f: head.f,
        size: head.bytes.len(),
    });
    let lent = Lists {
        layout: *layout,
        bytes: lists,
    };
    let x = plan::plan_name(&lent, w.kind, head, w.key.parts.len())?;
    let number = commit::commit(pages, lists, layout, w, &x);
    Ok(Added::Fresh(number))
}

// Adds a name whose head is stored, or whose kind has none (Nemo's add_str): one entry. The search for its key ended at x.
// Kept: that the search of this memory ended at the place is asked here and below. A place that said so would hold the slices, which are lent for writing here.
#[inline(always)]
fn add_str(
    pages: &mut [u8],
    lists: &mut [u8],
    layout: &Layout,
    name: &Name<'_>,
    x: &KeyPlace,
) -> Result<Added, Refusal>
    requires fit { Fit layout.now.sizes pages.old lists.old × (shape_refusal layout.now.sizes (given name.now) ≡ none) }
    requires place_ended { PlaceEnded layout.now.sizes pages.old lists.old (given name.now) (P.Key x.now) }
    ensures { AddsName layout.now.sizes (given name.now) pages.old lists.old (added_by result) pages.new lists.new }
{
    let row = Row::of(name.kind);
    let key = if row.has_heads() {
        let rest = name.rest_behind(name.head_length());
        Key::behind(row.main, x.h, Part::raw(x.lead.as_slice()), rest)
    } else {
        Key::behind(row.main, x.h, name.front(), name.first)
    };
    let w = NewName {
        kind: name.kind,
        key: &key,
        place: x.place,
        head: None,
    };
    enter_name(pages, lists, layout, &w)
}

// Adds a name whose head is not stored (Nemo's add_pair): the head and its pair. The search for the head ended at x. The head's number is how many heads
// there were.
// Kept: two functions. Their parameters are alike, but `add_str` stores one entry and this stores two, so one function for both is no plainer.
#[inline(always)]
fn add_pair(
    pages: &mut [u8],
    lists: &mut [u8],
    layout: &Layout,
    name: &Name<'_>,
    x: &HeadPlace,
) -> Result<Added, Refusal>
    requires fit { Fit layout.now.sizes pages.old lists.old × (shape_refusal layout.now.sizes (given name.now) ≡ none) }
    requires place_ended { PlaceEnded layout.now.sizes pages.old lists.old (given name.now) (P.Head x.now) }
    ensures { AddsName layout.now.sizes (given name.now) pages.old lists.old (added_by result) pages.new lists.new }
{
    let row = Row::of(name.kind);
    // Kept: built here once more, as are the lists in `enter_name`. The entry's own Memory cannot stay, because the slices are lent for writing.
    let memory = Memory {
        lists: Lists {
            layout: *layout,
            bytes: lists,
        },
        pages,
    };
    let f = bytes_dictionary::count(&memory.lists, row.heads)?;
    let n = name.head_length();
    let rest = name.rest_behind(n);
    let lead = ranked_pair_dictionary::lead_of(f);
    let h = fnv::fnv_from(fnv::fnv(lead.as_slice()), rest);
    let key = Key::behind(row.main, h, Part::raw(lead.as_slice()), rest);
    let Probe::Free(place) = bytes_index::bytes_to_id(&memory, &key)? else {
        return Err(Refusal::Unopened);
    };
    let head = NewHead {
        f,
        place: x.place,
        h: x.h,
        bytes: &name.first[..n],
    };
    let w = NewName {
        kind: name.kind,
        key: &key,
        place,
        head: Some(head),
    };
    enter_name(pages, lists, layout, &w)
}

// Adds a name that is legal and not stored. The search for it ended at `place`.
// This function and the two above are merged into their caller: one frame for all of them keeps an add under 1 KiB of stack.
#[inline(always)]
pub fn add_name(
    pages: &mut [u8],
    lists: &mut [u8],
    layout: &Layout,
    name: &Name<'_>,
    place: &Place,
) -> Result<Added, Refusal>
    requires fit { Fit layout.now.sizes pages.old lists.old × (shape_refusal layout.now.sizes (given name.now) ≡ none) }
    requires place_ended { PlaceEnded layout.now.sizes pages.old lists.old (given name.now) place.now }
    ensures { AddsName layout.now.sizes (given name.now) pages.old lists.old (added_by result) pages.new lists.new }
{
    // Kept: a match. Each case carries what it needs.
    match place {
        Place::Key(x) => add_str(pages, lists, layout, name, x),
        Place::Head(x) => add_pair(pages, lists, layout, name, x),
    }
}
