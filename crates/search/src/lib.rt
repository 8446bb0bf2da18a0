// The search for a name: its head, where its kind has heads, then its key in the kind's main dictionary. The memory may hold any bytes.
#![tactic(auto)]

ghost use Rattle.std.specs.Prelude.{◌≡◌, true, false, [], ◌++◌, ◌≤◌, ◌<◌, length};
ghost use Rattle.std.proofs.Math.Option.{none};
ghost use Rattle.fnv.specs.Fnv.{fnv_of, bits_from};
ghost use Rattle.utf8.specs.Text.{is_text};
ghost use Rattle.layout.specs.Sizes.{limit};
ghost use Rattle.layout.specs.Numbers.{kind_number, dictionary_number};
ghost use Rattle.ranked_pair_dictionary.specs.FrequentId.{fid};
ghost use Rattle.bytes_key.specs.KeyBytes.{bytes_in};
ghost use Rattle.bytes_index.specs.Search.{Searched};
ghost use Rattle.names.specs.Given.{given};
ghost use Rattle.model.specs.Kinds.{row};
ghost use Rattle.model.specs.Steps.{shape_refusal};
ghost use Rattle.search.specs.Found.{EndsKey, EndedBy, SearchEnded, NameSought};
ghost use Rattle.search.specs.Sought.{HashedBy, SearchHashed};

use blocks::LocalId;
use bytes_dictionary::EntryId;
use bytes_index::Probe;
use bytes_key::Key;
use fnv::Scanned;
use kind_table::Row;
use layout::Kind;
use layout::lent::Memory;
use names::Name;
use parts::Part;
use ranked_pair_dictionary::Lead;
use refusals::Refusal;

// Where the search for a key ended, and what an add of it needs: the empty place, the key's hash, and the lead in front of the rest, where the kind has heads.
// Kept: an empty lead where it has none, and no Option. The kind says which it is, and an Option would say it once more.
#[derive(Clone, Copy)]
pub struct KeyPlace {
    pub place: usize,
    pub h: u32,
    pub lead: Lead,
}

// Where the search for a head ended: the empty place, and the head's hash.
#[derive(Clone, Copy)]
pub struct HeadPlace {
    pub place: usize,
    pub h: u32,
}

// The end of a search for a name that is not stored: at its key's place, or at that of its head, which is not stored either.
#[derive(Clone, Copy)]
pub enum Place {
    Key(KeyPlace),
    Head(HeadPlace),
}

// A name's local number, or the place of a name that is not stored.
// Kept: an enum of its own. A name that is missing is no error, so a Result inside the search's Result is no plainer.
#[derive(Clone, Copy)]
pub enum Search {
    Found(LocalId),
    Missing(Place),
}

// What the search has seen of a name. `found` is Unopened if the memory is no dictionary's. `ascii`: it has seen every byte of the name, and all are ASCII.
// `h` is the hash of the name's key, and `lead` stands in front of its rest, where the kind has heads. If the search of the head ended it, `headhash` is the head's
// hash, and there is no key.
// Kept: `ascii` is a flag. It stands beside any answer and belongs to no other field, so an Option of a field is no plainer.
// Kept: the key's hash and lead stand here and in its place. The place holds what an add takes, and a name that is found or refused has no place.
#[derive(Clone, Copy)]
pub struct Sought {
    pub found: Result<Search, Refusal>,
    pub ascii: bool,
    pub lead: Lead,
    pub h: u32,
    pub headhash: u32,
}

// The search for a head of the kind, whose hash is h.
// Kept: the hash is asked for as where a key is made. Within its one caller this would be no plainer.
fn find_head(memory: &Memory<'_, '_>, kind: Kind, h: u32, head: &[u8]) -> Result<Probe, Refusal>
    requires { h ≡ fnv_of head.now }
    ensures { Searched memory.now.lists.layout.sizes (row (kind_number kind)).heads_at memory.now.pages.now memory.now.lists.bytes.now head.now result }
{
    bytes_index::bytes_to_id(memory, &Key::whole(Row::of(kind).heads, h, head))
}

// The search for a key among the names of its kind. `lead` is the front of the key, where the kind has heads.
fn find_key(
    memory: &Memory<'_, '_>,
    kind: Kind,
    key: &Key<'_, '_>,
    lead: Lead,
) -> Result<Search, Refusal>
    requires { dictionary_number key.now.d ≡ (row (kind_number kind)).main_at }
    ensures { EndsKey memory.now.lists.layout.sizes memory.now.pages.now memory.now.lists.bytes.now (kind_number kind) (bytes_in key.now) lead result }
{
    Ok(match bytes_index::bytes_to_id(memory, key)? {
        Probe::At(i) => Search::Found(names::entry_to_local(EntryId(i))),
        Probe::Free(place) => Search::Missing(Place::Key(KeyPlace {
            place,
            h: key.h,
            lead,
        })),
    })
}

// The answer of a search that has found no head.
fn headless(found: Result<Search, Refusal>, headhash: u32) -> Sought
    ensures { (result.found ≡ found) × (result.headhash ≡ headhash) × (result.ascii ≡ false) }
{
    Sought {
        found,
        ascii: false,
        lead: Lead::empty(),
        h: 0,
        headhash,
    }
}

// The search for a rest behind the head number f. The hash and the bits of the head are in `head`.
fn find_behind(memory: &Memory<'_, '_>, kind: Kind, f: usize, head: Scanned, rest: &[u8]) -> Sought
    requires { (f < memory.now.lists.layout.sizes.e) × (length rest.now ≤ limit memory.now.lists.layout.sizes) }
    ensures found { EndsKey memory.now.lists.layout.sizes memory.now.pages.now memory.now.lists.bytes.now (kind_number kind) (fid f ++ rest.now) (fid f) result.found }
    ensures placed { (result.lead ≡ fid f) × (result.h ≡ fnv_of (fid f ++ rest.now)) }
    ensures ascii { result.ascii ≡ true → bits_from head.bits rest.now < 128 }
{
    let lead = ranked_pair_dictionary::lead_of(f);
    let x = fnv::scan(fnv::fnv(lead.as_slice()), head.bits, rest);
    let key = Key::behind(Row::of(kind).main, x.h, Part::raw(lead.as_slice()), rest);
    Sought {
        found: find_key(memory, kind, &key, lead),
        ascii: x.bits < 0x80,
        lead,
        h: x.h,
        headhash: head.h,
    }
}

// The search for a head and a rest.
fn find_pair(memory: &Memory<'_, '_>, kind: Kind, head: &[u8], rest: &[u8]) -> Sought
    requires { ((row (kind_number kind)).paired ≡ true) × (length rest.now ≤ limit memory.now.lists.layout.sizes) }
    ensures ended { EndedBy memory.now.lists.layout.sizes memory.now.pages.now memory.now.lists.bytes.now (kind_number kind) head.now rest.now result.found }
    ensures hashed { HashedBy memory.now.lists.layout.sizes memory.now.pages.now memory.now.lists.bytes.now (kind_number kind) head.now rest.now result result.found }
    ensures ascii { result.ascii ≡ true → bits_from (bits_from 0 head.now) rest.now < 128 }
{
    let x = fnv::scan(fnv::START, 0, head);
    match find_head(memory, kind, x.h, head) {
        Ok(Probe::At(f)) => find_behind(memory, kind, f, x, rest),
        Ok(Probe::Free(place)) => {
            headless(
                Ok(Search::Missing(Place::Head(HeadPlace { place, h: x.h }))),
                x.h,
            )
        }
        Err(why) => headless(Err(why), x.h),
    }
}

// The search for a string, whose kind has no heads: a plain string, or a text with its tag.
fn find_str(memory: &Memory<'_, '_>, name: &Name<'_>) -> Sought
    requires { (shape_refusal memory.now.lists.layout.sizes (given name.now) ≡ none) × ((row (kind_number name.now.kind)).paired ≡ false) }
    ensures ended { EndedBy memory.now.lists.layout.sizes memory.now.pages.now memory.now.lists.bytes.now (kind_number name.now.kind) [] ((row (kind_number name.now.kind)).rest (given name.now)) result.found }
    ensures hashed { HashedBy memory.now.lists.layout.sizes memory.now.pages.now memory.now.lists.bytes.now (kind_number name.now.kind) [] ((row (kind_number name.now.kind)).rest (given name.now)) result result.found }
    ensures ascii { result.ascii ≡ true → (is_text name.now.first.now ≡ true) × (is_text name.now.second.now ≡ true) }
{
    let text = name.first;
    let front = name.front();
    let x = fnv::scan(front.hash_on(fnv::START), 0, text);
    let key = Key::behind(Row::of(name.kind).main, x.h, front, text);
    Sought {
        found: find_key(memory, name.kind, &key, Lead::empty()),
        // Most labels have a letter that is not ASCII, so a test of the tag would not pay.
        ascii: name.second.len() == 0 && x.bits < 0x80,
        lead: Lead::empty(),
        h: x.h,
        headhash: fnv::START,
    }
}

// The search for a name of legal shape, whatever its text. The answer is right if the text is legal too.
pub fn seek(memory: &Memory<'_, '_>, name: &Name<'_>) -> Sought
    requires { shape_refusal memory.now.lists.layout.sizes (given name.now) ≡ none }
    ensures ended { SearchEnded memory.now.lists.layout.sizes memory.now.pages.now memory.now.lists.bytes.now (given name.now) result.found }
    ensures hashed { SearchHashed memory.now.lists.layout.sizes memory.now.pages.now memory.now.lists.bytes.now (given name.now) result }
    ensures ascii { result.ascii ≡ true → (is_text name.now.first.now ≡ true) × (is_text name.now.second.now ≡ true) }
{
    if !Row::of(name.kind).has_heads() {
        return find_str(memory, name);
    }
    // An IRI and a typed value differ in where head and rest lie.
    let n = name.head_length();
    let rest = name.rest_behind(n);
    find_pair(memory, name.kind, &name.first[..n], rest)
}

// The search for a name of legal shape, and the check of its text.
pub fn find_name(memory: &Memory<'_, '_>, name: &Name<'_>) -> Result<Search, Refusal>
    requires { shape_refusal memory.now.lists.layout.sizes (given name.now) ≡ none }
    ensures { NameSought memory.now.lists.layout.sizes memory.now.pages.now memory.now.lists.bytes.now (given name.now) result }
{
    // The text is checked after the search, which does not wait for it.
    let x = seek(memory, name);
    name.check_text(x.ascii)?;
    x.found
}
