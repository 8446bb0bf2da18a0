// A name's arguments: the check of refusals 4 to 7 in its two halves, where head and rest lie, and the entry of a local number. The functions below
// `Name` do for every number as a kind what its methods do for a kind.
#![tactic(auto)]

ghost use Rattle.std.specs.Prelude.{◌≡◌, true, ◌&&◌, ◌≤◌, length, IfOk};
ghost use Rattle.utf8.specs.Text.{is_text};
ghost use Rattle.parts.specs.Parts.{part_bytes, bytes_of};
ghost use Rattle.refusals.specs.Checked.{checked_by};
ghost use Rattle.layout.specs.Numbers.{kind_number};
ghost use Rattle.model.specs.Kinds.{row};
ghost use Rattle.model.specs.Names.{entered};
ghost use Rattle.model.specs.Steps.{shape_refusal, text_refusal};
ghost use Rattle.kind_table.specs.Rows.{front_mode};
ghost use Rattle.names.specs.Given.{given, shaped, head_size, rest_behind};

use blocks::LocalId;
use bytes_dictionary::EntryId;
use kind_table::Row;
use layout::{Kind, Sizes};
use parts::Part;
use refusals::Refusal;

// A name's local number is the number of its entry in the kind's main dictionary.
// Kept: two functions. `From` has to stand beside one of the two types, and neither type's crate knows the other.
pub fn entry_to_local(id: EntryId) -> LocalId
    ensures { result.0 ≡ id.0 }
{
    LocalId(id.0)
}

pub fn local_to_entry(local: LocalId) -> EntryId
    ensures { result.0 ≡ local.0 }
{
    EntryId(local.0)
}

// A name as it is looked for: its kind, and its two parts as the caller gives them.
// Kept: no ghost field says that the shape is legal. It is legal for some sizes, by the limit that they give (docs/DECISIONS.md, "Limits"), and a name has no sizes.
#[derive(Clone, Copy)]
pub struct Name<'a> {
    pub kind: Kind,
    pub first: &'a [u8],
    pub second: &'a [u8],
}

// Whether both parts are text. `ascii`: the caller knows already that they are.
// Kept: what `ascii` stands for is asked here and below. A type for it would be made by the search and taken apart by this test, with nothing between them.
fn are_text(first: &[u8], second: &[u8], ascii: bool) -> bool
    requires { ascii ≡ true → (is_text first.now ≡ true) × (is_text second.now ≡ true) }
    ensures { result ≡ (is_text first.now && is_text second.now) }
{
    ascii || utf8::is_text(first) && utf8::is_text(second)
}

impl<'a> Name<'a> {
    // The name of these arguments, or its refusal 4 or 5. How long a name may be is asked of the sizes.
    // Kept: the kind is a number, here and in the entries above. A caller may give any, and one that is no kind's is refused.
    #[tactic(auto, unfolding(model::specs::Steps::shape_refusal))]
    pub fn new(
        s: Sizes,
        kind: usize,
        first: &'a [u8],
        second: &'a [u8],
    ) -> Result<Name<'a>, Refusal>
        ensures checked { shaped result ≡ checked_by (shape_refusal s (entered kind first.now second.now)) }
        ensures given { IfOk result (λ a. given a ≡ entered kind first.now second.now) }
    {
        let Ok(kind) = Kind::try_from(kind) else {
            return Err(Refusal::BadKind);
        };
        if Row::of(kind).no_second && !second.is_empty() {
            return Err(Refusal::BadKind);
        }
        if s.limit() < first.len() + second.len() {
            return Err(Refusal::TooLong);
        }
        Ok(Name {
            kind,
            first,
            second,
        })
    }

    // Refusals 6 and 7 of the name. `ascii`: the caller has seen every byte of the name, and all are ASCII.
    #[tactic(auto, unfolding(model::specs::Steps::text_refusal))]
    pub fn check_text(&self, ascii: bool) -> Result<(), Refusal>
        requires { ascii ≡ true → (is_text self.now.first.now ≡ true) × (is_text self.now.second.now ≡ true) }
        ensures { result ≡ checked_by (text_refusal (given self.now)) }
    {
        if !are_text(self.first, self.second, ascii) {
            return Err(Refusal::NotText);
        }
        if Row::of(self.kind).needs_tag && self.second.is_empty() {
            return Err(Refusal::NoTag);
        }
        Ok(())
    }

    // The second part as it is stored in front of the first, where the kind has no heads.
    pub fn front(&self) -> Part<'a>
        ensures { part_bytes result ≡ bytes_of (front_mode (row (kind_number self.now.kind)).way) self.now.second.now }
    {
        Part {
            mode: Row::of(self.kind).front_mode(),
            bytes: self.second,
        }
    }

    // How many bytes of the first part are the head, where the kind has heads.
    // Kept: two methods, for the length and for what is behind it. Both as two slices would be taken apart at once at each of the three places that ask.
    pub fn head_length(&self) -> usize
        ensures { (result ≡ head_size (kind_number self.now.kind) self.now.first.now) × (result ≤ length self.now.first.now) }
    {
        if !Row::of(self.kind).is_split() {
            return self.first.len();
        }
        // Kept: `let .. else` on the split's answer is a form that document 01 names.
        let Some(n) = ranked_pair_iri_dv_dict::rfind_hashslash_plus(self.first) else {
            return 0;
        };
        n
    }

    // What follows a head of n bytes.
    pub fn rest_behind(&self, n: usize) -> &'a [u8]
        requires { n ≤ length self.now.first.now }
        ensures { result.now ≡ rest_behind n (kind_number self.now.kind) self.now.first.now self.now.second.now }
    {
        if !Row::of(self.kind).is_split() {
            return self.second;
        }
        &self.first[n..]
    }
}

// The name of these parts, by its kind's number. A number that is no kind's is taken as that of the plain strings, whose row it has.
fn named<'a>(kind: usize, first: &'a [u8], second: &'a [u8]) -> Name<'a>
    ensures rowed { row (kind_number result.kind) ≡ row kind }
    ensures parts { (result.first.now ≡ first.now) × (result.second.now ≡ second.now) }
{
    Name {
        kind: kind_table::kind_or_plain(kind),
        first,
        second,
    }
}

// Refusals 6 and 7 of a name, by its kind's number. `ascii`: the caller has seen every byte of the name, and all are ASCII.
#[tactic(auto, unfolding(model::specs::Steps::text_refusal))]
pub fn check_text(kind: usize, first: &[u8], second: &[u8], ascii: bool) -> Result<(), Refusal>
    requires { ascii ≡ true → (is_text first.now ≡ true) × (is_text second.now ≡ true) }
    ensures { result ≡ checked_by (text_refusal (entered kind first.now second.now)) }
{
    named(kind, first, second).check_text(ascii)
}

// How many bytes of a name's first part are its head, where its kind has heads, by the kind's number.
pub fn head_length(kind: usize, first: &[u8]) -> usize
    ensures { (result ≡ head_size kind first.now) × (result ≤ length first.now) }
{
    named(kind, first, &[]).head_length()
}

// What follows a head of n bytes, by the kind's number.
pub fn rest_behind<'a>(kind: usize, first: &'a [u8], second: &'a [u8], n: usize) -> &'a [u8]
    requires { n ≤ length first.now }
    ensures { result.now ≡ rest_behind n kind first.now second.now }
{
    named(kind, first, second).rest_behind(n)
}
