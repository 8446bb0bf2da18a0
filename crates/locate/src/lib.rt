// Where the name of a number lies in the pages, and its copy into a buffer. The memory may hold any bytes: every number read from it is tested.
#![tactic(auto)]

pub mod pieces;

ghost use Rattle.std.specs.Prelude.{◌≡◌, true, ◌++◌, ◌+◌, ◌≤◌, length, drop, Ok};
ghost use Rattle.layout.specs.Numbers.{kind_number};
ghost use Rattle.model.specs.Kinds.{whole, packs, row};
ghost use Rattle.locate.specs.Copied.{pieces_in};
ghost use Rattle.locate.specs.Located.{EntryIn, LocatesEntry, LocatesAlone, LocatesName};

use crate::pieces::{Pieces, Told};
use bytes_dictionary::EntryId;
use kind_table::{Row, Way};
use layout::Kind;
use layout::lent::Memory;
use meta_dv_dict::{GlobalId, Owner};
use parts::Part;
use ranked_pair_dictionary::FrequentId;
use refusals::Refusal;
use string_dv_dict_split::Piece;

// Where a name lies whose entry is a head's frequent id and the rest. Unopened: the memory is no dictionary's.
fn locate_pair<'p>(
    memory: &Memory<'_, 'p>,
    kind: Kind,
    stored: &'p [u8],
) -> Result<Pieces<'p>, Refusal>
    requires { ((row (kind_number kind)).paired ≡ true) × EntryIn memory.now.lists.layout.sizes memory.now.pages.now stored.now }
    ensures { LocatesEntry memory.now.lists.layout.sizes memory.now.pages.now memory.now.lists.bytes.now (kind_number kind) stored.now result }
{
    let row = Row::of(kind);
    let Ok(FrequentId { value, length }) = ranked_pair_dictionary::read_frequent_id(stored) else {
        return Err(Refusal::Unopened);
    };
    let Some(head) = bytes_dictionary::id_to_bytes(memory, row.heads, EntryId(value))? else {
        return Err(Refusal::Unopened);
    };
    let rest = &stored[length..];
    // How many bytes of the rest belong to the first part.
    let moved = if row.is_split() { rest.len() } else { 0 };
    let told = Told {
        kind,
        first: head.len() + moved,
        second: rest.len() - moved,
    };
    Ok(Pieces {
        told,
        front: head,
        back: Piece::Raw(rest),
    })
}

// Where a name lies whose entry is a packed text and tag. Unopened: the entry is no such form.
fn locate_tagged(kind: Kind, stored: &[u8]) -> Result<Pieces<'_>, Refusal>
    requires { (row (kind_number kind)).way ≡ packs }
    ensures { LocatesAlone (kind_number kind) stored.now result }
{
    let parts = string_dv_dict_split::split(stored).ok_or(Refusal::Unopened)?;
    let text = parts.text();
    let told = Told {
        kind,
        first: text.len(),
        second: parts.tag_length(),
    };
    Ok(Pieces {
        told,
        front: text,
        back: parts.tag(),
    })
}

// Where a name lies whose entry is its first part.
fn locate_plain(kind: Kind, stored: &[u8]) -> Pieces<'_>
    requires { (row (kind_number kind)).way ≡ whole }
    ensures { LocatesAlone (kind_number kind) stored.now (Ok result) }
{
    let told = Told {
        kind,
        first: stored.len(),
        second: 0,
    };
    Pieces {
        told,
        front: stored,
        back: Piece::Raw(&stored[..0]),
    }
}

fn locate_entry<'p>(
    memory: &Memory<'_, 'p>,
    kind: Kind,
    stored: &'p [u8],
) -> Result<Pieces<'p>, Refusal>
    requires { EntryIn memory.now.lists.layout.sizes memory.now.pages.now stored.now }
    ensures { LocatesEntry memory.now.lists.layout.sizes memory.now.pages.now memory.now.lists.bytes.now (kind_number kind) stored.now result }
{
    // Kept: a match. The ways are closed, and each needs other facts of the entry; a function in each row of the table would need one contract for all.
    match Row::of(kind).way {
        Way::Splits | Way::Pairs => locate_pair(memory, kind, stored),
        Way::Whole => Ok(locate_plain(kind, stored)),
        Way::Packs => locate_tagged(kind, stored),
    }
}

// The name that has a number. None: no name has it. Unopened: the memory is no dictionary's.
pub fn locate_name<'p>(
    memory: &Memory<'_, 'p>,
    number: GlobalId,
) -> Result<Option<Pieces<'p>>, Refusal>
    ensures { LocatesName memory.now.lists.layout.sizes memory.now.pages.now memory.now.lists.bytes.now number.0 result }
{
    let Some(Owner { kind, local }) = meta_dv_dict::global_to_local(&memory.lists, number)? else {
        return Ok(None);
    };
    let d = Row::of(kind).main;
    let Some(stored) = bytes_dictionary::id_to_bytes(memory, d, names::local_to_entry(local))?
    else {
        return Ok(None);
    };
    let pieces = locate_entry(memory, kind, stored)?;
    Ok(Some(pieces))
}

// Writes a located name at the buffer's start: the first part, then the second.
pub fn copy_name(x: &Pieces<'_>, buffer: &mut [u8])
    requires { x.now.told.first + x.now.told.second ≤ length buffer.old }
    ensures { buffer.new ≡ pieces_in x.now ++ drop (x.now.told.first + x.now.told.second) buffer.old }
{
    let front = x.front;
    Part::raw(front).write(buffer);
    string_dv_dict_unpack::write_piece(x.back, &mut buffer[front.len()..]);
}
