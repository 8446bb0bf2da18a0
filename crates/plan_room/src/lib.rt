// The steps of a plan: the room in the lists, the spot of a new head, the block and the stamp of a name. They give refusals 8, 9 and 10, and write nothing. The memory may hold any bytes.
#![tactic(auto)]

ghost use Rattle.std.specs.Prelude.{◌≤◌};
ghost use Rattle.layout.specs.Sizes.{page_size};
ghost use Rattle.layout.specs.Numbers.{kind_number};
ghost use Rattle.plan_room.specs.Steps.{is_new, head_number, head_size, PlansHead, Stamps, Chooses, RoomIn};

use blocks::LocalId;
use bytes_buffer::Spot;
use kind_table::Row;
use layout::Kind;
use layout::lent::Lists;
use refusals::Refusal;

// A new head: its number, and how many bytes it has.
#[derive(Clone, Copy)]
pub struct Head {
    pub f: usize,
    pub size: usize,
}

// Where a new head goes, if there is one. No other head is entered.
pub fn plan_head(
    lists: &Lists<'_>,
    kind: Kind,
    head: Option<Head>,
    untaken: usize,
) -> Result<Option<Spot>, Refusal>
    requires { head_size head ≤ page_size lists.now.layout.sizes }
    ensures { PlansHead lists.now.layout.sizes lists.now.bytes.now (kind_number kind) (is_new head) untaken (head_size head) result }
{
    let Some(head) = head else {
        return Ok(None);
    };
    let spot = bytes_buffer::plan(lists, Row::of(kind).heads, untaken, head.size)?;
    Ok(Some(spot))
}

// The next stamp: how many names there are of all kinds. Unopened: the memory is no dictionary's.
fn next_stamp(lists: &Lists<'_>) -> Result<usize, Refusal>
    ensures { Stamps lists.now.layout.sizes lists.now.bytes.now result }
{
    let mut stamp = 0;
    for kind in Kind::ALL {
        stamp += bytes_dictionary::count(lists, Row::of(kind).main)?;
    }
    Ok(stamp)
}

// Where the next name of a kind goes: its block, and its stamp.
#[derive(Clone, Copy)]
pub struct Chosen {
    pub g: usize,
    pub stamp: usize,
}

// The block and the stamp of the kind's name number n.
pub fn choose_block(lists: &Lists<'_>, kind: Kind, n: usize) -> Result<Chosen, Refusal>
    ensures { Chooses lists.now.layout.sizes lists.now.bytes.now (kind_number kind) n result }
{
    let Some(g) = blocks::allocate_block(lists, kind, LocalId(n))? else {
        return Err(Refusal::NoBlock);
    };
    let stamp = next_stamp(lists)?;
    Ok(Chosen { g, stamp })
}

// What is looked at before a spot is planned: the number of the name, and the lowest untaken page.
#[derive(Clone, Copy)]
pub struct Room {
    pub n: usize,
    pub untaken: usize,
}

// Looks whether the lists have room for a name of the kind, and for its head, if it is a new one.
pub fn check_room(lists: &Lists<'_>, kind: Kind, head: Option<Head>) -> Result<Room, Refusal>
    ensures { RoomIn lists.now.layout.sizes lists.now.bytes.now (kind_number kind) (head_number head) result }
{
    let n = bytes_dictionary::count(lists, Row::of(kind).main)?;
    let e = lists.layout.sizes.e;
    // Kept: a match. Tried: `is_some_and` of the head. The check did not see what the closure answers.
    let f = match head {
        Some(head) => head.f,
        None => 0,
    };
    if e <= n || e <= f {
        return Err(Refusal::ListFull);
    }
    let untaken = bytes_buffer::untaken(lists)?;
    Ok(Room { n, untaken })
}
