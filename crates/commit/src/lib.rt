// The answers of an add, the number of a name that is stored, and the writes of a plan. The memory may hold any bytes.
#![tactic(auto)]

pub mod new_name;

ghost use Rattle.std.specs.Prelude.{◌≡◌, ◌+◌, ◌*◌, ◌%◌, ◌^◌, ◌<◌, length};
ghost use Rattle.layout.specs.Numbers.{kind_number};
ghost use Rattle.layout.specs.Lent.{Fit};
ghost use Rattle.bytes_key.specs.KeyBytes.{bytes_in};
ghost use Rattle.model.specs.Kinds.{row};
ghost use Rattle.plan.specs.Plans.{PlanFits};
ghost use Rattle.plan_room.specs.Steps.{is_new, head_number, HeadFits};
ghost use Rattle.bytes_dictionary.specs.Written.{pages_with, lists_with};
ghost use Rattle.commit.specs.Answers.{Knows};
ghost use Rattle.commit.specs.Written.{head_of, head_place, head_bytes, name_pages, name_lists};

use crate::new_name::NewName;
use blocks::LocalId;
use bytes_entry::NewEntry;
use bytes_key::Key;
use kind_table::Row;
use layout::Kind;
use layout::lent::{Layout, Lists};
use meta_dv_dict::GlobalId;
use plan::Plan;
use refusals::Refusal;

// A name's number, and whether it is a new one.
#[derive(Clone, Copy, Debug, PartialEq, Eq)]
pub enum Added {
    Fresh(GlobalId),
    Known(GlobalId),
}

// The answer for a name that is stored already, under a local number.
pub fn known(lists: &Lists<'_>, kind: Kind, local: LocalId) -> Result<Added, Refusal>
    ensures { Knows lists.now.layout.sizes lists.now.bytes.now (kind_number kind) local.0 result }
{
    let number = meta_dv_dict::local_to_global(lists, kind, local)?;
    Ok(Added::Known(number))
}

// Writes the head as it was planned, if it is a new one.
// Kept: two Options that agree. The name says which head is new, and the plan where it goes; a plan that held the name's head would borrow of it.
fn insert_head(
    pages: &mut [u8],
    lists: &mut [u8],
    layout: &Layout,
    w: &NewName<'_, '_, '_, '_>,
    x: &Plan,
)
    requires fit { Fit layout.now.sizes pages.old lists.old × (head_place w.now < 2 * layout.now.sizes.e) }
    requires has_room { HeadFits layout.now.sizes (length (head_bytes w.now)) (is_new (head_of w.now)) x.now.head × (head_number (head_of w.now) < layout.now.sizes.e) }
    ensures pages { pages.new ≡ pages_with layout.now.sizes pages.old x.now.head (head_bytes w.now) }
    ensures lists { lists.new ≡ lists_with layout.now.sizes lists.old (row (kind_number w.now.kind)).heads_at (head_number (head_of w.now)) (head_place w.now) x.now.head x.now.stamp (head_bytes w.now) }
{
    let Some(head) = w.head else {
        return;
    };
    let key = Key::whole(Row::of(w.kind).heads, head.h, head.bytes);
    let entry = NewEntry {
        n: head.f,
        place: head.place,
        stamp: x.stamp,
    };
    bytes_dictionary::insert_planned(pages, lists, layout, &key, entry, x.head);
}

// Writes the head, if it is a new one, and the key as they were planned, and gives the name's number.
pub fn commit(
    pages: &mut [u8],
    lists: &mut [u8],
    layout: &Layout,
    w: &NewName<'_, '_, '_, '_>,
    x: &Plan,
) -> GlobalId
    requires fit { Fit layout.now.sizes pages.old lists.old × (head_place w.now < 2 * layout.now.sizes.e) × (w.now.place < 2 * layout.now.sizes.e) }
    requires plan_fits { PlanFits layout.now.sizes (is_new (head_of w.now)) (head_number (head_of w.now)) (length (head_bytes w.now)) (length (bytes_in w.now.key.now)) x.now }
    ensures answer { result.0 ≡ x.now.g * 2 ^ layout.now.sizes.w + x.now.n % 2 ^ layout.now.sizes.w }
    ensures pages { pages.new ≡ name_pages layout.now.sizes pages.old x.now (head_bytes w.now) (bytes_in w.now.key.now) }
    ensures lists { lists.new ≡ name_lists layout.now.sizes lists.old (kind_number w.now.kind) (head_number (head_of w.now)) (head_place w.now) w.now.place x.now (head_bytes w.now) (bytes_in w.now.key.now) }
{
    let n = x.n;
    let g = x.g;
    let entry = NewEntry {
        n,
        place: w.place,
        stamp: x.stamp,
    };
    insert_head(pages, lists, layout, w, x);
    bytes_dictionary::insert(pages, lists, layout, w.key, entry, x.spot);
    blocks::take_block(lists, layout, w.kind, LocalId(n), g);
    meta_dv_dict::number_in(layout, g, LocalId(n))
}
