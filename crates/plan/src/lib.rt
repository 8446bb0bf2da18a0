// The plan of an add: where a name's entries go, its block and its stamp. It decides refusals 8, 9 and 10, and writes nothing. The memory may hold any bytes.
#![tactic(auto)]

ghost use Rattle.std.specs.Prelude.{◌≤◌, unwrap_or};
ghost use Rattle.layout.specs.Sizes.{page_size};
ghost use Rattle.layout.specs.Numbers.{kind_number};
ghost use Rattle.plan.specs.Plans.{Plans, PlansWith};
ghost use Rattle.plan_room.specs.Steps.{is_new, head_number, head_size};

use bytes_buffer::Spot;
use kind_table::Row;
use layout::Kind;
use layout::lent::Lists;
use plan_room::{Chosen, Head, Room};
use refusals::Refusal;

// What an add writes: the number of the main entry, the spots of the head, if it is a new one, and of the main entry, the block and the stamp.
#[derive(Clone, Copy)]
pub struct Plan {
    pub n: usize,
    pub head: Option<Spot>,
    pub spot: Spot,
    pub g: usize,
    pub stamp: usize,
}

// Decides where a head of `size` bytes and a key of len bytes go: refusals 8, 9, 10 of both together. Without a size the head is not a new one, and only the key
// goes somewhere. The head's number f must be below e all the same.
pub fn plan_with(
    lists: &Lists<'_>,
    kind: Kind,
    f: usize,
    size: Option<usize>,
    len: usize,
) -> Result<Plan, Refusal>
    requires { (unwrap_or size 0 ≤ page_size lists.now.layout.sizes) × (len ≤ page_size lists.now.layout.sizes) }
    ensures { PlansWith lists.now.layout.sizes lists.now.bytes.now (kind_number kind) f size len result }
{
    let head = Head {
        f,
        size: size.unwrap_or(0),
    };
    let Room { n, untaken } = plan_room::check_room(lists, kind, Some(head))?;
    let new_head = size.and(Some(head));
    let head_spot = plan_room::plan_head(lists, kind, new_head, untaken)?;
    let next = bytes_buffer::untaken_after(untaken, head_spot);
    let spot = bytes_buffer::plan(lists, Row::of(kind).main, next, len)?;
    let Chosen { g, stamp } = plan_room::choose_block(lists, kind, n)?;
    Ok(Plan {
        n,
        head: head_spot,
        spot,
        g,
        stamp,
    })
}

// Decides where a head, if it is a new one, and a key of len bytes go: refusals 8, 9, 10 of both together.
// It only takes the head apart, so it is merged into its caller.
#[inline(always)]
pub fn plan_name(
    lists: &Lists<'_>,
    kind: Kind,
    head: Option<Head>,
    len: usize,
) -> Result<Plan, Refusal>
    requires { (head_size head ≤ page_size lists.now.layout.sizes) × (len ≤ page_size lists.now.layout.sizes) }
    ensures { Plans lists.now.layout.sizes lists.now.bytes.now (kind_number kind) (is_new head) (head_number head) (head_size head) len result }
{
    let (f, size) = match head {
        Some(Head { f, size }) => (f, Some(size)),
        None => (0, None),
    };
    plan_with(lists, kind, f, size, len)
}
