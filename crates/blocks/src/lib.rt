// The block rule (Nemo's meta_dv_dict.rs): which global block a kind's next local number is in, and the words that say so.
// No number is converted here: the crate meta_dv_dict does that. The memory may be foreign, so every number read from it is tested.
#![tactic(auto)]

ghost use Rattle.std.specs.Prelude.{◌≡◌, ◌-◌, ◌/◌, ◌^◌, ◌≤◌, ◌<◌, length};
ghost use Rattle.words.specs.Words.{word_at};
ghost use Rattle.layout.specs.Sizes.{kinds, list_bytes};
ghost use Rattle.layout.specs.Numbers.{kind_number};
ghost use Rattle.layout.specs.Fields.{blocks_at, local_at};
ghost use Rattle.blocks.specs.Blocks.{search};
ghost use Rattle.blocks.specs.Tables.{owner_in};
ghost use Rattle.blocks.specs.Answers.{found, Allocates, held_by, block_written};

use layout::lent::{Layout, Lists};
use layout::packed::BlockOwner;
use layout::{KINDS, Kind};
use refusals::Refusal;
use words::WORD;

// A number within its kind.
#[derive(Clone, Copy)]
pub struct LocalId(pub usize);

// How many numbers a block has.
// Kept: apart from `Layout::page_size`, which is another power of two. One function for both would take the power, and callers would lose the names.
pub fn block_size(layout: &Layout) -> usize
    ensures { (result ≡ 2 ^ layout.now.sizes.w) × (0 < result) × (result ≤ 16777216) }
{
    let w = layout.sizes.w;
    1 << w
}

// The first free block, from the block `from` up.
fn first_free(lists: &Lists<'_>, from: usize) -> Option<usize>
    ensures { result ≡ found (search (owner_in lists.now.bytes.now (blocks_at lists.now.layout.sizes kinds)) from (lists.now.layout.sizes.b - from)) }
{
    let at = lists.layout.blocks_at(KINDS);
    let words = lists.bytes;
    (from..lists.layout.sizes.b).find(|&g| words::number_at::<WORD>(words, at + g) == 0)
}

// The global block that holds the kind's local block l. Unopened: the memory is no dictionary's.
// Kept: that a block is below the layout's count is asked here and below, and in `meta_dv_dict`. A type of such blocks would hold a layout, which had to be shown to
// be the caller's: one clause more.
pub fn held_in(lists: &Lists<'_>, kind: Kind, l: usize) -> Result<usize, Refusal>
    requires { l < lists.now.layout.sizes.b }
    ensures { result ≡ held_by lists.now.layout.sizes.b (word_at lists.now.bytes.now (local_at lists.now.layout.sizes (kind_number kind) l)) }
{
    let at = lists.layout.blocks_at(usize::from(kind));
    let x = words::number_at::<WORD>(lists.bytes, at + l);
    if x == 0 {
        return Err(Refusal::Unopened);
    }
    if lists.layout.sizes.b < x {
        return Err(Refusal::Unopened);
    }
    Ok(x - 1)
}

// The block of the kind's next local number. None: no block is left. Unopened: the memory is no dictionary's.
pub fn allocate_block(
    lists: &Lists<'_>,
    kind: Kind,
    local: LocalId,
) -> Result<Option<usize>, Refusal>
    ensures { Allocates lists.now.layout.sizes lists.now.bytes.now (kind_number kind) local.0 result }
{
    let n = local.0;
    let size = block_size(&lists.layout);
    let l = n / size;
    // Each earlier local block has taken a global one, so none is left for this one.
    if lists.layout.sizes.b <= l {
        return Ok(None);
    }
    if n % size != 0 {
        let g = held_in(lists, kind, l)?;
        return Ok(Some(g));
    }
    if l == 0 {
        return Ok(first_free(lists, 0));
    }
    let before = l - 1;
    let g = held_in(lists, kind, before)?;
    Ok(first_free(lists, g + before))
}

// Writes that the kind's local number is in the block g.
pub fn take_block(lists: &mut [u8], layout: &Layout, kind: Kind, local: LocalId, g: usize)
    requires { (list_bytes layout.now.sizes ≤ length lists.old) × (local.0 / 2 ^ layout.now.sizes.w < layout.now.sizes.b) × (g < layout.now.sizes.b) }
    ensures { lists.new ≡ block_written layout.now.sizes lists.old (kind_number kind) local.0 g }
{
    let n = local.0;
    let k = usize::from(kind);
    let l = n / block_size(layout);
    words::put_number::<WORD>(lists, layout.blocks_at(k) + l, g + 1);
    let owner = BlockOwner { kind: k, block: l };
    words::put_number::<WORD>(lists, layout.blocks_at(KINDS) + g, owner.word());
}
