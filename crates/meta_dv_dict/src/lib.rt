// How local and global numbers are converted (Nemo's meta_dv_dict.rs). Only this file converts one into the other; which block a local number is in stands in
// the crate blocks. The memory may be foreign, so every number read from it is tested.
#![tactic(auto)]

ghost use Rattle.std.specs.Prelude.{◌≡◌, ◌+◌, ◌*◌, ◌%◌, ◌^◌, ◌<◌};
ghost use Rattle.layout.specs.Numbers.{kind_number};
ghost use Rattle.meta_dv_dict.specs.Answers.{Globals, Locals};

use blocks::LocalId;
use layout::lent::{Layout, Lists};
use layout::packed::BlockOwner;
use layout::{KINDS, Kind};
use refusals::Refusal;
use words::WORD;

// A number across the kinds.
#[derive(Clone, Copy, Debug, PartialEq, Eq)]
pub struct GlobalId(pub usize);

// The number in a block that has n's place there.
fn in_block(layout: &Layout, block: usize, n: usize) -> usize
    requires { block < layout.now.sizes.b }
    ensures { result ≡ block * 2 ^ layout.now.sizes.w + n % 2 ^ layout.now.sizes.w }
{
    let size = blocks::block_size(layout);
    block * size + n % size
}

// The global number of a local number that is in the block g.
pub fn number_in(layout: &Layout, g: usize, local: LocalId) -> GlobalId
    requires { g < layout.now.sizes.b }
    ensures { result ≡ record { 0 = g * 2 ^ layout.now.sizes.w + local.0 % 2 ^ layout.now.sizes.w } }
{
    GlobalId(in_block(layout, g, local.0))
}

// The global number of the kind's local number. Unopened: the memory is no dictionary's.
pub fn local_to_global(lists: &Lists<'_>, kind: Kind, local: LocalId) -> Result<GlobalId, Refusal>
    ensures { Globals lists.now.layout.sizes lists.now.bytes.now (kind_number kind) local.0 result }
{
    let n = local.0;
    let l = n / blocks::block_size(&lists.layout);
    if lists.layout.sizes.b <= l {
        return Err(Refusal::Unopened);
    }
    let g = blocks::held_in(lists, kind, l)?;
    Ok(number_in(&lists.layout, g, local))
}

// What the block of a global number says of it: its kind, and its number within the kind.
#[derive(Clone, Copy)]
pub struct Owner {
    pub kind: Kind,
    pub local: LocalId,
}

// The kind and the local number of a global number, by its block. The kind's count tells whether a name has it. None: its block is free. Unopened: the memory
// is no dictionary's.
pub fn global_to_local(lists: &Lists<'_>, number: GlobalId) -> Result<Option<Owner>, Refusal>
    ensures { Locals lists.now.layout.sizes lists.now.bytes.now number.0 result }
{
    let n = number.0;
    let g = n / blocks::block_size(&lists.layout);
    let b = lists.layout.sizes.b;
    if b <= g {
        return Ok(None);
    }
    let word = words::number_at::<WORD>(lists.bytes, lists.layout.blocks_at(KINDS) + g);
    let Some(owner) = BlockOwner::of(word) else {
        return Ok(None);
    };
    let Ok(kind) = Kind::try_from(owner.kind) else {
        return Err(Refusal::Unopened);
    };
    if b <= owner.block {
        return Err(Refusal::Unopened);
    }
    let local = LocalId(in_block(&lists.layout, owner.block, n));
    Ok(Some(Owner { kind, local }))
}
