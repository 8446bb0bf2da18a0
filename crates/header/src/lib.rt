// The check of the header, and an empty dictionary in lent memory.
#![tactic(auto)]

ghost use Rattle.std.specs.Prelude.{◌≡◌, ◌≤◌, length, IfOk};
ghost use Rattle.layout.specs.Sizes.{list_bytes};
ghost use Rattle.header.specs.Header.{header_of, sized};
ghost use Rattle.header.specs.Opened.{opened_lists};

use layout::lent::{Layout, Memory};
use refusals::Refusal;
use words::WORD;

// "namedic2", low byte first: the first word of every dictionary's `lists`.
const FORMAT: usize = 0x32636964656D616E;

// The memory of a dictionary, by the sizes in its header. Unopened: the memory is no dictionary's.
pub fn check_header<'l, 'p>(pages: &'p [u8], lists: &'l [u8]) -> Result<Memory<'l, 'p>, Refusal>
    ensures sized { sized result ≡ header_of (length pages.now) lists.now }
    ensures given { IfOk result (λ m. (m.lists.bytes.now ≡ lists.now) × (m.pages.now ≡ pages.now)) }
{
    if lists.len() < 512 {
        return Err(Refusal::Unopened);
    }
    if words::number_at::<WORD>(lists, 0) != FORMAT {
        return Err(Refusal::Unopened);
    }
    let made = Layout::new(
        words::number_at::<WORD>(lists, 1),
        words::number_at::<WORD>(lists, 2),
        words::number_at::<WORD>(lists, 3),
        words::number_at::<WORD>(lists, 4),
        words::number_at::<WORD>(lists, 5),
    );
    let layout = made.ok_or(Refusal::Unopened)?;
    Memory::new(layout, lists, pages).ok_or(Refusal::Unopened)
}

// Makes `lists` the memory of a dictionary with no entry.
#[tactic(auto, using(crate::proofs::Opening::least))]
pub fn init(lists: &mut [u8], layout: &Layout)
    requires { list_bytes layout.now.sizes ≤ length lists.old }
    ensures { lists.new ≡ opened_lists layout.now.sizes lists.old }
{
    let s = layout.sizes;
    let n = layout.list_bytes();
    lists[..n].fill(0);
    words::put_number::<WORD>(lists, 0, FORMAT);
    words::put_number::<WORD>(lists, 1, s.p);
    words::put_number::<WORD>(lists, 2, s.n);
    words::put_number::<WORD>(lists, 3, s.e);
    words::put_number::<WORD>(lists, 4, s.w);
    words::put_number::<WORD>(lists, 5, s.b);
}
