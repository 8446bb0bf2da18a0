// The entry that opens: it makes lent memory a dictionary with no names. It takes any memory and any sizes, and answers or refuses as document 01 says.
#![tactic(auto)]

ghost use Rattle.memory.specs.Promises.{OpenPost};
ghost use Rattle.dictionary_open.specs.Answers.{opened_by};

use layout::lent::{Layout, Memory};
use refusals::Refusal;

// Makes the memory a dictionary with no names: page width p, pages n, list length e, block width w, blocks b.
pub fn open(
    pages: &[u8],
    lists: &mut [u8],
    p: usize,
    n: usize,
    e: usize,
    w: usize,
    b: usize,
) -> Result<(), Refusal>
    ensures { OpenPost (record { p = p; n = n; e = e; w = w; b = b }) pages.entry.now lists.old (opened_by result) pages.exit.now lists.new }
{
    let layout = Layout::new(p, n, e, w, b).ok_or(Refusal::BadSize)?;
    if Memory::new(layout, lists, pages).is_none() {
        return Err(Refusal::ShortMemory);
    }
    header::init(lists, &layout);
    Ok(())
}
