// The entries that read by number and by kind: read, count. Each takes any memory and any arguments, and answers or refuses as document 01 says.
#![tactic(auto)]

ghost use Rattle.memory.specs.Promises.{ReadPost, CountPost};
ghost use Rattle.dictionary_read.specs.Answers.{told_by, counted_by};

use kind_table::Row;
use layout::Kind;
use locate::pieces::Told;
use meta_dv_dict::GlobalId;
use refusals::Refusal;

// The name that has a number, or None: its parts at the buffer's start, one after the other.
pub fn read(
    pages: &[u8],
    lists: &[u8],
    number: GlobalId,
    buffer: &mut [u8],
) -> Result<Option<Told>, Refusal>
    ensures { ReadPost pages.entry.now lists.entry.now number.0 buffer.old (told_by result) buffer.new pages.exit.now lists.exit.now }
{
    let memory = header::check_header(pages, lists)?;
    let Some(x) = locate::locate_name(&memory, number)? else {
        return Ok(None);
    };
    if buffer.len() < x.told.first + x.told.second {
        return Err(Refusal::ShortBuffer);
    }
    locate::copy_name(&x, buffer);
    Ok(Some(x.told))
}

// How many names of a kind there are.
pub fn count(pages: &[u8], lists: &[u8], kind: usize) -> Result<usize, Refusal>
    ensures { CountPost pages.entry.now lists.entry.now kind (counted_by result) pages.exit.now lists.exit.now }
{
    let memory = header::check_header(pages, lists)?;
    let Ok(kind) = Kind::try_from(kind) else {
        return Err(Refusal::BadKind);
    };
    bytes_dictionary::count(&memory.lists, Row::of(kind).main)
}
