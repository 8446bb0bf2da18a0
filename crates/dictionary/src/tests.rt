// The search for a name as add calls it, before and after the name is added. The contracts say what it answers; here it is run.
use crate::add;
use blocks::LocalId;
use layout::Kind;
use layout::lent::Layout;
use names::Name;
use refusals::Refusal;
use search::{Place, Search};
use std::test::Fail;

// The memory of six pages of 8,192 bytes, six dictionaries of four entries, and four blocks, as document 01 counts it.
const PAGES: usize = 6 * 8192;

const LISTS: usize = 8 * (64 + 6 + 18 * 4 + 5 * 4);

// What the search says of a name, once the header and the name's shape are checked.
fn find(pages: &[u8], lists: &[u8], name: Name<'_>) -> Result<Search, Refusal> {
    let memory = header::check_header(pages, lists)?;
    let kind = usize::from(name.kind);
    let name = Name::new(memory.lists.layout.sizes, kind, name.first, name.second)?;
    search::find_name(&memory, &name)
}

// The lists of an empty dictionary.
fn empty() -> Result<[u8; LISTS], Refusal> {
    let mut lists = [0u8; LISTS];
    let layout = Layout::new(13, 6, 4, 4, 4).ok_or(Refusal::BadSize)?;
    if LISTS < layout.list_bytes() {
        return Err(Refusal::ShortMemory);
    }
    header::init(&mut lists, &layout);
    Ok(lists)
}

// Ends a test with these words, unless it is so.
fn holds(is_so: bool, what: &'static str) -> Result<(), &'static str> {
    if is_so {
        return Ok(());
    }
    Err(what)
}

// The first name of each kind: its head is missing, or its key where the kind has no heads. Once it is added it is found.
#[test]
fn finds_what_was_added() -> Result<(), Fail> {
    let mut pages = [0u8; PAGES];
    let mut lists = empty()?;
    let names = [
        (Kind::Iri, "https://plant.example/motor", "", true),
        (Kind::Plain, "motor", "", false),
        (Kind::Tagged, "motor", "en", false),
        (
            Kind::Typed,
            "7",
            "http://www.w3.org/2001/XMLSchema#integer",
            true,
        ),
    ];
    for (kind, first, second, has_head) in names {
        let name = Name {
            kind,
            first: first.as_bytes(),
            second: second.as_bytes(),
        };
        let before = find(&pages, &lists, name)?;
        holds(
            match before {
                Search::Missing(Place::Head(_)) => has_head,
                Search::Missing(Place::Key(_)) => !has_head,
                Search::Found(_) => false,
            },
            first,
        )?;
        add(
            &mut pages,
            &mut lists,
            usize::from(kind),
            name.first,
            name.second,
        )?;
        let found = find(&pages, &lists, name)?;
        holds(matches!(found, Search::Found(LocalId(0))), first)?;
    }
    Ok(())
}

// A name that is not text, or has no tag where one is needed, is refused behind the search.
#[test]
fn refuses_what_is_no_text() -> Result<(), Fail> {
    let pages = [0u8; PAGES];
    let lists = empty()?;
    let broken = Name {
        kind: Kind::Plain,
        first: &[0x80],
        second: &[],
    };
    holds(
        matches!(find(&pages, &lists, broken), Err(Refusal::NotText)),
        "80 is no text",
    )?;
    let untagged = Name {
        kind: Kind::Tagged,
        first: b"motor",
        second: &[],
    };
    holds(
        matches!(find(&pages, &lists, untagged), Err(Refusal::NoTag)),
        "no tag",
    )?;
    Ok(())
}
