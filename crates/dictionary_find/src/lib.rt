// The entry that finds: the number of a name. It takes any memory and any arguments, and answers or refuses as document 01 says.
#![tactic(auto)]

ghost use Rattle.model.specs.Names.{entered};
ghost use Rattle.memory.specs.Promises.{FindPost};
ghost use Rattle.dictionary_find.specs.Answers.{found_by};

use meta_dv_dict::GlobalId;
use names::Name;
use refusals::Refusal;
use search::{Place, Search};

// The number that a name has, or None. Both parts have one lifetime, since the rest may lie in either.
pub fn find<'a>(
    pages: &[u8],
    lists: &[u8],
    kind: usize,
    first: &'a [u8],
    second: &'a [u8],
) -> Result<Option<GlobalId>, Refusal>
    ensures { FindPost pages.entry.now lists.entry.now (entered kind first.now second.now) (found_by result) pages.exit.now lists.exit.now }
{
    let memory = header::check_header(pages, lists)?;
    let name = Name::new(memory.lists.layout.sizes, kind, first, second)?;
    let found = search::find_name(&memory, &name)?;
    match found {
        Search::Found(local) => {
            let number = meta_dv_dict::local_to_global(&memory.lists, name.kind, local)?;
            Ok(Some(number))
        }
        // Both places are named: with `_` here the check of borrows finds no proof.
        Search::Missing(Place::Key(_) | Place::Head(_)) => Ok(None),
    }
}
