// The entry that adds a name to the dictionary in lent memory. It takes any memory and any arguments, and answers or refuses as document 01 says.
#![tactic(auto)]

#[cfg(test)]
mod tests;

ghost use Rattle.model.specs.Names.{entered};
ghost use Rattle.memory.specs.Promises.{AddPost};
ghost use Rattle.commit.specs.Answers.{added_by};

use commit::Added;
use names::Name;
use refusals::Refusal;
use search::Search;

// Gives a name its number: a new one, or the one that it has. Both parts have one lifetime, since the rest may lie in either.
pub fn add<'a>(
    pages: &mut [u8],
    lists: &mut [u8],
    kind: usize,
    first: &'a [u8],
    second: &'a [u8],
) -> Result<Added, Refusal>
    ensures { AddPost pages.old lists.old (entered kind first.now second.now) (added_by result) pages.new lists.new }
{
    let memory = header::check_header(pages, lists)?;
    let layout = memory.lists.layout;
    let name = Name::new(layout.sizes, kind, first, second)?;
    let found = search::find_name(&memory, &name)?;
    match &found {
        Search::Found(local) => commit::known(&memory.lists, name.kind, *local),
        Search::Missing(place) => enter::add_name(pages, lists, &layout, &name, place),
    }
}
