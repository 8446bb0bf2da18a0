// What an add has to enter: a name, and its head where that is a new one.
#![tactic(auto)]

ghost use Rattle.std.specs.Prelude.{◌≡◌};
ghost use Rattle.fnv.specs.Fnv.{fnv_of};
ghost use Rattle.layout.specs.Numbers.{kind_number, dictionary_number};
ghost use Rattle.model.specs.Kinds.{row};

use bytes_key::Key;
use layout::Kind;

// A head to enter: its number, its empty place, its hash and its bytes.
#[derive(Clone, Copy)]
pub struct NewHead<'h> {
    pub f: usize,
    pub place: usize,
    pub h: u32,
    pub bytes: &'h [u8],
    pub ghost hashed: { h ≡ fnv_of bytes.now },
}

// A name to enter: its kind, its key, which is one of the kind's main dictionary, and the key's empty place. A head that is not stored is entered too.
#[derive(Clone, Copy)]
pub struct NewName<'k, 'f, 'r, 'h> {
    pub kind: Kind,
    pub key: &'k Key<'f, 'r>,
    pub place: usize,
    pub head: Option<NewHead<'h>>,
    pub ghost main: { dictionary_number key.now.d ≡ (row (kind_number kind)).main_at },
}
