// The code's table of kinds: the row of each kind, and what it says. The functions below the table answer for every number.
#![tactic(auto)]

ghost use Rattle.std.specs.Prelude.{◌≡◌};
ghost use Rattle.layout.specs.Numbers.{kind_number};
ghost use Rattle.model.specs.Kinds.{row, has_heads};
ghost use Rattle.kind_table.specs.Rows.{IsRow, way_of, is_split, front_mode};

use layout::{Dictionary, Kind};
use parts::Mode;

// How the parts of a name become entries: the ways of model/specs/Kinds.antt.
#[derive(Clone, Copy)]
pub enum Way {
    Splits,
    Whole,
    Packs,
    Pairs,
}

// What the table says of a kind: must it have no second part, must it have a tag, the dictionaries of its heads and of its names, its way. A kind without heads
// has its own dictionary in their place, as in the model's table, and nobody asks for it.
// Kept: two flags. Each is a column of the model's table, and the row is checked against it column by column. Worked out of the way, they would be a second table.
// Kept: no Option of the heads. Who asks for them knows from the way that there are some, and would take the Option apart in vain.
#[derive(Clone, Copy)]
pub struct Row {
    pub no_second: bool,
    pub needs_tag: bool,
    pub heads: Dictionary,
    pub main: Dictionary,
    pub way: Way,
}

impl Row {
    // The table of kinds. No other code says what a kind is like.
    // Kept: a match. It is the table itself, and an array looked up by the kind is no plainer.
    pub fn of(kind: Kind) -> Row
        ensures { IsRow (row (kind_number kind)) result }
    {
        match kind {
            Kind::Iri => Row {
                no_second: true,
                needs_tag: false,
                heads: Dictionary::IriHeads,
                main: Dictionary::Iris,
                way: Way::Splits,
            },
            Kind::Plain => Row {
                no_second: true,
                needs_tag: false,
                heads: Dictionary::PlainStrings,
                main: Dictionary::PlainStrings,
                way: Way::Whole,
            },
            Kind::Tagged => Row {
                no_second: false,
                needs_tag: true,
                heads: Dictionary::TaggedStrings,
                main: Dictionary::TaggedStrings,
                way: Way::Packs,
            },
            Kind::Typed => Row {
                no_second: false,
                needs_tag: false,
                heads: Dictionary::TypedHeads,
                main: Dictionary::TypedValues,
                way: Way::Pairs,
            },
        }
    }

    // Does the first part of the kind's names split into head and rest?
    pub fn is_split(self) -> bool
        ensures { result ≡ is_split (way_of self.way) }
    {
        matches!(self.way, Way::Splits)
    }

    // Do the kind's names have heads?
    pub fn has_heads(self) -> bool
        ensures { result ≡ has_heads (way_of self.way) }
    {
        matches!(self.way, Way::Splits | Way::Pairs)
    }

    // How the second part of a kind without heads is stored in front of the first: a tag in its form. A plain string has none.
    pub fn front_mode(self) -> Mode
        ensures { result ≡ front_mode (way_of self.way) }
    {
        match self.way {
            Way::Packs => Mode::Tag,
            Way::Splits | Way::Whole | Way::Pairs => Mode::Raw,
        }
    }
}

// The kind whose row a number has. A number that is no kind's has the row of the plain strings, as in the model's table.
pub fn kind_or_plain(number: usize) -> Kind
    ensures { row (kind_number result) ≡ row number }
{
    Kind::try_from(number).unwrap_or(Kind::Plain)
}

// The row of a kind by its number, for every number.
pub fn row_of(kind: usize) -> Row
    ensures { IsRow (row kind) result }
{
    Row::of(kind_or_plain(kind))
}

// Does the first part of a name split into head and rest, by its kind's number?
pub fn is_split(kind: usize) -> bool
    ensures { result ≡ is_split (row kind).way }
{
    row_of(kind).is_split()
}

// Does a name have a head, by its kind's number?
pub fn has_heads(kind: usize) -> bool
    ensures { result ≡ (row kind).paired }
{
    row_of(kind).has_heads()
}

// How the second part of a name without a head is stored in front of the first, by its kind's number.
pub fn front_mode(kind: usize) -> Mode
    ensures { result ≡ front_mode (row kind).way }
{
    row_of(kind).front_mode()
}
