// The sizes of a dictionary's memory with their limits, its kinds and dictionaries, and the words of `lists`.
#![tactic(auto)]

pub mod lent;
pub mod packed;

ghost use Rattle.std.specs.Prelude.{◌≡◌, ◌<◌};
ghost use Rattle.layout.specs.Sizes.{within, made, limit, kinds, dictionaries};
ghost use Rattle.layout.specs.Numbers.{kind_number, kind_by, dictionary_number};

// How many kinds of names and how many dictionaries there are.
pub const KINDS: usize = 4;

pub const DICTIONARIES: usize = 6;

// The kinds of names, kind 0 first.
#[derive(Clone, Copy, Debug, PartialEq, Eq)]
pub enum Kind {
    Iri,
    Plain,
    Tagged,
    Typed,
}

impl Kind {
    pub const ALL: [Kind; KINDS] = [Kind::Iri, Kind::Plain, Kind::Tagged, Kind::Typed];
}

impl From<Kind> for usize {
    ghost from_gives = { λ kind n. (n ≡ kind_number kind) × (n < kinds) };

    fn from(kind: Kind) -> usize {
        kind as usize
    }
}

// A number that is no kind's.
#[derive(Clone, Copy, Debug, PartialEq, Eq)]
pub struct UnknownKind(pub usize);

impl TryFrom<usize> for Kind {
    type Error = UnknownKind;

    ghost try_from_gives = { λ number r. r ≡ kind_by number };

    fn try_from(number: usize) -> Result<Kind, UnknownKind> {
        match number {
            0 => Ok(Kind::Iri),
            1 => Ok(Kind::Plain),
            2 => Ok(Kind::Tagged),
            3 => Ok(Kind::Typed),
            _ => Err(UnknownKind(number)),
        }
    }
}

// The dictionaries, dictionary 0 first: those of the heads and of the names of each kind. A plain string and a tagged string have no heads.
#[derive(Clone, Copy, Debug, PartialEq, Eq)]
pub enum Dictionary {
    IriHeads,
    Iris,
    PlainStrings,
    TaggedStrings,
    TypedHeads,
    TypedValues,
}

impl From<Dictionary> for usize {
    ghost from_gives = { λ d n. (n ≡ dictionary_number d) × (n < dictionaries) };

    fn from(d: Dictionary) -> usize {
        d as usize
    }
}

// Words of `lists`, by their index; specs/Fields.antt has the whole table. UNTAKEN is the lowest untaken page. COUNT, CURRENT and TAKEN are of
// dictionary 0: its count of entries, its current page + 1, its count of pages. Those of the next dictionary are STRIDE words on. PAGES is page 0.
pub const UNTAKEN: usize = 6;

pub const COUNT: usize = 16;

pub const CURRENT: usize = 17;

pub const TAKEN: usize = 18;

pub const STRIDE: usize = 4;

pub const PAGES: usize = 64;

// A page's number is below this, and an entry's number + 1 is below that.
pub const PAGE_NUMBERS: usize = 1024;

pub const ENTRY_NUMBERS: usize = 2097152;

// Document 01's letters: page width p, pages N, list length E, block width w, blocks B.
#[derive(Clone, Copy)]
pub struct Sizes {
    pub p: usize,
    pub n: usize,
    pub e: usize,
    pub w: usize,
    pub b: usize,
}

fn is_within(lo: usize, hi: usize, x: usize) -> bool
    ensures { result ≡ within lo hi x }
{
    (lo..=hi).contains(&x)
}

impl Sizes {
    pub const P_LEAST: usize = 13;

    pub const P_MOST: usize = 20;

    pub const N_LEAST: usize = 1;

    pub const N_MOST: usize = 1024;

    pub const E_LEAST: usize = 1;

    pub const E_MOST: usize = 1048576;

    pub const W_LEAST: usize = 4;

    pub const W_MOST: usize = 24;

    pub const B_LEAST: usize = 1;

    pub const B_MOST: usize = 4096;

    // The most bytes of a name, both parts together, and of a packed form.
    pub const NAME_LIMIT: usize = 4000;

    pub const PACKED_LIMIT: usize = 8002;

    // The sizes, if each is in its range.
    pub fn new(p: usize, n: usize, e: usize, w: usize, b: usize) -> Option<Sizes>
        ensures { result ≡ made (record { p = p; n = n; e = e; w = w; b = b }) }
    {
        if is_within(Sizes::P_LEAST, Sizes::P_MOST, p)
            && is_within(Sizes::N_LEAST, Sizes::N_MOST, n)
            && is_within(Sizes::E_LEAST, Sizes::E_MOST, e)
            && is_within(Sizes::W_LEAST, Sizes::W_MOST, w)
            && is_within(Sizes::B_LEAST, Sizes::B_MOST, b)
        {
            return Some(Sizes { p, n, e, w, b });
        }
        None
    }

    // The most bytes of a name in a dictionary with these sizes.
    pub fn limit(self) -> usize
        ensures { result ≡ limit self }
    {
        Sizes::NAME_LIMIT
    }
}
