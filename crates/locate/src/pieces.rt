// Where a name's parts lie in the pages, and what is told of it.
#![tactic(auto)]

ghost use Rattle.std.specs.Prelude.{◌≡◌, ◌++◌, ◌+◌, length};
ghost use Rattle.string_dv_dict_split.specs.Pieces.{piece_bytes};

use layout::Kind;
use string_dv_dict_split::Piece;

// A name's kind and the lengths of its parts.
#[derive(Clone, Copy, Debug, PartialEq, Eq)]
pub struct Told {
    pub kind: Kind,
    pub first: usize,
    pub second: usize,
}

// A name in the pages: what is told of it, and two pieces whose bytes are the first part, then the second. An IRI and a typed value have head and rest as
// pieces, a plain string has itself and nothing, a tagged string has text and tag.
#[derive(Clone, Copy)]
pub struct Pieces<'p> {
    pub told: Told,
    pub front: &'p [u8],
    pub back: Piece<'p>,
    pub ghost lengths: { length (front.now ++ piece_bytes back) ≡ told.first + told.second },
}
