// The split of an IRI (Nemo's ranked_pair_iri_dv_dict.rs) into a head that many IRIs share and the rest.
#![tactic(auto)]

ghost use Rattle.std.specs.Prelude.{◌≡◌, true};
ghost use Rattle.ranked_pair_iri_dv_dict.specs.Split.{is_mark, Unmarked, head_length, head_of};

use words::{TOP_BITS, WORD};

fn is_mark(byte: u8) -> bool
    ensures { result ≡ is_mark byte }
{
    byte == b'/' || byte == b'#'
}

// Two bits in each byte of a word. Every letter and every digit has at least one of them, and a mark has none.
const NAME_BITS: usize = 0x5050505050505050;

// Adding this to those two bits sets the top bit of the byte exactly if one of them is set. It never carries into the next byte.
const TO_TOP: usize = 0x7F7F7F7F7F7F7F7F;

// Whether each of the eight bytes has one of those bits, so that none is a mark. Some other bytes have none either, for example '-' and '.'.
fn has_no_mark(word: &[u8; 8]) -> bool
    ensures { result ≡ true → Unmarked word.now 0 8 }
{
    ((words::number_from::<WORD>(word, 0) & NAME_BITS) + TO_TOP) & TOP_BITS == TOP_BITS
}

// Passes bytes that are no marks, from the end, eight at a time. Answers the bytes left, which have the same head.
fn pass_words(iri: &[u8]) -> &[u8]
    ensures { head_length result.now ≡ head_length iri.now }
{
    let mut rest = iri;
    while let Some((before, word)) = rest.split_last_chunk::<8>() {
        if !has_no_mark(word) {
            break;
        }
        rest = before;
    }
    rest
}

// Searches from the end: the first mark that it meets is the last one of the IRI.
pub fn rfind_hashslash_plus(iri: &[u8]) -> Option<usize>
    ensures { result ≡ head_of iri.now }
{
    let mut rest = pass_words(iri);
    while let [before @ .., last] = rest {
        if is_mark(*last) {
            return Some(rest.len());
        }
        rest = before;
    }
    None
}
