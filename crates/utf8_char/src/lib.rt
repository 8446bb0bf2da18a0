// One character of UTF-8 by RFC 3629, byte by byte: no surrogates, nothing above U+10FFFF, shortest forms only.
#![tactic(auto)]

ghost use Rattle.std.specs.Prelude.{◌≡◌, ◌<◌, length, Some};
ghost use Rattle.utf8_char.specs.Text.{first_of, after};
ghost use Rattle.utf8_char.specs.Ends.{Ends};

// How many tail bytes of a character are still due, and the least and the greatest value of the next one.
#[derive(Clone, Copy, Debug, PartialEq, Eq)]
pub struct Due {
    left: usize,
    lo: u8,
    hi: u8,
}

// The first byte of a character says how many tail bytes follow, and sometimes bounds the first of them. None: no text begins with it.
#[tactic(auto, using(crate::proofs::Bounds::first_bytes), unfolding(crate::specs::Text::first_of))]
fn first(b: u8) -> Option<Due>
    ensures { result ≡ first_of b }
{
    let (left, lo, hi) = match b {
        0x00..=0x7F => (0, 0x80, 0xBF),
        0xC2..=0xDF => (1, 0x80, 0xBF),
        0xE0 => (2, 0xA0, 0xBF),
        0xE1..=0xEC => (2, 0x80, 0xBF),
        0xED => (2, 0x80, 0x9F),
        0xEE..=0xEF => (2, 0x80, 0xBF),
        0xF0 => (3, 0x90, 0xBF),
        0xF1..=0xF3 => (3, 0x80, 0xBF),
        0xF4 => (3, 0x80, 0x8F),
        _ => return None,
    };
    Some(Due { left, lo, hi })
}

impl Due {
    // Takes one more byte. None: no text begins with the bytes read so far.
    fn next(self, b: u8) -> Option<Due>
        ensures { result ≡ after (Some self) b }
    {
        if self.left == 0 {
            return first(b);
        }
        if !(self.lo..=self.hi).contains(&b) {
            return None;
        }
        Some(Due {
            left: self.left - 1,
            lo: 0x80,
            hi: 0xBF,
        })
    }
}

// Where the character that begins at i ends. None: the bytes are no character.
// Kept: an index beside the slice. `utf8` counts by an index, for the reason given there, and would cut a slice for each character.
pub fn char_end(s: &[u8], i: usize) -> Option<usize>
    requires { i < length s.now }
    ensures { Ends s.now i result }
{
    let mut due = first(s[i])?;
    let tail = s[i + 1..].get(..due.left)?;
    for b in tail {
        due = due.next(*b)?;
    }
    Some(i + 1 + tail.len())
}
