// Little-endian numbers in a slice of bytes, each N bytes wide: a word has eight bytes, a quad four. An index counts numbers of that width; `number_from` reads from any byte on.
// At the width of a word and of a quad, each read below compiles to one load, and each write to one store.
#![tactic(auto)]

ghost use Rattle.std.specs.Prelude.{◌≡◌, ◌+◌, ◌*◌, ◌≤◌, length};
ghost use Rattle.words.specs.Words.{le_at, number_at, set_number};

// The bytes of a word.
pub const WORD: usize = 8;

// The bytes of a quad.
pub const QUAD: usize = 4;

// The top bit of each byte of a word.
pub const TOP_BITS: usize = 0x8080808080808080;

// The number whose N bytes begin at b.
// Kept: the width is bounded here and in the two functions below. A const parameter has no type that could say it. So is the index, here and where an index is
// handed on: no type of an index knows the slice that it is used on.
pub fn number_from<const N: usize>(s: &[u8], b: usize) -> usize
    requires width { N ≤ 8 }
    requires within { b + N ≤ length s.now }
    ensures { result ≡ le_at N s.now b }
{
    let mut bytes = [0; WORD];
    bytes[..N].copy_from_slice(&s[b..b + N]);
    usize::from_le_bytes(bytes)
}

// The number at index i.
pub fn number_at<const N: usize>(s: &[u8], i: usize) -> usize
    requires width { N ≤ 8 }
    requires within { N * i + N ≤ length s.now }
    ensures { result ≡ number_at N s.now i }
{
    number_from::<N>(s, N * i)
}

// Puts the low N bytes of x at index i.
pub fn put_number<const N: usize>(s: &mut [u8], i: usize, x: usize)
    requires width { N ≤ 8 }
    requires within { N * i + N ≤ length s.old }
    ensures { s.new ≡ set_number N s.old i x }
{
    let b = N * i;
    let bytes = x.to_le_bytes();
    s[b..b + N].copy_from_slice(&bytes[..N]);
}
