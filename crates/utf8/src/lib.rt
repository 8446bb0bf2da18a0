// Whether a run of bytes is UTF-8 by RFC 3629. Runs of characters are passed fast, the other characters one by one.
#![tactic(auto)]

ghost use Rattle.std.specs.Prelude.{◌≡◌, ◌↔◌, ◌+◌, ◌^◌, ◌≤◌, ◌<◌, ℕ, length, take, drop, IsTrue, All};
ghost use Rattle.utf8_char.specs.Grammar.{Tail};
ghost use Rattle.utf8_char.specs.Text.{is_text};
ghost use Rattle.utf8.specs.Passing.{ascii, IsChar, Passed};

use words::{TOP_BITS, WORD};

// Whether the eight bytes are ASCII. The top bit of an ASCII byte is 0.
fn is_ascii(bytes: &[u8; 8]) -> bool
    ensures { result ≡ ascii bytes.now }
{
    words::number_from::<WORD>(bytes, 0) & TOP_BITS == 0
}

// Passes ASCII bytes from i on, eight at a time. The last eight may begin before the bytes that are left.
// Kept: this file counts by an index. With slices of the bytes left, `is_text` took 60 instructions for eight ASCII bytes and 67 for twenty, and with an index it takes 42 and 48.
fn pass_words(s: &[u8], i: usize) -> usize
    requires { i ≤ length s.now }
    ensures { Passed s.now i result }
{
    let mut k = i;
    while let Some(bytes) = s[k..].first_chunk::<8>() {
        if !is_ascii(bytes) {
            return k;
        }
        k += 8;
    }
    match s.last_chunk::<8>() {
        Some(last) if is_ascii(last) => s.len(),
        _ => k,
    }
}

// Passes ASCII bytes from i on, one at a time.
fn pass_bytes(s: &[u8], i: usize) -> usize
    requires { i ≤ length s.now }
    ensures { Passed s.now i result }
{
    for k in i..s.len() {
        if !s[k].is_ascii() {
            return k;
        }
    }
    s.len()
}

// Passes ASCII bytes from i on. If the next byte is not ASCII, it reads no word: in many scripts one such character follows another.
fn pass_ascii(s: &[u8], i: usize) -> usize
    requires { i ≤ length s.now }
    ensures { Passed s.now i result }
{
    if i < s.len() && !s[i].is_ascii() {
        return i;
    }
    pass_bytes(s, pass_words(s, i))
}

// Whether each byte is a tail byte.
fn are_tails(bytes: &[u8]) -> bool
    ensures { IsTrue result ↔ All Tail bytes.now }
{
    bytes.iter().all(|b| matches!(b, 0x80..=0xBF))
}

// Whether the bytes are a first byte from `lo` to `hi` and tail bytes.
fn is_char(bytes: &[u8], lo: u8, hi: u8) -> bool
    ensures { IsTrue result ↔ IsChar lo hi bytes.now }
{
    match bytes {
        [first, tails @ ..] => (lo..=hi).contains(first) && are_tails(tails),
        [] => false,
    }
}

// Passes characters of N bytes from i on, as long as their first byte is from `lo` to `hi`, which allows all tail bytes: the clause `passes` asks for that.
// Kept: apart from `pass_words`, which also looks at the last eight bytes again. `lo` and `hi` are two numbers, for the clause `passes` speaks of both.
fn pass_chars<const N: usize>(s: &[u8], i: usize, lo: u8, hi: u8) -> usize
    requires within { i ≤ length s.now }
    requires size { (0 < N) × (N < 2 ^ 63) }
    requires passes { (k : ℕ) → k + N ≤ length s.now → IsChar lo hi (take N (drop k s.now)) → Passed s.now k (k + N) }
    ensures { Passed s.now i result }
{
    let mut k = i;
    while let Some(bytes) = s[k..].first_chunk::<N>() {
        if !is_char(bytes, lo, hi) {
            break;
        }
        k += N;
    }
    k
}

// Whether `s` is text.
pub fn is_text(s: &[u8]) -> bool
    ensures { result ≡ is_text s.now }
{
    // Many names have an empty second part.
    if s.is_empty() {
        return true;
    }
    let mut i = pass_ascii(s, 0);
    while i < s.len() {
        // Most characters that are not ASCII have two or three bytes; the rest are taken one by one.
        let twos = pass_chars::<2>(s, i, 0xC2, 0xDF);
        let j = pass_chars::<3>(s, twos, 0xE1, 0xEC);
        if i < j {
            i = pass_ascii(s, j);
        } else {
            let Some(k) = utf8_char::char_end(s, i) else {
                return false;
            };
            i = pass_ascii(s, k);
        }
    }
    true
}
