// A key: its bytes in two parts, how many they are, the places of its search, and its comparison with stored bytes.
#![tactic(auto)]

ghost use Rattle.std.specs.Prelude.{◌≡◌, ◌+◌, ◌%◌, ◌^◌, ◌≤◌, ◌<◌, ◌++◌, length, IfSome};
ghost use Rattle.fnv.specs.Fnv.{fnv_of};
ghost use Rattle.parts.specs.Parts.{part_bytes};
ghost use Rattle.layout.specs.Fields.{top_of};
ghost use Rattle.bytes_key.specs.Keys.{Agreeing, agreed};

use layout::{Dictionary, ENTRY_NUMBERS};
use parts::{Mode, Part};
use words::WORD;

// The bytes of a key: its front, and its rest behind it.
#[derive(Clone, Copy)]
pub struct Parts<'f, 'r> {
    pub front: Part<'f>,
    pub rest: Part<'r>,
}

// A key to search or to store: its dictionary, its hash and its bytes. The caller computes the hash, because it knows which parts the key has.
#[derive(Clone, Copy)]
pub struct Key<'f, 'r> {
    pub d: Dictionary,
    pub h: u32,
    pub parts: Parts<'f, 'r>,
    pub ghost hashed: { h ≡ fnv_of (part_bytes parts.front ++ part_bytes parts.rest) },
    pub ghost fits: { length (part_bytes parts.front ++ part_bytes parts.rest) < 2 ^ 64 },
}

impl<'f, 'r> Key<'f, 'r> {
    ghost use Rattle.std.specs.Prelude.{◌≡◌, ◌^◌, ◌<◌, ◌++◌, length};
    ghost use Rattle.fnv.specs.Fnv.{fnv_of};
    ghost use Rattle.parts.specs.Parts.{part_bytes};
    ghost use Rattle.bytes_key.specs.KeyBytes.{bytes_in};

    // The key of these bytes behind a front, which is stored in its own form.
    #[inline(always)]
    pub fn behind(d: Dictionary, h: u32, front: Part<'f>, rest: &'r [u8]) -> Key<'f, 'r>
        requires hashed { h ≡ fnv_of (part_bytes front ++ rest.now) }
        requires fits { length (part_bytes front ++ rest.now) < 2 ^ 64 }
        ensures { (result.d ≡ d) × (bytes_in result ≡ part_bytes front.entry ++ rest.now) }
    {
        let parts = Parts {
            front,
            rest: Part::raw(rest),
        };
        Key { d, h, parts }
    }
}

impl<'a> Key<'a, 'a> {
    ghost use Rattle.std.specs.Prelude.{◌≡◌};
    ghost use Rattle.fnv.specs.Fnv.{fnv_of};
    ghost use Rattle.bytes_key.specs.KeyBytes.{bytes_in};

    // The key of these bytes alone.
    #[inline(always)]
    pub fn whole(d: Dictionary, h: u32, bytes: &'a [u8]) -> Key<'a, 'a>
        requires { h ≡ fnv_of bytes.now }
        ensures { (result.d ≡ d) × (bytes_in result ≡ bytes.now) }
    {
        Key::behind(d, h, Part::raw(&bytes[..0]), bytes)
    }
}

impl Parts<'_, '_> {
    ghost use Rattle.std.specs.Prelude.{◌≡◌, ◌^◌, ◌<◌, length};
    ghost use Rattle.bytes_key.specs.KeyBytes.{stored};

    // How many bytes of a page they take.
    pub fn len(&self) -> usize
        requires { length (stored self.now) < 2 ^ 64 }
        ensures { result ≡ length (stored self.now) }
    {
        self.front.measure() + self.rest.measure()
    }
}

// The place where the search starts.
pub fn start(h: u32, m: usize) -> usize
    requires { 0 < m }
    ensures { result ≡ h % m }
{
    let h = h as usize;
    h % m
}

// The top bits of a hash, which an index place holds.
pub fn top_bits(h: u32) -> usize
    ensures { (result ≡ top_of h) × (result < 2048) }
{
    let h = h as usize;
    h / ENTRY_NUMBERS
}

// One place up, wrapping to 0.
pub fn up(j: usize, m: usize) -> usize
    requires { j < m }
    ensures { result ≡ (j + 1) % m }
{
    let k = j + 1;
    if k == m { 0 } else { k }
}

// A part whose stored bytes are counted.
#[derive(Clone, Copy)]
pub struct Measured<'a> {
    pub part: Part<'a>,
    pub len: usize,
    pub ghost measured: { len ≡ length (part_bytes part) },
}

// Compares more bytes of a rest with the last bytes of a stored key. The last `left` bytes are still to compare. Answers how many more agree: up to eight
// if the rest has eight, else all of them. None: they do not agree.
// Kept: how many are left, and not what is left. The last eight bytes may begin among those that were compared before, so all of the rest is needed.
fn agreeing(stored: &[u8], rest: &[u8], left: usize) -> Option<usize>
    requires { (0 < left) × (left ≤ length rest.now) × (length rest.now ≤ length stored.now) }
    ensures agreeing { Agreeing stored.now (length stored.now) rest.now left (agreed result) }
    ensures more { IfSome result (λ n. 0 < n) }
{
    let end = stored.len();
    let n = rest.len();
    if n < 8 {
        if !Part::raw(rest).is_stored_as(&stored[end - n..]) {
            return None;
        }
        return Some(left);
    }
    // The last eight may begin among bytes that were compared before.
    let from = left.max(8);
    if words::number_from::<WORD>(stored, end - from)
        != words::number_from::<WORD>(rest, n - from)
    {
        return None;
    }
    Some(left.min(8))
}

impl<'a> Measured<'a> {
    ghost use Rattle.std.specs.Prelude.{◌≡◌, ◌^◌, ◌≤◌, ◌<◌, length, IfSome};
    ghost use Rattle.parts.specs.Parts.{part_bytes};
    ghost use Rattle.bytes_key.specs.Keys.{front_is, Agreeing, agreed};

    pub fn new(part: Part<'a>) -> Measured<'a>
        requires { length (part_bytes part) < 2 ^ 64 }
        ensures { part_bytes result.part ≡ part_bytes part.entry }
    {
        let len = part.measure();
        Measured { part, len }
    }

    // Whether a stored key begins with the part and has `behind` bytes more.
    pub fn is_front(&self, stored: &[u8], behind: usize) -> bool
        ensures { result ≡ front_is stored.now (part_bytes self.now.part) behind }
    {
        let part = self.part;
        let n = self.len;
        if stored.len() < n {
            return false;
        }
        if stored.len() - n != behind {
            return false;
        }
        // Heads and plain strings have no front.
        if n == 0 {
            return true;
        }
        // Kept: a test of the mode. Most fronts are frequent ids, and with a known mode the compiler merges their comparison into the search: 39 instructions less.
        if let Mode::Raw = part.mode {
            return Part::raw(part.bytes).is_stored_as(&stored[..n]);
        }
        part.is_stored_as(&stored[..n])
    }

    // Compares more of the part with the last bytes of a stored key. A raw part is compared eight bytes at a time, any other one at once.
    // Kept: a test of the mode. Only a raw part lies as it is stored, so only its bytes can be compared eight at a time.
    pub fn agreeing(&self, stored: &[u8], left: usize) -> Option<usize>
        requires { (0 < left) × (left ≤ self.now.len) × (self.now.len ≤ length stored.now) }
        ensures agreeing { Agreeing stored.now (length stored.now) (part_bytes self.now.part) left (agreed result) }
        ensures more { IfSome result (λ n. 0 < n) }
    {
        let part = self.part;
        if let Mode::Raw = part.mode {
            return agreeing(stored, part.bytes, left);
        }
        if !part.is_stored_as(&stored[stored.len() - self.len..]) {
            return None;
        }
        Some(left)
    }
}
