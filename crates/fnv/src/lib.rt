// FNV-1a of 32 bits. The hash decides where the search for a stored byte string starts.
#![tactic(auto)]

ghost use Rattle.std.specs.Prelude.{◌≡◌, ◌*◌, ◌%◌, ◌^◌};
ghost use Rattle.fnv.specs.Fnv.{fnv_step, fnv_from, fnv_of, bits_from};

// The hash of no bytes.
pub const START: u32 = 2166136261;

// The number by which each step multiplies.
const PRIME: u32 = 16777619;

// The product modulo 2^32. Document 01 names this helper.
pub fn wrapping_mul(a: u32, b: u32) -> u32
    ensures { result ≡ a * b % 2 ^ 32 }
{
    a.wrapping_mul(b)
}

// Extends the hash h by one byte.
pub fn fnv_step(h: u32, b: u8) -> u32
    ensures { result ≡ fnv_step h b }
{
    wrapping_mul(h ^ u32::from(b), PRIME)
}

// A hash, and the bitwise or of the bytes. If `bits` is below 0x80, every byte is ASCII, so the bytes are text.
#[derive(Clone, Copy)]
pub struct Scanned {
    pub h: u32,
    pub bits: u8,
}

// Extends the hash `start` and the bits by the bytes of s. Each step of the hash waits for the one before, so the bits cost no time.
pub fn scan(start: u32, bits: u8, s: &[u8]) -> Scanned
    ensures { (result.h ≡ fnv_from start s.now) × (result.bits ≡ bits_from bits s.now) }
{
    let mut h = start;
    let mut seen = bits;
    for &b in s {
        h = fnv_step(h, b);
        seen |= b;
    }
    Scanned { h, bits: seen }
}

// Extends the hash `start` by the bytes of s.
pub fn fnv_from(start: u32, s: &[u8]) -> u32
    ensures { result ≡ fnv_from start s.now }
{
    scan(start, 0, s).h
}

// The hash of a byte string.
pub fn fnv(s: &[u8]) -> u32
    ensures { result ≡ fnv_of s.now }
{
    fnv_from(START, s)
}
