// Where a word ends, what is behind it, and the number in front of a text.
#![tactic(auto)]

ghost use Rattle.std.specs.Prelude.{◌≡◌, ◌≢◌, ◌+◌, ◌-◌, ◌*◌, ◌^◌, ◌<◌, ◌≤◌, min, length, slice_index, take, drop, IfSome};
ghost use Rattle.std.specs.List.{All};
ghost use Rattle.lines.specs.Digits.{digit_value, number_in};

// Where the first mark stands, from i on; the length if none is there.
// Kept: an index beside the slice, here and below: `behind` is asked at the end that `end_of` gave. A wrong program that is tried here starts the search elsewhere.
pub fn end_of(s: &[u8], i: usize, mark: u8) -> usize
    requires { i ≤ length s.now }
    ensures within { (i ≤ result) × (result ≤ length s.now) }
    ensures before { All (λ b. b ≢ mark) (take (result - i) (drop i s.now)) }
    ensures found { result < length s.now → slice_index s.now result ≡ mark }
{
    let rest = &s[i..];
    i + rest.iter().position(|b| *b == mark).unwrap_or(rest.len())
}

// The position behind the byte at i, if there is one; else i.
pub fn behind(s: &[u8], i: usize) -> usize
    requires { i ≤ length s.now }
    ensures within { (i ≤ result) × (result ≤ length s.now) }
    ensures value { result ≡ min (i + 1) (length s.now) }
{
    (i + 1).min(s.len())
}

// A digit's value, if it is below the base.
// Kept: std's `to_digit` is no plainer here: it takes A to Z too, at which a number ends here.
#[tactic(auto, using(crate::proofs::EachByte::decimal, crate::proofs::EachByte::letter, crate::proofs::EachByte::before, crate::proofs::EachByte::between, crate::proofs::EachByte::beyond))]
pub fn digit<const BASE: u8>(b: u8) -> Option<u8>
    ensures value { result ≡ digit_value BASE b }
    ensures below { IfSome result (λ d. d < BASE) }
{
    let value = match b {
        b'0'..=b'9' => b - b'0',
        b'a'..=b'z' => b - b'a' + 10,
        _ => return None,
    };
    (value < BASE).then_some(value)
}

// The number in front of a text, and what is behind its digits. A digit is taken only while the number is below ROOM.
// Kept: a loop. std's `from_str_radix` takes a plus and A to Z too, and refuses a number with anything behind it or with too many digits.
// Kept: the room is bounded here. A const parameter has no type that could say it.
pub fn digits<const BASE: u8, const ROOM: u64>(text: &[u8]) -> (u64, &[u8])
    requires room { BASE * ROOM ≤ 2 ^ 64 }
    ensures value { (result.0, result.1.now) ≡ number_in BASE ROOM 0 text.now }
    ensures behind { length result.1.now ≤ length text.now }
{
    let mut value = 0;
    let mut rest = text;
    while let [b, behind @ ..] = rest
        && value < ROOM
        && let Some(d) = digit::<BASE>(*b)
    {
        value = value * u64::from(BASE) + u64::from(d);
        rest = behind;
    }
    (value, rest)
}
