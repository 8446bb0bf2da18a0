// The parts of a line: a decimal number, or a name. A name is its kind, a space, its first part and, behind a tab, its second part.
// Kept: a type of its own. It borrows parts of the line, as a name of `replay` does: a common type for the two would need one more crate. A name of `calls`
// owns its bytes, and the library's own holds a `Kind`: here any number may come, as in the C interface.
#[derive(Clone, Copy)]
pub struct Name<'a> {
    pub kind: u64,
    pub first: &'a [u8],
    pub second: &'a [u8],
}

// A number below this has room for one more digit.
const ROOM: u64 = 1000000000000000000;

// The number at the front of a line, and what is behind it. A digit is taken only while the number is below `ROOM`.
fn number(s: &[u8]) -> Option<(u64, &[u8])> {
    let (value, behind) = lines::digits::<10, ROOM>(s);
    (behind.len() < s.len()).then_some((value, behind))
}

// The number that a whole line is.
pub fn whole_number(s: &[u8]) -> Option<u64> {
    match number(s)? {
        (value, []) => Some(value),
        _ => None,
    }
}

// A number and a space, and what is behind them.
pub fn numbered(s: &[u8]) -> Option<(u64, &[u8])> {
    let (value, behind) = number(s)?;
    Some((value, behind.strip_prefix(b" ")?))
}

// The name that a line is.
// Kept: an Option, and no TryFrom: nothing is told but that it is none.
pub fn name_of(s: &[u8]) -> Option<Name<'_>> {
    let (kind, parts) = numbered(s)?;
    let mut parts = parts.splitn(2, |b| *b == b'\t');
    Some(Name {
        kind,
        first: parts.next().unwrap_or(b""),
        second: parts.next().unwrap_or(b""),
    })
}
