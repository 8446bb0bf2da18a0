// The frequent id (Nemo's ranked_pair_dictionary.rs): the number of a head, written in one to four bytes in front of the rest.
#![tactic(auto)]

ghost use Rattle.std.specs.Prelude.{◌≡◌, ◌++◌, ◌^◌, ◌≤◌, ◌<◌, [], length, drop};
ghost use Rattle.ranked_pair_dictionary.specs.FrequentId.{further_bytes, fid, write_fid_answer, write_fid_buffer, read_fid_answer};

use refusals::Refusal;
use std::marker::Model;

// The value that was read, and how many bytes it took.
#[derive(Clone, Copy, Debug, PartialEq, Eq)]
pub struct FrequentId {
    pub value: usize,
    pub length: usize,
}

// How many bytes follow the first one.
#[tactic(auto, unfolding(crate::specs::FrequentId::further_bytes))]
pub fn further_bytes(value: usize) -> usize
    ensures { (result ≡ further_bytes value) × (result ≤ 3) }
{
    if value < 64 {
        return 0;
    }
    if value < 16384 {
        return 1;
    }
    if value < 4194304 {
        return 2;
    }
    3
}

// A frequent id by value, or no bytes: the first `len` of four bytes, with zeros behind them. A contract sees these first bytes.
// Kept: a length beside the bytes. There is no heap here, and of a lead with no bytes no byte could say its length.
#[derive(Clone, Copy)]
pub struct Lead {
    bytes: [u8; 4],
    len: usize,
}

impl Model for Lead {
    ghost use Rattle.std.specs.Prelude.{List, ℕ};

    ghost Value = { List ℕ };

    ghost use Rattle.ranked_pair_dictionary.specs.Lead.{lead_bytes, IsLead, lead_held, lead_held_back};

    ghost view = { lead_bytes };

    ghost invariant = { IsLead };

    ghost inverse = { lead_held };

    ghost inverse_ok = { lead_held_back };
}

impl Lead {
    pub fn empty() -> Lead
        ensures { result ≡ [] }
    {
        Lead {
            bytes: [0; 4],
            len: 0,
        }
    }

    pub fn as_slice(&self) -> &[u8]
        ensures { result.now ≡ self.now }
    {
        &self.bytes[..self.len]
    }
}

// The frequent id of a number that has one.
pub fn lead_of(value: usize) -> Lead
    requires { value < 2 ^ 30 }
    ensures { result ≡ fid value }
{
    let further = further_bytes(value);
    // The number of further bytes in the two top bits, and the value right behind them.
    let word = (further << 30) + (value << (24 - 8 * further));
    Lead {
        bytes: (word as u32).to_be_bytes(),
        len: further + 1,
    }
}

// Writes the form at the buffer's start, and gives its length.
// Kept: a loop over the digits. Tried: through `Part::write` of the lead, or with a copy of it, the archive needs memcpy from the program that links it. As it
// stands, it needs memset alone.
fn put_frequent_id(value: usize, buffer: &mut [u8]) -> usize
    requires { (value < 2 ^ 30) × (length (fid value) ≤ length buffer.old) }
    ensures { (result ≡ length (fid value)) × (buffer.new ≡ fid value ++ drop (length (fid value)) buffer.old) }
{
    let further = further_bytes(value);
    // The last byte first; `high` is what is left to write.
    let mut high = value;
    for done in 0..further {
        buffer[further - done] = (high % 256) as u8;
        high /= 256;
    }
    buffer[0] = (64 * further + high) as u8;
    further + 1
}

// Every refusal is decided before a byte is written.
#[tactic(auto, unfolding(crate::specs::FrequentId::write_refusal, crate::specs::FrequentId::write_fid_answer, crate::specs::FrequentId::write_fid_buffer))]
pub fn write_frequent_id(value: usize, buffer: &mut [u8]) -> Result<usize, Refusal>
    ensures { (result ≡ write_fid_answer value (length buffer.old)) × (buffer.new ≡ write_fid_buffer value buffer.old) }
{
    if 1073741824 <= value {
        return Err(Refusal::HighNumber);
    }
    if buffer.len() <= further_bytes(value) {
        return Err(Refusal::ShortBuffer);
    }
    Ok(put_frequent_id(value, buffer))
}

// The value and the length of the frequent id in front; what follows it is not looked at.
#[tactic(auto, unfolding(crate::specs::FrequentId::read_further, crate::specs::FrequentId::read_fid_answer))]
pub fn read_frequent_id(bytes: &[u8]) -> Result<FrequentId, Refusal>
    ensures { result ≡ read_fid_answer bytes.now }
{
    if bytes.len() == 0 {
        return Err(Refusal::CutForm);
    }
    let first = usize::from(bytes[0]);
    let further = first / 64;
    if bytes.len() <= further {
        return Err(Refusal::CutForm);
    }
    let length = further + 1;
    let mut value = first % 64;
    for byte in &bytes[1..length] {
        value = value * 256 + usize::from(*byte);
    }
    Ok(FrequentId { value, length })
}
