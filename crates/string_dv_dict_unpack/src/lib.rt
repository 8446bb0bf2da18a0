// Packed tagged strings unpacked again: the parts that `string_dv_dict_split` finds are written (the second half of Nemo's string_dv_dict.rs).
#![tactic(auto)]

ghost use Rattle.std.specs.Prelude.{◌≡◌, false, ◌≤◌, ◌++◌, length, drop};
ghost use Rattle.string_dv_dict_split.specs.Forms.{unescape, unescaped};
ghost use Rattle.string_dv_dict_split.specs.Pieces.{piece_bytes};
ghost use Rattle.string_dv_dict_unpack.specs.Answers.{unpack_answer, unpack_buffer};

use layout::Sizes;
use parts::Part;
use refusals::Refusal;
use string_dv_dict_split::Piece;

// How many bytes each part has.
#[derive(Clone, Copy, Debug, PartialEq, Eq)]
pub struct Lengths {
    pub text: usize,
    pub tag: usize,
}

// The byte that is escaped as '\' and c.
fn unescape_byte(c: u8) -> u8
    ensures { result ≡ unescape c }
{
    if c == b'a' { b'>' } else { b'\\' }
}

// Undoes the escapes of a tag and writes it at the front of dst.
// Kept: `at` is counted, for an escape is two bytes of the tag and one of what is written. An iterator would carry `at` and `behind` as a state, and is no plainer.
#[tactic(auto, unfolding(string_dv_dict_split::specs::Forms::unescaped))]
fn write_unescaped(s: &[u8], dst: &mut [u8])
    requires { length (unescaped false s.now) ≤ length dst.old }
    ensures { dst.new ≡ unescaped false s.now ++ drop (length (unescaped false s.now)) dst.old }
{
    let mut at = 0;
    let mut behind = false;
    for c in s {
        if behind {
            dst[at] = unescape_byte(*c);
            at += 1;
            behind = false;
        } else if *c == b'\\' {
            behind = true;
        } else {
            dst[at] = *c;
            at += 1;
        }
    }
}

// Writes a piece at the front of dst; escapes are undone.
pub fn write_piece(piece: Piece<'_>, dst: &mut [u8])
    requires { length (piece_bytes piece) ≤ length dst.old }
    ensures { dst.new ≡ piece_bytes piece.entry ++ drop (length (piece_bytes piece.entry)) dst.old }
{
    match piece {
        Piece::Raw(s) => Part::raw(s).write(dst),
        Piece::Escaped(s) => write_unescaped(s, dst),
    }
}

// Unpacks a form: the text at the buffer's start, the tag behind it.
pub fn one_string_to_two(form: &[u8], buffer: &mut [u8]) -> Result<Lengths, Refusal>
    ensures { (result ≡ unpack_answer form.now (length buffer.old)) × (buffer.new ≡ unpack_buffer form.now buffer.old) }
{
    if Sizes::PACKED_LIMIT < form.len() {
        return Err(Refusal::TooLong);
    }
    let x = string_dv_dict_split::split_packed(form).ok_or(Refusal::CutForm)?;
    let text = x.text();
    let tag = x.tag_length();
    let m = text.len();
    if buffer.len() < m + tag {
        return Err(Refusal::ShortBuffer);
    }
    Part::raw(text).write(buffer);
    write_piece(x.tag(), &mut buffer[m..]);
    Ok(Lengths { text: m, tag })
}
