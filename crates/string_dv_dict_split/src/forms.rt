// A form, and where its text and its tag lie in it.
#![tactic(auto)]

ghost use Rattle.std.specs.Prelude.{◌≡◌, Some};
ghost use Rattle.string_dv_dict_split.specs.Scans.{split_of};

use crate::Form;

// Bytes as they lie in a form: as they are, or escaped.
#[derive(Clone, Copy)]
pub enum Piece<'a> {
    Raw(&'a [u8]),
    Escaped(&'a [u8]),
}

// A form, and where its parts lie.
// Kept: numbers beside the slice. The definition of a split speaks of these numbers, and slices would need a clause each that they lie there.
#[derive(Clone, Copy)]
pub struct Split<'a> {
    pub form: Form,
    pub bytes: &'a [u8],
    pub ghost splits: { split_of bytes.now ≡ Some form },
}

impl<'a> Split<'a> {
    ghost use Rattle.std.specs.Prelude.{◌≡◌, length};
    ghost use Rattle.string_dv_dict_split.specs.Forms.{text_in, tag_in};
    ghost use Rattle.string_dv_dict_split.specs.Pieces.{piece_bytes, StandsIn};

    // The text stands behind the tag, up to the end.
    pub fn text(&self) -> &'a [u8]
        ensures { result.now ≡ text_in self.now.bytes.now }
    {
        match self.form {
            Form::Short { tag } => &self.bytes[tag + 1..],
            Form::Long { end, .. } => &self.bytes[end + 2..],
        }
    }

    // The tag, as it lies in the form.
    pub fn tag(&self) -> Piece<'a>
        ensures bytes { piece_bytes result ≡ tag_in self.now.bytes.now }
        ensures stands { StandsIn self.now.bytes.now result }
    {
        match self.form {
            Form::Short { tag } => Piece::Raw(&self.bytes[1..tag + 1]),
            Form::Long { end, .. } => Piece::Escaped(&self.bytes[1..end + 1]),
        }
    }

    // How many bytes the tag has. Escapes count once.
    pub fn tag_length(&self) -> usize
        ensures { result ≡ length (tag_in self.now.bytes.now) }
    {
        match self.form {
            Form::Short { tag } | Form::Long { tag, .. } => tag,
        }
    }
}
