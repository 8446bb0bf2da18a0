// A part of a name as it is stored: a slice with a mode. Only this crate puts a tag together; `encoding` says what is stored for each byte.
#![tactic(auto)]

ghost use Rattle.std.specs.Prelude.{◌≡◌, ◌++◌, ◌^◌, ◌≤◌, ◌<◌, length, drop};
ghost use Rattle.std.proofs.lemmas.List.Edits.{sets};
ghost use Rattle.fnv.specs.Fnv.{fnv_from};
ghost use Rattle.slices.specs.Bytes.{same_bytes};
ghost use Rattle.encoding.specs.Encoding.{tag_bytes, encoded};
ghost use Rattle.parts.specs.declared.Mode.TheVariants.{Raw, Tag};
ghost use Rattle.parts.specs.Parts.{part_bytes};

use encoding::Form;

#[derive(Clone, Copy)]
pub enum Mode {
    Raw,
    // A tag in the form in which it stands before its text.
    Tag,
}

// A slice, and how it is stored.
// Kept: a mode beside the slice. The kind's row gives the mode, and an enum around the slice would be made of it by one more match.
#[derive(Clone, Copy)]
pub struct Part<'a> {
    pub mode: Mode,
    pub bytes: &'a [u8],
}

// Kept: a loop. With `copy_from_slice` the archive needs memmove from the program that links it. As it stands, it needs memset alone.
// Kept: its index. Over `dst.iter_mut().zip(s)` it is not provable: behind an adapter of `iter_mut` nothing is known of what was written.
fn write_raw(s: &[u8], dst: &mut [u8])
    requires { length s.now ≤ length dst.old }
    ensures { dst.new ≡ sets dst.old 0 s.now }
{
    for (i, b) in s.iter().enumerate() {
        dst[i] = *b;
    }
}

// What stands behind the byte in front of a tag is measured, written, hashed and compared by these four, each in a walk over the tag; comparing measures first.
// Kept: four walks. As one iterator over what is stored for each byte, a tag of 16 bytes took 90 instructions more to measure, and 25 more to hash.
// Kept: the form beside the tag. Where each of the four asked for it, a comparison took 13 instructions more.

fn measure_encoded(form: Form, tag: &[u8]) -> usize
    ensures { result ≡ length (encoded form tag.now) }
{
    let width: usize = tag.iter().map(|b| form.encode(*b).width()).sum();
    width + form.end().width()
}

fn write_encoded(form: Form, tag: &[u8], dst: &mut [u8])
    requires { length (encoded form tag.now) ≤ length dst.old }
    ensures { dst.new ≡ sets dst.old 0 (encoded form tag.now) }
{
    let mut at = 0;
    for b in tag {
        at = form.encode(*b).put(dst, at);
    }
    form.end().put(dst, at);
}

fn hash_encoded(start: u32, form: Form, tag: &[u8]) -> u32
    ensures { result ≡ fnv_from start (encoded form tag.now) }
{
    let h = tag.iter().fold(start, |h, b| form.encode(*b).hash_on(h));
    form.end().hash_on(h)
}

// Whether the bytes are the same.
// Kept: not `==` of two slices. That is a call, and with it a search needs 216 bytes of stack, with a loop 64. An add has to stay under 1 KiB.
fn same_raw(s: &[u8], stored: &[u8]) -> bool
    ensures { result ≡ same_bytes s.now stored.now }
{
    s.len() == stored.len() && s.iter().zip(stored).all(|(a, b)| *a == *b)
}

// Compares all of `stored`. The lengths are compared first, so no byte needs a test for the end.
fn same_encoded(form: Form, tag: &[u8], stored: &[u8]) -> bool
    ensures { result ≡ same_bytes (encoded form tag.now) stored.now }
{
    if stored.len() != measure_encoded(form, tag) {
        return false;
    }
    let mut at = 0;
    for b in tag {
        let piece = form.encode(*b);
        if !piece.stands_at(stored, at) {
            return false;
        }
        at += piece.width();
    }
    form.end().stands_at(stored, at)
}

impl<'a> Part<'a> {
    // A slice that is stored as it is.
    #[tactic(auto, unfolding(crate::specs::Parts::bytes_of))]
    #[inline(always)]
    pub fn raw(bytes: &'a [u8]) -> Part<'a>
        ensures mode { result.mode ≡ Raw }
        ensures bytes { result.bytes.now ≡ bytes.now }
        ensures stored { part_bytes result ≡ bytes.now }
    {
        Part {
            mode: Mode::Raw,
            bytes,
        }
    }

    // A tag.
    #[tactic(auto, unfolding(crate::specs::Parts::bytes_of))]
    #[inline(always)]
    pub fn tag(tag: &'a [u8]) -> Part<'a>
        ensures mode { result.mode ≡ Tag }
        ensures bytes { result.bytes.now ≡ tag.now }
        ensures stored { part_bytes result ≡ tag_bytes tag.now }
    {
        Part {
            mode: Mode::Tag,
            bytes: tag,
        }
    }

    // How many bytes are stored. Escaping at most doubles a tag and adds two; `requires` excludes overflow.
    // Kept: this is asked here and where a key is made or measured. A part does not hold it, since `Part::tag` takes any slice and would have to ask for it.
    #[tactic(auto, unfolding(crate::specs::Parts::bytes_of))]
    #[inline(always)]
    pub fn measure(self) -> usize
        requires { length (part_bytes self) < 2 ^ 64 }
        ensures { result ≡ length (part_bytes self.entry) }
    {
        let s = self.bytes;
        match self.mode {
            Mode::Raw => s.len(),
            Mode::Tag => 1 + measure_encoded(Form::of(s), s),
        }
    }

    // Writes the stored bytes at the front of dst. The bytes behind them stay.
    #[inline(always)]
    pub fn write(self, dst: &mut [u8])
        requires { length (part_bytes self) ≤ length dst.old }
        ensures { dst.new ≡ part_bytes self.entry ++ drop (length (part_bytes self.entry)) dst.old }
    {
        let s = self.bytes;
        match self.mode {
            Mode::Raw => write_raw(s, dst),
            Mode::Tag => {
                dst[0] = encoding::first_byte(s);
                write_encoded(Form::of(s), s, &mut dst[1..]);
            }
        }
    }

    // Extends the hash `start` by the stored bytes.
    #[tactic(auto, unfolding(crate::specs::Parts::bytes_of))]
    #[inline(always)]
    pub fn hash_on(self, start: u32) -> u32
        ensures { result ≡ fnv_from start (part_bytes self.entry) }
    {
        let s = self.bytes;
        match self.mode {
            Mode::Raw => fnv::fnv_from(start, s),
            Mode::Tag => {
                let h = fnv::fnv_step(start, encoding::first_byte(s));
                hash_encoded(h, Form::of(s), s)
            }
        }
    }

    // Whether the part is stored as the bytes `stored`.
    #[inline(always)]
    pub fn is_stored_as(self, stored: &[u8]) -> bool
        ensures { result ≡ same_bytes (part_bytes self.entry) stored.now }
    {
        let s = self.bytes;
        match self.mode {
            Mode::Raw => same_raw(s, stored),
            Mode::Tag => {
                stored.first() == Some(&encoding::first_byte(s))
                    && same_encoded(Form::of(s), s, &stored[1..])
            }
        }
    }
}
