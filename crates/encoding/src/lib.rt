// A tag as it is stored in front of its text, one byte at a time: which bytes are stored for each, and how these are measured, written, hashed and compared.
#![tactic(auto)]

ghost use Rattle.std.specs.Prelude.{◌≡◌, ◌+◌, ◌≤◌, length, take, drop};
ghost use Rattle.std.proofs.lemmas.List.Edits.{sets};
ghost use Rattle.fnv.specs.Fnv.{fnv_from};
ghost use Rattle.slices.specs.Bytes.{same_bytes};
ghost use Rattle.encoding.specs.Encoding.{form_of, first_byte, encoded_byte, encoded_end, stored_bytes};

// The most bytes of a tag that is stored with its length in front.
pub const SHORT: usize = 127;

// How the bytes of a tag are stored. `encode` and `end` follow it.
// Kept: an enum, here and in `parts::Mode`, and no trait with a type for each. The form follows from the tag's length, and the mode from the kind: both are known at run time only.
#[derive(Clone, Copy)]
pub enum Form {
    // As they are, behind a byte that says how many.
    Short,
    // Escaped and closed by '>', since the byte in front does not say the length.
    Long,
}

// What is stored for one byte of a tag, or behind its last.
// Kept: an enum of its own. It has three cases, and an array with a length is no plainer for two bytes at the most.
// Kept: a position beside the slice, here and in `parts`. A byte of a tag is stored as one byte or two. Without a position each step would hand back what is left of
// the slice, which for one that is lent for writing takes a promise of its own on what comes back.
#[derive(Clone, Copy)]
pub enum Stored {
    Nothing,
    One(u8),
    Two(u8, u8),
}

impl Form {
    // The only test of the length of a tag that is to be stored.
    pub fn of(tag: &[u8]) -> Form
        ensures { result ≡ form_of tag.now }
    {
        if tag.len() > SHORT {
            Form::Long
        } else {
            Form::Short
        }
    }

    // How a byte of a tag is stored. Only this function makes the escapes.
    #[tactic(auto, unfolding(crate::specs::Encoding::encoded_byte, crate::specs::Encoding::escape))]
    pub fn encode(self, b: u8) -> Stored
        ensures { stored_bytes result ≡ encoded_byte self b }
    {
        match self {
            Form::Short => Stored::One(b),
            Form::Long => match b {
                b'\\' => Stored::Two(b'\\', b'\\'),
                b'>' => Stored::Two(b'\\', b'a'),
                _ => Stored::One(b),
            },
        }
    }

    // What is stored behind the last byte.
    pub fn end(self) -> Stored
        ensures { stored_bytes result ≡ encoded_end self }
    {
        match self {
            Form::Short => Stored::Nothing,
            Form::Long => Stored::One(b'>'),
        }
    }
}

// The byte in front of a tag.
pub fn first_byte(tag: &[u8]) -> u8
    ensures { result ≡ first_byte tag.now }
{
    match Form::of(tag) {
        Form::Short => tag.len() as u8,
        Form::Long => 0,
    }
}

impl Stored {
    pub fn width(self) -> usize
        ensures { result ≡ length (stored_bytes self) }
    {
        match self {
            Stored::Nothing => 0,
            Stored::One(_) => 1,
            Stored::Two(_, _) => 2,
        }
    }

    // Stores the bytes at `at`, and gives the position past them.
    pub fn put(self, dst: &mut [u8], at: usize) -> usize
        requires { at + length (stored_bytes self) ≤ length dst.old }
        ensures { (result ≡ at + length (stored_bytes self)) × (dst.new ≡ sets dst.old at (stored_bytes self)) }
    {
        match self {
            Stored::Nothing => at,
            Stored::One(a) => {
                dst[at] = a;
                at + 1
            }
            Stored::Two(a, b) => {
                dst[at] = a;
                dst[at + 1] = b;
                at + 2
            }
        }
    }

    // Extends the hash h by the bytes.
    #[tactic(auto, unfolding(fnv::specs::Fnv::fnv_from))]
    pub fn hash_on(self, h: u32) -> u32
        ensures { result ≡ fnv_from h (stored_bytes self) }
    {
        match self {
            Stored::Nothing => h,
            Stored::One(a) => fnv::fnv_step(h, a),
            Stored::Two(a, b) => fnv::fnv_step(fnv::fnv_step(h, a), b),
        }
    }

    // Whether the bytes stand at `at`.
    pub fn stands_at(self, stored: &[u8], at: usize) -> bool
        requires { at + length (stored_bytes self) ≤ length stored.now }
        ensures { result ≡ same_bytes (stored_bytes self) (take (length (stored_bytes self)) (drop at stored.now)) }
    {
        match self {
            Stored::Nothing => true,
            Stored::One(a) => a == stored[at],
            Stored::Two(a, b) => a == stored[at] && b == stored[at + 1],
        }
    }
}
