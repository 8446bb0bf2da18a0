// Where the text and the tag lie in a packed tagged string, and whether packing makes such a form (from the second half of Nemo's string_dv_dict.rs).
#![tactic(auto)]

ghost use Rattle.std.specs.Prelude.{◌≡◌, ◌+◌, ◌^◌, ◌<◌, Some, IfSome};
ghost use Rattle.string_dv_dict_split.specs.Forms.{accepted};
ghost use Rattle.string_dv_dict_split.specs.Scans.{end_in, scan_step, scan_from, scanned, long_split, split_of, form_of};
ghost use Rattle.string_dv_dict_split.specs.Pieces.{formed};

pub mod forms;

use encoding::SHORT;
pub use forms::{Piece, Split};
use layout::Sizes;

// The bytes of an escaped tag so far: how many bytes of the tag they stand for. Escape: a '\' still needs its second byte.
#[derive(Clone, Copy, Debug, PartialEq, Eq)]
enum Scan {
    Whole(usize),
    Escape(usize),
}

// Where the parts of a packed form lie: the length of the tag, and in a long form also where the escaped tag ends, counted from behind the form's 0.
#[derive(Clone, Copy, Debug, PartialEq, Eq)]
pub enum Form {
    Short { tag: usize },
    Long { end: usize, tag: usize },
}

// Where the first '>' stands.
fn find_end(s: &[u8]) -> Option<usize>
    ensures { result ≡ end_in s.now }
{
    s.iter().position(|c| *c == b'>')
}

// One byte more. None: packing never writes these bytes.
fn scan_byte(state: Scan, c: u8) -> Option<Scan>
    requires { scanned state + 1 < 2 ^ 64 }
    ensures { result ≡ scan_step (Some state) c }
{
    match (state, c) {
        (Scan::Whole(_), b'>') => None,
        (Scan::Whole(n), b'\\') => Some(Scan::Escape(n)),
        (Scan::Whole(n), _) => Some(Scan::Whole(n + 1)),
        (Scan::Escape(n), b'\\' | b'a') => Some(Scan::Whole(n + 1)),
        (Scan::Escape(_), _) => None,
    }
}

#[tactic(auto, unfolding(crate::specs::Scans::scan_from))]
fn scan_tag(s: &[u8]) -> Option<Scan>
    ensures { result ≡ scan_from (Some (Scan.Whole 0)) s.now }
{
    let mut state = Scan::Whole(0);
    for c in s {
        state = scan_byte(state, *c)?;
    }
    Some(state)
}

// Splits a long form; s begins behind its 0.
fn split_long(s: &[u8]) -> Option<Form>
    ensures { result ≡ long_split s.now }
{
    let end = find_end(s)?;
    let Scan::Whole(tag) = scan_tag(&s[..end])? else {
        return None;
    };
    Some(Form::Long { end, tag })
}

// Where the parts of a form would lie, by its shape alone. It does not check that they are text, or that packing would choose this form.
#[tactic(auto, unfolding(crate::specs::Scans::split_of))]
pub fn split(bytes: &[u8]) -> Option<Split<'_>>
    ensures form { formed result ≡ split_of bytes.now }
    ensures bytes { IfSome result (λ x. x.bytes.now ≡ bytes.now) }
{
    let (first, rest) = bytes.split_first()?;
    let tag = usize::from(*first);
    if tag == 0 {
        let form = split_long(rest)?;
        return Some(Split { form, bytes });
    }
    if rest.len() < tag {
        return None;
    }
    Some(Split {
        form: Form::Short { tag },
        bytes,
    })
}

// Whether packing makes the form: its parts are a legal pair, and stored as packing stores them.
fn is_packed(x: &Split<'_>) -> bool
    ensures { result ≡ accepted x.now.bytes.now }
{
    let text = x.text();
    let n = x.tag_length();
    match x.tag() {
        Piece::Raw(tag) => n <= SHORT && string_dv_dict::check_pair(text, tag).is_ok(),
        // Escaping changes no character into another, so the tag is text exactly if its escaped form is.
        Piece::Escaped(escaped) => {
            SHORT < n
                && text.len() + n <= Sizes::NAME_LIMIT
                && utf8::is_text(text)
                && utf8::is_text(escaped)
        }
    }
}

// Where the parts of a packed form lie, if packing makes such a form.
pub fn split_packed(bytes: &[u8]) -> Option<Split<'_>>
    ensures form { formed result ≡ form_of bytes.now }
    ensures bytes { IfSome result (λ x. x.bytes.now ≡ bytes.now) }
{
    let x = split(bytes)?;
    if is_packed(&x) { Some(x) } else { None }
}
