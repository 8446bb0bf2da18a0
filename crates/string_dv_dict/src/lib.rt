// Tagged strings packed into one byte string (Nemo's string_dv_dict.rs). string_dv_dict_unpack has the way back.
#![tactic(auto)]

ghost use Rattle.std.specs.Prelude.{◌≡◌, length};
ghost use Rattle.string_dv_dict.specs.Packed.{pair_refusal};
ghost use Rattle.string_dv_dict.specs.Answers.{pack_answer, pack_buffer};
ghost use Rattle.refusals.specs.Checked.{checked_by};

use layout::Sizes;
use parts::Part;
use refusals::Refusal;

// Checks a text and a tag for refusals 5, 6 and 7, in this order.
// Kept: apart from the check of a name, which asks sizes for the limit and a table for the kind. A form that is packed has neither.
#[tactic(auto, unfolding(crate::specs::Packed::pair_refusal, layout::specs::Sizes::name_limit))]
pub fn check_pair(text: &[u8], tag: &[u8]) -> Result<(), Refusal>
    ensures { result ≡ checked_by (pair_refusal text.now tag.now) }
{
    if Sizes::NAME_LIMIT < text.len() + tag.len() {
        return Err(Refusal::TooLong);
    }
    if !utf8::is_text(text) {
        return Err(Refusal::NotText);
    }
    if !utf8::is_text(tag) {
        return Err(Refusal::NotText);
    }
    if tag.len() == 0 {
        return Err(Refusal::NoTag);
    }
    Ok(())
}

// Packs a text and its tag at the buffer's start.
pub fn two_strings_to_one(text: &[u8], tag: &[u8], buffer: &mut [u8]) -> Result<usize, Refusal>
    ensures { (result ≡ pack_answer text.now tag.now (length buffer.old)) × (buffer.new ≡ pack_buffer text.now tag.now buffer.old) }
{
    check_pair(text, tag)?;
    let front = Part::tag(tag);
    let m = front.measure();
    let n = m + text.len();
    if buffer.len() < n {
        return Err(Refusal::ShortBuffer);
    }
    front.write(buffer);
    Part::raw(text).write(&mut buffer[m..]);
    Ok(n)
}
