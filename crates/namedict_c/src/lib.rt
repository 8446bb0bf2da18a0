// The exported entries, for C and Rust: each is the entry of the same name, with the same contract. include/namedict.h declares them.
// Kept: each entry stands here and in `namedict`. For the C interface an export has to be in a static library, and no crate may use one, so the programs call
// `namedict`.
#![tactic(auto)]

ghost use Rattle.std.specs.Prelude.{◌≡◌, length};
ghost use Rattle.utf8.specs.Text.{is_text};
ghost use Rattle.ranked_pair_iri_dv_dict.specs.Split.{head_of, length_of};
ghost use Rattle.ranked_pair_dictionary.specs.FrequentId.{write_fid_answer, write_fid_buffer, read_fid_answer};
ghost use Rattle.string_dv_dict.specs.Answers.{pack_answer, pack_buffer};
ghost use Rattle.string_dv_dict_unpack.specs.Answers.{unpack_answer, unpack_buffer};
ghost use Rattle.model.specs.Names.{entered};
ghost use Rattle.leaf_numbers.specs.Numbers.{yes_no, written_numbers, value_numbers, unpacked_numbers};
ghost use Rattle.returned.specs.Returned.{OpenReturned, AddReturned, FindReturned, ReadReturned, CountReturned};

use leaf_numbers::{NamedictUnpacked, NamedictValue, NamedictWritten};
use numbers::{NamedictCounted, NamedictName, NamedictNumbered};

// ---- the leaf rules

// 1 if the bytes are text, else 0.
#[unsafe(no_mangle)]
pub extern "C" fn namedict_is_text(bytes: &[u8]) -> u64
    ensures value { result ≡ yes_no (is_text bytes.now) }
    ensures kept { bytes.exit.now ≡ bytes.entry.now }
{
    namedict::namedict_is_text(bytes)
}

// The length of an IRI's head, 0 where it has none.
#[unsafe(no_mangle)]
pub extern "C" fn namedict_split_iri(iri: &[u8]) -> u64
    ensures value { result ≡ length_of (head_of iri.now) }
    ensures kept { iri.exit.now ≡ iri.entry.now }
{
    namedict::namedict_split_iri(iri)
}

// Writes a frequent id at the buffer's start.
#[unsafe(no_mangle)]
pub extern "C" fn namedict_write_fid(value: u64, buffer: &mut [u8]) -> NamedictWritten
    ensures { (result ≡ written_numbers (write_fid_answer value (length buffer.old))) × (buffer.new ≡ write_fid_buffer value buffer.old) }
{
    namedict::namedict_write_fid(value, buffer)
}

// Reads the frequent id in front of the bytes.
#[unsafe(no_mangle)]
pub extern "C" fn namedict_read_fid(bytes: &[u8]) -> NamedictValue
    ensures value { result ≡ value_numbers (read_fid_answer bytes.now) }
    ensures kept { bytes.exit.now ≡ bytes.entry.now }
{
    namedict::namedict_read_fid(bytes)
}

// Packs a text and its tag at the buffer's start.
#[unsafe(no_mangle)]
pub extern "C" fn namedict_pack(text: &[u8], tag: &[u8], buffer: &mut [u8]) -> NamedictWritten
    ensures value { (result ≡ written_numbers (pack_answer text.now tag.now (length buffer.old))) × (buffer.new ≡ pack_buffer text.now tag.now buffer.old) }
    ensures kept { (text.exit.now ≡ text.entry.now) × (tag.exit.now ≡ tag.entry.now) }
{
    namedict::namedict_pack(text, tag, buffer)
}

// Unpacks a form: the text at the buffer's start, the tag behind it.
#[unsafe(no_mangle)]
pub extern "C" fn namedict_unpack(packed: &[u8], buffer: &mut [u8]) -> NamedictUnpacked
    ensures value { (result ≡ unpacked_numbers (unpack_answer packed.now (length buffer.old))) × (buffer.new ≡ unpack_buffer packed.now buffer.old) }
    ensures kept { packed.exit.now ≡ packed.entry.now }
{
    namedict::namedict_unpack(packed, buffer)
}

// ---- the dictionary

// Opens a dictionary with no names in the memory lent: 0 done, 1 bad size, 2 short memory.
#[unsafe(no_mangle)]
pub extern "C" fn namedict_open(
    pages: &[u8],
    lists: &mut [u8],
    page_width: u64,
    page_count: u64,
    list_length: u64,
    block_width: u64,
    block_count: u64,
) -> u64
    ensures { OpenReturned (record { p = page_width; n = page_count; e = list_length; w = block_width; b = block_count }) pages.entry.now lists.old result pages.exit.now lists.new }
{
    namedict::namedict_open(
        pages,
        lists,
        page_width,
        page_count,
        list_length,
        block_width,
        block_count,
    )
}

// Gives a name its number: fresh, or known already.
#[unsafe(no_mangle)]
pub extern "C" fn namedict_add<'a>(
    pages: &mut [u8],
    lists: &mut [u8],
    kind: u64,
    first: &'a [u8],
    second: &'a [u8],
) -> NamedictNumbered
    ensures value { AddReturned pages.old lists.old (entered kind first.now second.now) result pages.new lists.new }
    ensures kept { (first.exit.now ≡ first.entry.now) × (second.exit.now ≡ second.entry.now) }
{
    namedict::namedict_add(pages, lists, kind, first, second)
}

// The number that a name has.
#[unsafe(no_mangle)]
pub extern "C" fn namedict_find<'a>(
    pages: &[u8],
    lists: &[u8],
    kind: u64,
    first: &'a [u8],
    second: &'a [u8],
) -> NamedictNumbered
    ensures value { FindReturned pages.entry.now lists.entry.now (entered kind first.now second.now) result pages.exit.now lists.exit.now }
    ensures kept { (first.exit.now ≡ first.entry.now) × (second.exit.now ≡ second.entry.now) }
{
    namedict::namedict_find(pages, lists, kind, first, second)
}

// The name that has a number: its parts at the buffer's start, one after the other.
#[unsafe(no_mangle)]
pub extern "C" fn namedict_read(
    pages: &[u8],
    lists: &[u8],
    number: u64,
    buffer: &mut [u8],
) -> NamedictName
    ensures { ReadReturned pages.entry.now lists.entry.now number buffer.old result buffer.new pages.exit.now lists.exit.now }
{
    namedict::namedict_read(pages, lists, number, buffer)
}

// How many names of a kind there are.
#[unsafe(no_mangle)]
pub extern "C" fn namedict_count(pages: &[u8], lists: &[u8], kind: u64) -> NamedictCounted
    ensures { CountReturned pages.entry.now lists.entry.now kind result pages.exit.now lists.exit.now }
{
    namedict::namedict_count(pages, lists, kind)
}
