// The entries: each calls the library and gives its answer's numbers. namedict_c exports them, and include/namedict.h declares them.
#![tactic(auto)]

ghost use Rattle.std.specs.Prelude.{◌≡◌, length};
ghost use Rattle.utf8.specs.Text.{is_text};
ghost use Rattle.ranked_pair_iri_dv_dict.specs.Split.{head_of, length_of};
ghost use Rattle.ranked_pair_dictionary.specs.FrequentId.{write_fid_answer, write_fid_buffer, read_fid_answer};
ghost use Rattle.string_dv_dict.specs.Answers.{pack_answer, pack_buffer};
ghost use Rattle.string_dv_dict_unpack.specs.Answers.{unpack_answer, unpack_buffer};
ghost use Rattle.model.specs.Names.{entered};
ghost use Rattle.leaf_numbers.specs.Numbers.{yes_no, written_numbers, value_numbers, unpacked_numbers};
ghost use Rattle.returned.specs.Returned.{OpenReturned, AddReturned, FindReturned, ReadReturned, CountReturned};

use leaf_numbers::{NamedictUnpacked, NamedictValue, NamedictWritten};
use meta_dv_dict::GlobalId;
use numbers::{NamedictCounted, NamedictName, NamedictNumbered};

// ---- the leaf rules

// 1 if the bytes are text, else 0.
pub fn namedict_is_text(bytes: &[u8]) -> u64
    ensures value { result ≡ yes_no (is_text bytes.now) }
    ensures kept { bytes.exit.now ≡ bytes.entry.now }
{
    u64::from(utf8::is_text(bytes))
}

// The length of an IRI's head, 0 where it has none.
pub fn namedict_split_iri(iri: &[u8]) -> u64
    ensures value { result ≡ length_of (head_of iri.now) }
    ensures kept { iri.exit.now ≡ iri.entry.now }
{
    leaf_numbers::head_number(ranked_pair_iri_dv_dict::rfind_hashslash_plus(iri))
}

// Writes a frequent id at the buffer's start.
pub fn namedict_write_fid(value: u64, buffer: &mut [u8]) -> NamedictWritten
    ensures { (result ≡ written_numbers (write_fid_answer value (length buffer.old))) × (buffer.new ≡ write_fid_buffer value buffer.old) }
{
    NamedictWritten::from(ranked_pair_dictionary::write_frequent_id(value as usize, buffer))
}

// Reads the frequent id in front of the bytes.
pub fn namedict_read_fid(bytes: &[u8]) -> NamedictValue
    ensures value { result ≡ value_numbers (read_fid_answer bytes.now) }
    ensures kept { bytes.exit.now ≡ bytes.entry.now }
{
    NamedictValue::from(ranked_pair_dictionary::read_frequent_id(bytes))
}

// Packs a text and its tag at the buffer's start.
pub fn namedict_pack(text: &[u8], tag: &[u8], buffer: &mut [u8]) -> NamedictWritten
    ensures value { (result ≡ written_numbers (pack_answer text.now tag.now (length buffer.old))) × (buffer.new ≡ pack_buffer text.now tag.now buffer.old) }
    ensures kept { (text.exit.now ≡ text.entry.now) × (tag.exit.now ≡ tag.entry.now) }
{
    NamedictWritten::from(string_dv_dict::two_strings_to_one(text, tag, buffer))
}

// Unpacks a form: the text at the buffer's start, the tag behind it.
pub fn namedict_unpack(packed: &[u8], buffer: &mut [u8]) -> NamedictUnpacked
    ensures value { (result ≡ unpacked_numbers (unpack_answer packed.now (length buffer.old))) × (buffer.new ≡ unpack_buffer packed.now buffer.old) }
    ensures kept { packed.exit.now ≡ packed.entry.now }
{
    NamedictUnpacked::from(string_dv_dict_unpack::one_string_to_two(packed, buffer))
}

// ---- the dictionary

// Opens a dictionary with no names in the memory lent: 0 done, 1 bad size, 2 short memory.
pub fn namedict_open(
    pages: &[u8],
    lists: &mut [u8],
    page_width: u64,
    page_count: u64,
    list_length: u64,
    block_width: u64,
    block_count: u64,
) -> u64
    ensures { OpenReturned (record { p = page_width; n = page_count; e = list_length; w = block_width; b = block_count }) pages.entry.now lists.old result pages.exit.now lists.new }
{
    let answer = dictionary_open::open(
        pages,
        lists,
        page_width as usize,
        page_count as usize,
        list_length as usize,
        block_width as usize,
        block_count as usize,
    );
    numbers::open_number(answer)
}

// Gives a name its number: fresh, or known already.
pub fn namedict_add<'a>(
    pages: &mut [u8],
    lists: &mut [u8],
    kind: u64,
    first: &'a [u8],
    second: &'a [u8],
) -> NamedictNumbered
    ensures value { AddReturned pages.old lists.old (entered kind first.now second.now) result pages.new lists.new }
    ensures kept { (first.exit.now ≡ first.entry.now) × (second.exit.now ≡ second.entry.now) }
{
    NamedictNumbered::from(dictionary::add(pages, lists, kind as usize, first, second))
}

// The number that a name has.
pub fn namedict_find<'a>(
    pages: &[u8],
    lists: &[u8],
    kind: u64,
    first: &'a [u8],
    second: &'a [u8],
) -> NamedictNumbered
    ensures value { FindReturned pages.entry.now lists.entry.now (entered kind first.now second.now) result pages.exit.now lists.exit.now }
    ensures kept { (first.exit.now ≡ first.entry.now) × (second.exit.now ≡ second.entry.now) }
{
    NamedictNumbered::from(dictionary_find::find(pages, lists, kind as usize, first, second))
}

// The name that has a number: its parts at the buffer's start, one after the other.
pub fn namedict_read(pages: &[u8], lists: &[u8], number: u64, buffer: &mut [u8]) -> NamedictName
    ensures { ReadReturned pages.entry.now lists.entry.now number buffer.old result buffer.new pages.exit.now lists.exit.now }
{
    NamedictName::from(dictionary_read::read(pages, lists, GlobalId(number as usize), buffer))
}

// How many names of a kind there are.
pub fn namedict_count(pages: &[u8], lists: &[u8], kind: u64) -> NamedictCounted
    ensures { CountReturned pages.entry.now lists.entry.now kind result pages.exit.now lists.exit.now }
{
    NamedictCounted::from(dictionary_read::count(pages, lists, kind as usize))
}
