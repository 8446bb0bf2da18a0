// What the exported leaf rules return: structs of numbers, and the numbers of each answer. include/namedict.h declares the structs.
#![tactic(auto)]

ghost use Rattle.std.specs.Prelude.{◌≡◌};
ghost use Rattle.ranked_pair_iri_dv_dict.specs.Split.{length_of};
ghost use Rattle.leaf_numbers.specs.Numbers.{written_numbers, value_numbers, unpacked_numbers};

use ranked_pair_dictionary::FrequentId;
use refusals::Refusal;
use string_dv_dict_unpack::Lengths;

// What packing and writing a frequent id return.
// Kept: the C interface returns structs of numbers, here and below.
#[repr(C)]
#[derive(Clone, Copy)]
pub struct NamedictWritten {
    pub refusal: u64,
    pub length: u64,
}

// What reading a frequent id returns.
#[repr(C)]
#[derive(Clone, Copy)]
pub struct NamedictValue {
    pub refusal: u64,
    pub value: u64,
    pub length: u64,
}

// What unpacking returns.
#[repr(C)]
#[derive(Clone, Copy)]
pub struct NamedictUnpacked {
    pub refusal: u64,
    pub text_len: u64,
    pub tag_len: u64,
}

// The length of a head, 0 for none.
// Kept: a function. `From` has to stand beside one of its two types, and both are std's.
pub fn head_number(answer: Option<usize>) -> u64
    ensures { result ≡ length_of answer }
{
    answer.unwrap_or(0) as u64
}

// Kept: three bodies of one shape here, and one in `numbers`. Each fills fields with other names, which are the C interface.
impl From<Result<usize, Refusal>> for NamedictWritten {
    ghost from_gives = { λ answer r. r ≡ written_numbers answer };

    fn from(answer: Result<usize, Refusal>) -> NamedictWritten {
        match answer {
            Ok(n) => NamedictWritten {
                refusal: 0,
                length: n as u64,
            },
            Err(why) => NamedictWritten {
                refusal: u64::from(why),
                length: 0,
            },
        }
    }
}

impl From<Result<FrequentId, Refusal>> for NamedictValue {
    ghost from_gives = { λ answer r. r ≡ value_numbers answer };

    fn from(answer: Result<FrequentId, Refusal>) -> NamedictValue {
        match answer {
            Ok(FrequentId { value, length }) => NamedictValue {
                refusal: 0,
                value: value as u64,
                length: length as u64,
            },
            Err(why) => NamedictValue {
                refusal: u64::from(why),
                value: 0,
                length: 0,
            },
        }
    }
}

impl From<Result<Lengths, Refusal>> for NamedictUnpacked {
    ghost from_gives = { λ answer r. r ≡ unpacked_numbers answer };

    fn from(answer: Result<Lengths, Refusal>) -> NamedictUnpacked {
        match answer {
            Ok(Lengths { text, tag }) => NamedictUnpacked {
                refusal: 0,
                text_len: text as u64,
                tag_len: tag as u64,
            },
            Err(why) => NamedictUnpacked {
                refusal: u64::from(why),
                text_len: 0,
                tag_len: 0,
            },
        }
    }
}
