// What the exported entries of the dictionary return: structs of numbers, and the numbers of each answer. include/namedict.h declares the structs. The leaf
// rules have theirs in leaf_numbers.
#![tactic(auto)]

ghost use Rattle.std.specs.Prelude.{◌≡◌};
ghost use Rattle.commit.specs.Answers.{added_by};
ghost use Rattle.dictionary_open.specs.Answers.{opened_by};
ghost use Rattle.dictionary_find.specs.Answers.{found_by};
ghost use Rattle.dictionary_read.specs.Answers.{told_by, counted_by};
ghost use Rattle.numbers.specs.Numbers.{open_number, refused_numbers, add_numbers, find_numbers, name_numbers, count_numbers};

use commit::Added;
use locate::pieces::Told;
use meta_dv_dict::GlobalId;
use refusals::Refusal;

// What add and find return. The word says which answer: 0 none, 1 fresh, 2 known.
// Kept: the C interface returns structs of numbers, here and below.
#[repr(C)]
#[derive(Clone, Copy, PartialEq, Eq)]
pub struct NamedictNumbered {
    pub refusal: u64,
    pub word: u64,
    pub number: u64,
}

// What read returns. The word is 4 for a name, 0 for none.
#[repr(C)]
#[derive(Clone, Copy, PartialEq, Eq)]
pub struct NamedictName {
    pub refusal: u64,
    pub word: u64,
    pub kind: u64,
    pub first_len: u64,
    pub second_len: u64,
}

// What count returns.
#[repr(C)]
#[derive(Clone, Copy, PartialEq, Eq)]
pub struct NamedictCounted {
    pub refusal: u64,
    pub count: u64,
}

// The values of `word`.
pub const NONE: u64 = 0;

pub const FRESH: u64 = 1;

pub const KNOWN: u64 = 2;

pub const NAME: u64 = 4;

// 0 for done.
// Kept: a function. `From` has to stand beside one of its two types, and both are std's: `Result` and `u64`.
pub fn open_number(answer: Result<(), Refusal>) -> u64
    ensures { result ≡ open_number (opened_by answer) }
{
    match answer {
        Ok(()) => 0,
        Err(why) => u64::from(why),
    }
}

fn numbered(word: u64, number: u64) -> NamedictNumbered
    ensures { result ≡ record { refusal = 0; word = word; number = number } }
{
    NamedictNumbered {
        refusal: 0,
        word,
        number,
    }
}

impl From<Refusal> for NamedictNumbered {
    ghost from_gives = { λ why r. r ≡ refused_numbers why };

    fn from(why: Refusal) -> NamedictNumbered {
        NamedictNumbered {
            refusal: u64::from(why),
            word: 0,
            number: 0,
        }
    }
}

impl From<Result<Added, Refusal>> for NamedictNumbered {
    ghost from_gives = { λ answer r. r ≡ add_numbers (added_by answer) };

    fn from(answer: Result<Added, Refusal>) -> NamedictNumbered {
        match answer {
            Ok(Added::Fresh(x)) => numbered(FRESH, x.0 as u64),
            Ok(Added::Known(x)) => numbered(KNOWN, x.0 as u64),
            Err(why) => NamedictNumbered::from(why),
        }
    }
}

impl From<Result<Option<GlobalId>, Refusal>> for NamedictNumbered {
    ghost from_gives = { λ answer r. r ≡ find_numbers (found_by answer) };

    fn from(answer: Result<Option<GlobalId>, Refusal>) -> NamedictNumbered {
        match answer {
            Ok(Some(x)) => numbered(KNOWN, x.0 as u64),
            Ok(None) => numbered(NONE, 0),
            Err(why) => NamedictNumbered::from(why),
        }
    }
}

impl From<Result<Option<Told>, Refusal>> for NamedictName {
    ghost from_gives = { λ answer r. r ≡ name_numbers (told_by answer) };

    fn from(answer: Result<Option<Told>, Refusal>) -> NamedictName {
        match answer {
            Ok(
                Some(
                    Told {
                        kind,
                        first,
                        second,
                    },
                ),
            ) => NamedictName {
                refusal: 0,
                word: NAME,
                kind: usize::from(kind) as u64,
                first_len: first as u64,
                second_len: second as u64,
            },
            Ok(None) => NamedictName {
                refusal: 0,
                word: NONE,
                kind: 0,
                first_len: 0,
                second_len: 0,
            },
            Err(why) => NamedictName {
                refusal: u64::from(why),
                word: 0,
                kind: 0,
                first_len: 0,
                second_len: 0,
            },
        }
    }
}

impl From<Result<usize, Refusal>> for NamedictCounted {
    ghost from_gives = { λ answer r. r ≡ count_numbers (counted_by answer) };

    fn from(answer: Result<usize, Refusal>) -> NamedictCounted {
        match answer {
            Ok(n) => NamedictCounted {
                refusal: 0,
                count: n as u64,
            },
            Err(why) => NamedictCounted {
                refusal: u64::from(why),
                count: 0,
            },
        }
    }
}
