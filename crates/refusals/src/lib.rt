// Document 01's table of refusals: each refusal's number, and its words. It is the error of every answer. Only this crate numbers the refusals.
#![tactic(auto)]

ghost use Rattle.std.specs.Prelude.{◌≡◌, Some};
ghost use Rattle.refusals.specs.Numbers.{refusal_number, refusal_by};
ghost use Rattle.refusals.specs.Words.{refusal_words};

use std::fmt;

#[derive(Clone, Copy, Debug, PartialEq, Eq)]
pub enum Refusal {
    BadSize = 1,
    ShortMemory = 2,
    Unopened = 3,
    BadKind = 4,
    TooLong = 5,
    NotText = 6,
    NoTag = 7,
    ListFull = 8,
    NoPage = 9,
    NoBlock = 10,
    ShortBuffer = 11,
    HighNumber = 12,
    CutForm = 13,
}

impl From<Refusal> for u64 {
    ghost from_gives = { λ why n. n ≡ refusal_number why };

    fn from(why: Refusal) -> u64 {
        why as u64
    }
}

// A number that is no refusal's.
#[derive(Clone, Copy, Debug, PartialEq, Eq)]
pub struct UnknownRefusal(pub u64);

impl TryFrom<u64> for Refusal {
    type Error = UnknownRefusal;

    ghost try_from_gives = { λ number r. r ≡ refusal_by number };

    fn try_from(number: u64) -> Result<Refusal, UnknownRefusal> {
        match number {
            1 => Ok(Refusal::BadSize),
            2 => Ok(Refusal::ShortMemory),
            3 => Ok(Refusal::Unopened),
            4 => Ok(Refusal::BadKind),
            5 => Ok(Refusal::TooLong),
            6 => Ok(Refusal::NotText),
            7 => Ok(Refusal::NoTag),
            8 => Ok(Refusal::ListFull),
            9 => Ok(Refusal::NoPage),
            10 => Ok(Refusal::NoBlock),
            11 => Ok(Refusal::ShortBuffer),
            12 => Ok(Refusal::HighNumber),
            13 => Ok(Refusal::CutForm),
            _ => Err(UnknownRefusal(number)),
        }
    }
}

impl fmt::Display for Refusal {
    ghost output = { λ why. Some (refusal_words why) };

    fn fmt<W: fmt::Write>(&self, f: &mut fmt::Formatter<W>) -> fmt::Result {
        f.write_str(match self {
            Refusal::BadSize => "bad size",
            Refusal::ShortMemory => "short memory",
            Refusal::Unopened => "unopened",
            Refusal::BadKind => "bad kind",
            Refusal::TooLong => "too long",
            Refusal::NotText => "not text",
            Refusal::NoTag => "no tag",
            Refusal::ListFull => "list full",
            Refusal::NoPage => "no page",
            Refusal::NoBlock => "no block",
            Refusal::ShortBuffer => "short buffer",
            Refusal::HighNumber => "high number",
            Refusal::CutForm => "cut form",
        })
    }
}
