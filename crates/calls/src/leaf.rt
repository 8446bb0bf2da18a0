// The leaf rules. `Rule::call` calls one and prints it with its answer, on one line.
use crate::show;
use crate::show::{Buffer, Part};
use leaf_numbers::{NamedictUnpacked, NamedictValue, NamedictWritten};
use std::fmt::{Display, Formatter};
use std::io::Write;
use std::{fmt, io};

// Kept: a type for each answer, here and below. `Display` has to stand with one of its two types, and each answer of the C interface has other fields.
#[derive(Clone, Copy)]
struct Value(NamedictValue);

impl Display for Value {
    fn fmt<W: fmt::Write>(&self, f: &mut Formatter<W>) -> fmt::Result {
        let NamedictValue {
            refusal,
            value,
            length,
        } = self.0;
        let answer = format_args!(" value {value} length {length}");
        show::answered(f, refusal, &[value, length], answer)
    }
}

#[derive(Clone, Copy)]
struct Written(NamedictWritten);

impl Display for Written {
    fn fmt<W: fmt::Write>(&self, f: &mut Formatter<W>) -> fmt::Result {
        let NamedictWritten { refusal, length } = self.0;
        show::answered(f, refusal, &[length], format_args!(" length {length}"))
    }
}

#[derive(Clone, Copy)]
struct Unpacked(NamedictUnpacked);

impl Display for Unpacked {
    fn fmt<W: fmt::Write>(&self, f: &mut Formatter<W>) -> fmt::Result {
        let NamedictUnpacked {
            refusal,
            text_len,
            tag_len,
        } = self.0;
        let answer = format_args!(" lengths {text_len} {tag_len}");
        show::answered(f, refusal, &[text_len, tag_len], answer)
    }
}

// Prints the answer of a rule that takes one part.
fn of_part<W: Write, A: Display + Drop>(
    out: &mut W,
    rule: &str,
    part: &[u8],
    answer: A,
) -> io::Result<()> {
    writeln!(out, "{rule}{}: {answer}", Part(part))
}

// A leaf rule.
#[derive(Clone, Copy)]
pub enum Rule {
    IsText,
    SplitIri,
    // No exported rule: the hash with which the search starts.
    Hash,
    ReadFid,
    Filling(Filling),
}

// A leaf rule that writes into a buffer.
#[derive(Clone, Copy)]
pub enum Filling {
    WriteFid,
    Pack,
    Unpack,
}

impl Rule {
    // The rule that the first character of a line says.
    // Kept: an Option, and no error type: nothing is told but that it is none. The caller tries the next table.
    pub fn named(character: u8) -> Option<Rule> {
        Some(match character {
            b'T' => Rule::IsText,
            b'S' => Rule::SplitIri,
            b'H' => Rule::Hash,
            b'R' => Rule::ReadFid,
            b'W' => Rule::Filling(Filling::WriteFid),
            b'P' => Rule::Filling(Filling::Pack),
            b'U' => Rule::Filling(Filling::Unpack),
            _ => return None,
        })
    }

    // Calls the rule with what it needs of these.
    // Kept: a match. Each case takes another part of the words, so closures or a trait would have the same bodies.
    pub fn call<W: Write>(
        self,
        out: &mut W,
        value: u64,
        first: &[u8],
        second: &[u8],
        buffer: &mut [u8],
    ) -> io::Result<()> {
        match self {
            Rule::IsText => of_part(out, "is_text", first, namedict::namedict_is_text(first)),
            Rule::SplitIri => of_part(out, "split_iri", first, namedict::namedict_split_iri(first)),
            Rule::Hash => of_part(out, "fnv", first, format_args!("{:08x}", fnv::fnv(first))),
            Rule::ReadFid => {
                let answer = Value(namedict::namedict_read_fid(first));
                writeln!(out, "read_fid{}:{answer}", Buffer(first))
            }
            Rule::Filling(rule) => rule.call(out, value, first, second, buffer),
        }
    }
}

impl Filling {
    fn call<W: Write>(
        self,
        out: &mut W,
        value: u64,
        first: &[u8],
        second: &[u8],
        buffer: &mut [u8],
    ) -> io::Result<()> {
        let part = Part(first);
        match self {
            Filling::WriteFid => {
                let answer = Written(namedict::namedict_write_fid(value, buffer));
                show::with_buffer(out, format_args!("write_fid {value}"), answer, buffer)
            }
            Filling::Pack => {
                let second_part = Part(second);
                let answer = Written(namedict::namedict_pack(first, second, buffer));
                show::with_buffer(out, format_args!("pack{part}{second_part}"), answer, buffer)
            }
            Filling::Unpack => {
                let answer = Unpacked(namedict::namedict_unpack(first, buffer));
                show::with_buffer(out, format_args!("unpack{part}"), answer, buffer)
            }
        }
    }
}
