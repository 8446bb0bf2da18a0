// Holds one numbering against another, the base, which is read before it. A line is a number, a space and a name; `fresh` or `known` may stand before it.
// The names of both are put into a dictionary whose numbers are below 65,536. For each name there is an entry.
use crate::input::Task;
use crate::line::Name;
use crate::names_in_memory::{Added, Blocks, Names};
use crate::report::{Report, Tally, count};
use crate::{line, number};
use std::alloc::{AllocError, Global};
use std::io;
use std::io::Write;

// Each kind has one block of 16,384 numbers: a list holds no more names.
const BLOCKS: Blocks = Blocks {
    width: 14,
    count: 4,
};

// The dictionary's numbers are below this.
const NUMBERS: usize = 65536;

// How a numbering is held against the base: to tell what differs, or to tell each name's two numbers.
// Kept: an enum is plainer than a trait. The command says at run time which way it is, the ways are closed, and each match shows both side by side.
#[derive(Clone, Copy)]
pub enum Way {
    Compared,
    Paired,
}

// What lines that are held against the base have given so far.
#[derive(Clone, Copy)]
struct Against {
    way: Way,
    // How many lines of the base were refused.
    base_refused: u64,
    // How many names both have: with the same number, or paired; with two numbers.
    agree: u64,
    differ: u64,
    // How many names the base does not have.
    added: u64,
}

// What is known of a name: the number that the last line with it gave, and its line in the base, until the other numbering has the name too.
#[derive(Clone, Copy, Default)]
struct Entry {
    number: u64,
    base_line: Option<u64>,
}

impl Entry {
    // Whether the base has the name, and the other numbering does not so far.
    // Kept: a test for three filters. Tried: one function that gives these entries as an `impl Iterator`; the theorem of such a function cannot be stated.
    fn only_in_base(&self) -> bool {
        self.base_line.is_some()
    }
}

// Two numberings, of which the base is read first.
#[derive(Drop)]
pub struct Held<'a> {
    names: &'a mut Names,
    // By the dictionary's number of the name.
    // Kept: a table. The dictionary's numbers are below 65,536, so a map is no plainer.
    entries: Vec<Entry>,
    // None while the lines of the base are read.
    against: Option<Against>,
}

impl<'a> Held<'a> {
    pub fn new(alloc: Global, names: &'a mut Names) -> Result<Held<'a>, AllocError> {
        let entries = vec![in alloc; Entry::default(); NUMBERS]?;
        // Not refused: these blocks are within the limits, and the memory has the bytes for up to 4,096 blocks.
        let _ = names.open(BLOCKS);
        Ok(Held {
            names,
            entries,
            against: None,
        })
    }

    // The base is read, and gave this tally. The lines that follow are held against it.
    pub fn base_is_read(&mut self, base: Tally, way: Way) {
        self.against = Some(Against {
            way,
            base_refused: base.refused,
            agree: 0,
            differ: 0,
            added: 0,
        });
    }

    // Prints what is known once the other numbering, which gave this tally, is held against the base.
    // Kept: functions. What `Against` has counted is printed in two ways, each with entries and their names, so a `Display` of it is no plainer.
    pub fn tell<W: Write>(&self, out: &mut W, tally: Tally) -> io::Result<()> {
        let Some(against) = self.against else {
            return Ok(());
        };
        match against.way {
            Way::Compared => self.tell_compared(out, against, tally.refused),
            Way::Paired => self.tell_paired(out, against, tally.refused),
        }
    }

    fn tell_compared<W: Write>(
        &self,
        out: &mut W,
        against: Against,
        refused: u64,
    ) -> io::Result<()> {
        if let Some((i, entry)) = self.first_missing() {
            self.missing(out, "first only in the first: ", i, *entry)?;
        }
        let missing = self.count_missing();
        let Against {
            base_refused,
            agree,
            differ,
            added,
            ..
        } = against;
        writeln!(
            out,
            "# {agree} agree, {differ} differ, {missing} only in the first, {added} only in the second; lines refused: {base_refused} and {refused}"
        )
    }

    // The base is the second of the two.
    fn tell_paired<W: Write>(&self, out: &mut W, against: Against, refused: u64) -> io::Result<()> {
        self.all_missing(out)?;
        let missing = self.count_missing();
        let Against {
            base_refused,
            agree,
            added,
            ..
        } = against;
        writeln!(
            out,
            "# {agree} in both, {added} only in the first, {missing} only in the second; lines refused: {refused} and {base_refused}"
        )
    }

    // The entry of the first name that only the base has, and the dictionary's number of that name.
    fn first_missing(&self) -> Option<(usize, &Entry)> {
        self.entries
            .iter()
            .enumerate()
            .filter(|(_, entry)| entry.only_in_base())
            .min_by_key(|(_, entry)| entry.base_line)
    }

    // How many names only the base has.
    fn count_missing(&self) -> usize {
        self.entries
            .iter()
            .filter(|entry| entry.only_in_base())
            .count()
    }

    // Prints the entries of the names that only the base has, which is the second of the two.
    fn all_missing<W: Write>(&self, out: &mut W) -> io::Result<()> {
        let entries = self.entries.iter().enumerate();
        for (i, entry) in entries.filter(|(_, entry)| entry.only_in_base()) {
            self.missing(out, "# only in the second: ", i, *entry)?;
        }
        Ok(())
    }

    // Prints the number and the name of an entry, whose name only the base has.
    fn missing<W: Write>(
        &self,
        out: &mut W,
        before: &str,
        i: usize,
        entry: Entry,
    ) -> io::Result<()> {
        write!(out, "{before}{} ", entry.number)?;
        number::print_name(out, self.names, i as u64)?;
        writeln!(out)
    }
}

impl Task for Held<'_> {
    fn line<W: Write>(&mut self, report: &mut Report<'_, W>, s: &[u8]) -> io::Result<()> {
        let Some(given) = given_by(s) else {
            return report.passed_over("not a number, a space and a name");
        };
        let added = match self.names.add(given.name) {
            Ok(added) => added,
            Err(refusal) => return report.refused(refusal),
        };
        // Kept: an `else` that is never taken. The dictionary's numbers are below `NUMBERS`, but `add` here has no contract that says so.
        let Some(entry) = self.entries.get_mut(added.number() as usize) else {
            return Ok(());
        };
        match &mut self.against {
            None => given.of_base(report, added, entry),
            Some(against) => against.line(report, given, added, entry),
        }
    }
}

// The number that a line gives to a name, the name's text as it stands there, and the name that the text is.
#[derive(Clone, Copy)]
struct Given<'a> {
    number: u64,
    text: &'a [u8],
    name: Name<'a>,
}

// Kept: an Option, and no TryFrom: nothing is told but that it is none.
fn given_by(s: &[u8]) -> Option<Given<'_>> {
    let behind_word = s
        .strip_prefix(b"fresh ")
        .or_else(|| s.strip_prefix(b"known "));
    let (number, text) = line::numbered(behind_word.unwrap_or(s))?;
    let name = line::name_of(text)?;
    Some(Given { number, text, name })
}

impl Given<'_> {
    fn print<W: Write>(self, report: &mut Report<'_, W>, before: &str) -> io::Result<()> {
        report.line(format_args!("{before}{} ", self.number), self.text)
    }

    // A line of the base, and the entry of its name.
    fn of_base<W: Write>(
        self,
        report: &mut Report<'_, W>,
        added: Added,
        entry: &mut Entry,
    ) -> io::Result<()> {
        let before = entry.number;
        entry.number = self.number;
        match added {
            Added::Fresh(_) => {
                entry.base_line = Some(report.tally.line);
                Ok(())
            }
            Added::Known(_) => self.again(report, before),
        }
    }

    // A name that the same numbering had before, with the number `before`.
    fn again<W: Write>(self, report: &mut Report<'_, W>, before: u64) -> io::Result<()> {
        if before == self.number {
            return Ok(());
        }
        self.print(report, "# twice, now with ")
    }
}

impl Against {
    // A line that is held against the base, and the entry of its name.
    fn line<W: Write>(
        &mut self,
        report: &mut Report<'_, W>,
        given: Given<'_>,
        added: Added,
        entry: &mut Entry,
    ) -> io::Result<()> {
        let before = *entry;
        *entry = Entry {
            number: given.number,
            base_line: None,
        };
        match added {
            Added::Fresh(_) => self.added(report, given),
            Added::Known(_) if before.only_in_base() => self.both(report, given, before.number),
            Added::Known(_) => given.again(report, before.number),
        }
    }

    // A name that the base does not have.
    fn added<W: Write>(&mut self, report: &mut Report<'_, W>, given: Given<'_>) -> io::Result<()> {
        match self.way {
            Way::Compared if self.added == 0 => {
                given.print(report, "first only in the second: ")?;
            }
            Way::Compared => {}
            Way::Paired => given.print(report, "# only in the first: ")?,
        }
        count(&mut self.added);
        Ok(())
    }

    // A name that both have, and that has the number `base` in the base.
    fn both<W: Write>(
        &mut self,
        report: &mut Report<'_, W>,
        given: Given<'_>,
        base: u64,
    ) -> io::Result<()> {
        match self.way {
            Way::Compared if base != given.number => self.differs(report, given, base),
            Way::Compared => {
                count(&mut self.agree);
                Ok(())
            }
            Way::Paired => {
                count(&mut self.agree);
                report.line(format_args!("{} {base} ", given.number), given.text)
            }
        }
    }

    // A name that both have, with two numbers.
    fn differs<W: Write>(
        &mut self,
        report: &mut Report<'_, W>,
        given: Given<'_>,
        base: u64,
    ) -> io::Result<()> {
        if self.differ == 0 {
            let number = given.number;
            let numbers = format_args!("{base} in the first, {number} in the second");
            report.line(format_args!("first difference: {numbers}: "), given.text)?;
        }
        count(&mut self.differ);
        Ok(())
    }
}
