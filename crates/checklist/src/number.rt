// Numbers the name of a line, or reads the number of a line back into a name.
use crate::input::Task;
use crate::line;
use crate::names_in_memory::{Added, LONGEST, Names};
use crate::report::{Report, count};
use std::io;
use std::io::Write;

// Numbers the name of each line, and prints the line behind its answer.
#[derive(Drop)]
pub struct Number<'a> {
    names: &'a mut Names,
    // How many names were fresh, and how many known.
    pub fresh: u64,
    pub known: u64,
}

impl<'a> Number<'a> {
    pub fn new(names: &'a mut Names) -> Number<'a> {
        Number {
            names,
            fresh: 0,
            known: 0,
        }
    }
}

impl Task for Number<'_> {
    fn line<W: Write>(&mut self, report: &mut Report<'_, W>, s: &[u8]) -> io::Result<()> {
        let Some(name) = line::name_of(s) else {
            return report.passed_over("not a kind, a space and a name");
        };
        let added = match self.names.add(name) {
            Ok(added) => added,
            Err(refusal) => return report.refused(refusal),
        };
        let word = match added {
            Added::Fresh(_) => {
                count(&mut self.fresh);
                "fresh"
            }
            Added::Known(_) => {
                count(&mut self.known);
                "known"
            }
        };
        report.line(format_args!("{word} {} ", added.number()), s)
    }
}

// Reads the number of each line back.
#[derive(Clone, Copy)]
pub struct ReadBack<'a> {
    pub names: &'a Names,
}

impl Task for ReadBack<'_> {
    fn line<W: Write>(&mut self, report: &mut Report<'_, W>, s: &[u8]) -> io::Result<()> {
        let Some(number) = line::whole_number(s) else {
            return report.passed_over("not a number of 19 digits at the most");
        };
        write!(report.out, "{number} ")?;
        print_name(&mut *report.out, self.names, number)?;
        writeln!(report.out)
    }
}

// Prints the name that a number has, as in a line: with a tab before the second part if that is not empty.
pub fn print_name<W: Write>(out: &mut W, names: &Names, number: u64) -> io::Result<()> {
    let mut buffer = [0u8; LONGEST];
    match names.read(number, &mut buffer) {
        Ok(Some(name)) => {
            write!(out, "{} ", name.kind)?;
            out.write_all(name.first)?;
            if !name.second.is_empty() {
                out.write_all(b"\t")?;
                out.write_all(name.second)?;
            }
            Ok(())
        }
        Ok(None) => write!(out, "none"),
        Err(refusal) => write!(out, "{refusal}"),
    }
}
