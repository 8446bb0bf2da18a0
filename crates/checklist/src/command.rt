// The commands, which the program's words name, and what each does.
ghost use Rattle.std.specs.Prelude.{◌≤◌, length, IfSome};

use crate::compare::{Held, Way};
use crate::input::Task;
use crate::names_in_memory::{Blocks, Names};
use crate::number::{Number, ReadBack};
use crate::report::{Stop, Tally};
use crate::{input, line, report};
use std::alloc::Global;
use std::fs::File;
use std::io;
use std::io::Write;
use std::rt::Files;

// A command with its words. A word names a file, and - is the standard input.
#[derive(Clone, Copy)]
enum Command<'a> {
    Number(&'a [u8]),
    Read(&'a [u8]),
    Compare(&'a [u8], &'a [u8]),
    Pair(&'a [u8], &'a [u8]),
    Blocks(Blocks),
}

// The command with this name and this one word.
fn with_word<'a>(name: &[u8], word: &'a [u8]) -> Option<Command<'a>> {
    match name {
        b"number" => Some(Command::Number(word)),
        b"read" => Some(Command::Read(word)),
        _ => None,
    }
}

// The command with this name and these two words.
fn with_words<'a>(name: &[u8], first: &'a [u8], second: &'a [u8]) -> Option<Command<'a>> {
    match name {
        b"compare" => Some(Command::Compare(first, second)),
        b"pair" => Some(Command::Pair(first, second)),
        // A word that is no number stands for 0, which the library refuses.
        b"blocks" => Some(Command::Blocks(Blocks {
            width: line::whole_number(first).unwrap_or(0),
            count: line::whole_number(second).unwrap_or(0),
        })),
        _ => None,
    }
}

// The command with this name, and the words that are left behind its own.
// Kept: a match, and no TryFrom. A command takes words too, and those that are left are for the next one.
fn named<'a>(name: &[u8], words: &'a [Vec<u8>]) -> Option<(Command<'a>, &'a [Vec<u8>])>
    ensures { IfSome result (λ c. length c.1.now ≤ length words.now) }
{
    let (first, words) = words.split_first()?;
    if let Some(command) = with_word(name, first.as_slice()) {
        return Some((command, words));
    }
    let (second, words) = words.split_first()?;
    let command = with_words(name, first.as_slice(), second.as_slice())?;
    Some((command, words))
}

// A path that is not UTF-8 cannot be opened by std.
fn open<R: Files>(rt: &R, path: &[u8]) -> Option<R::File> {
    let path = str::from_utf8(path).ok()?;
    File::open(rt, path).ok()
}

// What the commands have of the system: its files, its memory, and where answers are printed.
#[derive(Drop)]
struct Host<'a, R, W> {
    rt: &'a R,
    alloc: Global,
    out: W,
}

impl<R: Files + Input, W: Write> Host<'_, R, W> {
    // Does the task with each line of a file. A remark says so if not all of the file can be read.
    fn file<T: Task>(&mut self, path: &[u8], task: &mut T) -> Result<Tally, Stop> {
        report::remark(&mut self.out, "", path)?;
        if matches!(path, b"-") {
            return input::run(self.rt.reader(), self.alloc, &mut self.out, task);
        }
        // A pipe is open only when somebody begins to write into it.
        self.out.flush()?;
        let Some(file) = open(self.rt, path) else {
            return Err(report::give_up(&mut self.out, "cannot be opened: ", path));
        };
        input::run(file, self.alloc, &mut self.out, task)
    }
}

// What the commands work on: the system, and one dictionary with its blocks.
#[derive(Drop)]
struct Checklist<'a, R, W> {
    host: Host<'a, R, W>,
    names: Names,
    blocks: Blocks,
}

impl<R: Files + Input, W: Write + Drop> Checklist<'_, R, W> {
    fn run(&mut self, command: Command<'_>) -> Result<(), Stop> {
        match command {
            Command::Number(path) => self.number(path),
            Command::Read(path) => self.read(path),
            Command::Compare(first, second) => self.hold(first, second, Way::Compared),
            // The names are printed in the order of the first numbering, so the second is the base.
            Command::Pair(first, second) => self.hold(second, first, Way::Paired),
            Command::Blocks(blocks) => {
                self.blocks = blocks;
                self.begin()
            }
        }
    }

    // Runs the commands one after the other. One that fails is the last.
    fn all(&mut self, words: &[Vec<u8>]) -> Result<(), Stop> {
        if words.is_empty() {
            report::usage(&mut self.host.out, b"none")?;
        }
        let mut rest = words;
        while let Some((name, behind)) = rest.split_first() {
            let Some((command, behind)) = named(name.as_slice(), behind) else {
                return Ok(report::usage(&mut self.host.out, name.as_slice())?);
            };
            self.run(command)?;
            rest = behind;
        }
        Ok(())
    }

    // Begins a dictionary with no names. A remark says so if it cannot have these blocks.
    fn begin(&mut self) -> Result<(), Stop> {
        let Err(refusal) = self.names.open(self.blocks) else {
            return Ok(());
        };
        let limits = "the width is 4 to 24, the count 1 to 4096";
        let what = format_args!("blocks: refused, {refusal} ({limits})");
        Err(report::give_up(&mut self.host.out, what, b""))
    }

    // Numbers the names of a file.
    fn number(&mut self, path: &[u8]) -> Result<(), Stop> {
        let mut task = Number::new(&mut self.names);
        let tally = self.host.file(path, &mut task)?;
        let Number { fresh, known, .. } = task;
        let refused = tally.refused;
        writeln!(
            self.host.out,
            "# {fresh} fresh, {known} known, {refused} refused"
        )?;
        Ok(())
    }

    // Reads the numbers of a file back.
    fn read(&mut self, path: &[u8]) -> Result<(), Stop> {
        let mut task = ReadBack { names: &self.names };
        let _ = self.host.file(path, &mut task)?;
        Ok(())
    }

    // Holds a numbering against a base. It uses the dictionary's memory, so a new dictionary is begun behind it.
    fn hold(&mut self, base: &[u8], path: &[u8], way: Way) -> Result<(), Stop> {
        self.hold_against(base, path, way)?;
        self.begin()
    }

    fn hold_against(&mut self, base: &[u8], path: &[u8], way: Way) -> Result<(), Stop> {
        let mut held = Held::new(self.host.alloc, &mut self.names)?;
        let tally = self.host.file(base, &mut held)?;
        held.base_is_read(tally, way);
        let tally = self.host.file(path, &mut held)?;
        held.tell(&mut self.host.out, tally)?;
        Ok(())
    }
}

// Runs the commands that these words name.
pub fn run<R: Files + Input, W: Write + Drop>(
    rt: &R,
    alloc: Global,
    out: W,
    words: &[Vec<u8>],
) -> io::Result<()> {
    let mut checklist = Checklist {
        host: Host { rt, alloc, out },
        names: Names::new(alloc)?,
        blocks: Blocks::NEMO,
    };
    match checklist.all(words) {
        Err(Stop::Failed(error)) => Err(error),
        Ok(()) | Err(Stop::Told) => checklist.host.out.flush(),
    }
}
