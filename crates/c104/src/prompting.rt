//! What a person types at the prompt beside the lines of a script, and what is done of it before the script has it.

use crate::sources::{Source, Watched};
use crate::typed::{Ending, Typed};
use crate::until::rounds_until;
use c104_explain::is_question;
use c104_plan::{cut_words, uncommented};
use std::alloc::AllocError;
use std::fmt::Display;
use std::fs::File;
use std::io::{Read, Write};
use std::{fs, io, str};

/// What a line `restart` is.
const RESTART_FORM: &str = "the line is `restart`";

/// What a line `until` is.
const UNTIL_FORM: &str =
    "the line is `until TERMINAL NUMBER`, as `until a 0` of the first packet that `a` sent";

/// What a line `read` is.
const READ_FORM: &str = "the line is `read FILE`: the file's name is one word, in UTF-8";

/// What a line `log` is.
const LOG_FORM: &str = "the line is `log FILE`: the file's name is one word, in UTF-8";

/// What is told where all can't begin anew.
const NO_RESTART: &str = "the description came from standard input, so it can't be read again";

/// What is told where a person asks for the lines that are saved.
const IS_LOG: &str = "this is the log, which would grow as it is read";

/// A file in which the lines of a script are saved as they come.
#[derive(Drop)]
pub(crate) struct Log {
    name: String,
    file: File,
}

impl Log {
    /// Makes a file of this name, which has these lines. There is none of that name before.
    fn new(rt: &HostRuntime, name: &str, lines: &[u8]) -> io::Result<Self> {
        let name = String::from_str(rt.alloc(), name)?;
        let mut file = File::create_new(rt, name.as_str())?;
        file.write_all(lines)?;
        Ok(Log { name, file })
    }
}

/// What a typed line asks of the prompt.
enum Word<'a> {
    Quit,
    Restart,
    Until(&'a [u8], &'a [u8]),
    Read(&'a str),
    Log(&'a str),
    /// Nothing: the line isn't what it should be.
    Wrong(&'static str),
    /// It is for the script.
    Other,
}

impl Typed<'_> {
    /// Does what a typed line asks of the prompt, and gives what the script has in its place. None where the line ends
    /// what is typed.
    pub(crate) fn heed(&mut self, line: &[u8]) -> io::Result<Option<Vec<u8>>> {
        let asked = without_feed(line);
        let Ok(words) = cut_words(self.rt.alloc(), uncommented(asked)) else {
            return Err(io::Error::from(AllocError));
        };
        match word_of(words.as_slice()) {
            Word::Quit => {
                self.ending = Some(Ending::Quit);
                return Ok(None);
            }
            Word::Restart if self.can_restart => {
                self.ending = Some(Ending::Restart);
                return Ok(None);
            }
            Word::Until(name, number) => return self.do_until(name, number).map(Some),
            Word::Other if !is_question(asked) => return self.joined(&[line]).map(Some),
            Word::Other => {}
            Word::Restart => self.tell(NO_RESTART),
            Word::Read(name) => self.begin_file(name),
            Word::Log(name) => self.begin_log(name),
            Word::Wrong(form) => self.tell(form),
        }
        self.joined(&[b"#> ", line]).map(Some)
    }

    /// A line of these parts.
    fn joined(&self, parts: &[&[u8]]) -> io::Result<Vec<u8>> {
        let mut line = Vec::new(self.rt.alloc());
        for part in parts {
            line.extend_from_slice(part)?;
        }
        Ok(line)
    }

    /// Tells a person a line on standard error. Where that can't be shown it is lost.
    fn tell(&self, message: &str) {
        let _ = eprintln!(self.rt; "{message}");
    }

    /// The line by which the script does rounds until the packet of this number that the terminal of this name sent has
    /// arrived, or nothing moves, and that asks where the packet is.
    fn do_until(&self, name: &[u8], number: &[u8]) -> io::Result<Vec<u8>> {
        let question = self.joined(&[b"#> where ", name, b" ", number, b"\n"])?;
        let script = self.script.as_slice();
        let rounds = rounds_until(self.rt, self.description, script, question.as_slice());
        if rounds == 0 {
            return Ok(question);
        }
        let _ = eprintln!(self.rt; "rounds {rounds}");
        let rounds = format!(in self.rt.alloc(); "rounds {rounds} ")?;
        self.joined(&[rounds.as_bytes(), question.as_slice()])
    }

    /// The lines of a file come next, if it can be opened and they aren't saved there.
    fn begin_file(&mut self, name: &str) {
        if let Some(log) = &self.log
            && log.name.as_str() == name
        {
            tell_of_file(self.rt, name, IS_LOG);
            return;
        }
        if let Err(error) = self.open_file(name) {
            tell_of_file(self.rt, name, &error);
        }
    }

    /// Opens a file of lines.
    fn open_file(&mut self, name: &str) -> io::Result<()> {
        let name = String::from_str(self.rt.alloc(), name)?;
        let file = fs::open(self.rt, name.as_str())?;
        let nothing: &[u8] = &[];
        self.file = Some(nothing.chain(Watched::new(Source::File(file))));
        self.asked_file = Some(name);
        Ok(())
    }

    /// Saves the lines so far in a new file, and from now on those that come.
    fn begin_log(&mut self, name: &str) {
        match Log::new(self.rt, name, self.script.as_slice()) {
            Ok(log) => self.log = Some(log),
            Err(error) => tell_of_file(self.rt, name, &error),
        }
    }

    /// Saves what comes next, where that is wanted. Where it can't be, that is told once.
    pub(crate) fn add_to_log(&mut self, piece: &[u8]) {
        if let Some(log) = &mut self.log
            && let Err(error) = log.file.write_all(piece)
        {
            tell_of_file(self.rt, log.name.as_str(), &error);
            self.log = None;
        }
    }
}

/// A line without the line feed that ends it.
fn without_feed(line: &[u8]) -> &[u8] {
    match line {
        [start @ .., b'\n'] => start,
        _ => line,
    }
}

/// What the words of a typed line ask of the prompt.
fn word_of<'a>(words: &[&'a [u8]]) -> Word<'a> {
    match words {
        [b"quit" | b"exit", ..] => Word::Quit,
        [b"restart"] => Word::Restart,
        [b"restart", ..] => Word::Wrong(RESTART_FORM),
        [b"until", name, number] => Word::Until(*name, *number),
        [b"until", ..] => Word::Wrong(UNTIL_FORM),
        [b"read", ..] => match file_among(words) {
            Some(name) => Word::Read(name),
            None => Word::Wrong(READ_FORM),
        },
        [b"log", ..] => match file_among(words) {
            Some(name) => Word::Log(name),
            None => Word::Wrong(LOG_FORM),
        },
        _ => Word::Other,
    }
}

/// The file that two words name, if it can be one.
fn file_among<'a>(words: &[&'a [u8]]) -> Option<&'a str> {
    match words {
        [_, file] => str::from_utf8(*file).ok(),
        _ => None,
    }
}

/// Tells what is wrong with a file.
pub(crate) fn tell_of_file<E: Display + Drop>(rt: &HostRuntime, name: &str, wrong: E) {
    let _ = eprintln!(rt; "{name}: {wrong}");
}
