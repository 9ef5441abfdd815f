//! A script that comes line by line from standard input, and may be typed at a terminal.
//!
//! A line that a person types is read whole, and its words are looked at before the script has it. A question and what
//! is done here stand in the script as comments, behind `#> `, and `until` as `rounds`: so what was typed is a script
//! of which `run` gives the same answers and exit status, and `log` saves that. `quit` and `exit` are at the end of the
//! input, as Ctrl-D is, and so is `restart`. At the end of its input a reader isn't asked again, since a terminal would
//! go on behind it. An editor of our own would need a terminal's raw mode, which no handle gives: `rlwrap` serves.
//! Ctrl-C ends the program as it ends any other, without a summary, since no handle gives signals.
ghost use Rattle.std.specs.Prelude.{IfOk, IfSome, None, length, ◌≤◌};

use crate::opening::HostSource;
use crate::prompting::{Log, tell_of_file};
use crate::texts::feeds_of;
use std::cell::Cell;
use std::io;
use std::io::{BufRead, BufReader, Chain, Cursor, Read, Write};

/// What lines are read from: what was read of their text before, and then its source.
pub type Lines<'a> = Chain<&'a [u8], HostSource>;

/// How a person ends what is typed.
#[derive(Clone, Copy)]
pub enum Ending {
    /// The program ends too.
    Quit,
    /// All begins anew.
    Restart,
}

/// A reader of what standard input gives, line by line, maybe behind lines of a file. Where a person is asked, a prompt
/// with the line's number comes on standard error before each line. A terminal mostly gives a line at a time, but
/// several where they are pasted, or typed by a program.
#[derive(Drop)]
pub struct Typed<'a> {
    pub(crate) rt: &'a HostRuntime,
    pub(crate) description: &'a [u8],
    /// The lines of a file, until it is at its end.
    pub(crate) file: Option<Lines<'a>>,
    /// The name of that file, where a person asked for it.
    pub(crate) asked_file: Option<String>,
    pub(crate) input: BufReader<Lines<'a>>,
    is_asked: bool,
    // Where it is noted how many lines the script's own file has, as soon as it is at its end.
    typed_from: Option<&'a Cell<Option<usize>>>,
    // A line that was typed, as the script has it, as far as that isn't read.
    ready: Cursor<Vec<u8>>,
    /// What was read of the script, where a person is asked.
    pub(crate) script: Vec<u8>,
    pub(crate) log: Option<Log>,
    /// Whether all can begin anew.
    pub(crate) can_restart: bool,
    // The number of the line that comes next, or is there in part.
    line: usize,
    // Whether nothing of that line is there yet.
    begins: bool,
    /// How a line ended what is typed.
    pub(crate) ending: Option<Ending>,
    /// The system's number of why it couldn't be read, where it couldn't and the system has one.
    pub(crate) fault: Option<i32>,
    /// Whether it was read as far as it could be, and memory ran out.
    pub(crate) lacks_memory: bool,
}

impl<'a> Typed<'a> {
    /// A script on the network of a description, from standard input, behind the lines of a file if there is one. In
    /// the cell it notes how many these are, as soon as the file is at its end.
    pub fn new(
        rt: &'a HostRuntime,
        description: &'a [u8],
        file: Option<Lines<'a>>,
        input: BufReader<Lines<'a>>,
        is_asked: bool,
        typed_from: Option<&'a Cell<Option<usize>>>,
    ) -> Self {
        Typed {
            rt,
            description,
            can_restart: file.is_some(),
            file,
            asked_file: None,
            input,
            is_asked,
            typed_from,
            ready: Cursor::new(Vec::new(rt.alloc())),
            script: Vec::new(rt.alloc()),
            log: None,
            line: 1,
            begins: true,
            ending: None,
            fault: None,
            lacks_memory: false,
        }
    }
}

impl Typed<'_> {
    /// The next bytes of the script.
    fn read_script(&mut self, buf: &mut [u8]) -> io::Result<usize>
        ensures { IfOk result (λ count. count ≤ length buf.new) }
    {
        let count = self.ready.read(buf)?;
        if count > 0 {
            return Ok(count);
        }
        if let Some(count) = self.read_file(buf)? {
            return Ok(count);
        }
        if !self.is_asked {
            return self.input.read(buf);
        }
        self.ask()?;
        self.ready.read(buf)
    }

    /// What the file gives, or None at its end. Where its last line has no line feed, it gets one.
    fn read_file(&mut self, buf: &mut [u8]) -> io::Result<Option<usize>>
        ensures { IfOk result (λ given. IfSome given (λ count. count ≤ length buf.new)) }
    {
        let Some(file) = &mut self.file else {
            return Ok(None);
        };
        let count = match file.read(buf) {
            Ok(count) => count,
            Err(error) => {
                self.leave_unread(error)?;
                0
            }
        };
        if count > 0 || buf.is_empty() {
            return Ok(Some(count));
        }
        self.leave_file();
        match buf.first_mut() {
            Some(first) if !self.begins => {
                *first = b'\n';
                Ok(Some(1))
            }
            _ => Ok(None),
        }
    }

    /// A file can't be read further. Where a person asked for it they are told, and it is at its end.
    fn leave_unread(&mut self, error: io::Error) -> io::Result<()> {
        let Some(name) = &self.asked_file else {
            return Err(error);
        };
        tell_of_file(self.rt, name.as_str(), &error);
        Ok(())
    }

    /// The file is at its end.
    fn leave_file(&mut self) {
        self.file = None;
        self.asked_file = None;
        if let Some(typed_from) = self.typed_from.take() {
            let whole = self.line.saturating_sub(1);
            typed_from.set(Some(if self.begins { whole } else { self.line }));
        }
    }

    /// Asks for a line, and readies what the script has in its place.
    fn ask(&mut self) -> io::Result<()> {
        if self.begins {
            prompt(self.rt, self.line);
        }
        let mut line = Vec::new(self.rt.alloc());
        self.input.read_until(b'\n', &mut line)?;
        if line.is_empty() {
            self.ending = Some(Ending::Quit);
            // What follows stands on a line of its own.
            let _ = self.rt.stderr().write_all(b"\n");
            return Ok(());
        }
        if let Some(line) = self.heed(line.as_slice())? {
            self.ready = Cursor::new(line);
        }
        Ok(())
    }

    /// Notes a piece of the script that is read.
    fn note(&mut self, piece: &[u8]) -> io::Result<()> {
        self.line = self.line.saturating_add(feeds_of(piece));
        self.begins = begins_behind(piece, self.begins);
        if self.is_asked {
            self.script.extend_from_slice(piece)?;
            self.add_to_log(piece);
        }
        Ok(())
    }

    /// The next bytes of the script, which are noted.
    fn read_noted(&mut self, buf: &mut [u8]) -> io::Result<usize>
        ensures { IfOk result (λ count. count ≤ length buf.new) }
    {
        if self.ending.is_some() {
            return Ok(0);
        }
        let count = self.read_script(buf)?;
        self.note(&buf[..count])?;
        Ok(count)
    }
}

impl Read for Typed<'_> {
    // What the readers have left doesn't say where a person ends it: that also depends on how it is cut into reads.
    ghost remaining = { λ _. None };

    fn read(&mut self, buf: &mut [u8]) -> io::Result<usize> {
        match self.read_noted(buf) {
            Ok(count) => Ok(count),
            Err(error) => {
                self.fault = error.raw_os_error();
                self.lacks_memory = error.kind() == io::ErrorKind::OutOfMemory;
                Err(error)
            }
        }
    }
}

/// Asks for a line. Where that can't be shown, the line can be typed all the same.
fn prompt(rt: &HostRuntime, line: usize) {
    if let Ok(text) = format!(in rt.alloc(); "{line}> ") {
        let _ = rt.stderr().write_all(text.as_bytes());
    }
}

/// Whether a line begins behind a piece: where the piece is empty, as it was before.
fn begins_behind(piece: &[u8], before: bool) -> bool {
    match piece {
        [.., last] => *last == b'\n',
        [] => before,
    }
}
