//! What people are told on standard error, and where that is wanted.

use crate::command_line::{Order, STANDARD_INPUT, Task};
use c104_mistakes::{About, Messages, Work};
use c104_setup::Status;
use std::alloc::AllocError;
use std::cell::Cell;
use std::io;
use std::io::{IsTerminal, Write};
use std::time::Instant;

/// Seconds that work goes on before it is told how far it is, and between two times.
const SECONDS_BETWEEN: u64 = 1;

/// Work that goes on.
#[derive(Drop)]
struct Going {
    work: Work,
    // When they were told of last, or began.
    told: Instant,
}

/// Standard error, as what takes messages. Each is a line: the program's name, the file and the line that it is
/// about, and what is told.
#[derive(Drop)]
pub struct Told<'a> {
    rt: &'a HostRuntime,
    // The paths of the description, and of the text in which the script stands, behind this many lines.
    description: &'a str,
    script: &'a str,
    lines_before: usize,
    is_wanted: bool,
    // Whether a person types the script.
    is_asked: bool,
    /// Whether it is told how far work is: standard error is a terminal.
    pub is_watched: bool,
    /// How many lines of a script stand in a file, where what follows them comes from standard input.
    pub typed_from: &'a Cell<Option<usize>>,
    /// The system's number of the fault of what can't be read, or written, where it has one.
    pub fault: Option<i32>,
    /// Whether a word of the command line turned out to be wrong.
    pub has_wrong_word: bool,
    // The path of a file that can't be written.
    unwritten: Option<String>,
    going: Option<Going>,
}

impl<'a> Told<'a> {
    /// What takes the messages of an order. They are wanted under `--explain`, and where standard error is a
    /// terminal. The cell is for who reads a script of which a part is typed.
    pub fn new(
        rt: &'a HostRuntime,
        order: Order<'a>,
        explain: bool,
        typed_from: &'a Cell<Option<usize>>,
    ) -> Self {
        let is_watched = rt.stderr().is_terminal();
        let is_typed = matches!(order.task, Task::Debug) && rt.stdin().is_terminal();
        Told {
            rt,
            description: order.description,
            script: order.script.unwrap_or(STANDARD_INPUT),
            lines_before: 0,
            is_wanted: explain || is_watched,
            is_asked: is_typed && is_watched,
            is_watched,
            typed_from,
            fault: None,
            has_wrong_word: false,
            unwritten: None,
            going: None,
        }
    }

    /// Notes the path of the text in which the script stands, behind this many lines.
    pub fn note_script(&mut self, path: &'a str, lines_before: usize) {
        self.script = path;
        self.lines_before = lines_before;
    }

    /// Notes the path of a file that can't be written, and why. So its command ends.
    pub fn unwritten(&mut self, path: String, error: &io::Error) -> Status {
        self.unwritten = Some(path);
        self.fault = error.raw_os_error();
        Status::CannotWrite
    }

    /// Notes that a word of the command line is wrong, which was told. So its command ends.
    pub fn wrong_word(&mut self) -> Status {
        self.has_wrong_word = true;
        Status::Refused
    }

    /// The path of what can't be read or written, where a command that ends so was stopped by one.
    pub fn failed_path(&self, status: Status) -> Option<&str> {
        match (status, &self.unwritten) {
            (Status::CannotRead(0), _) => Some(self.description),
            (Status::CannotRead(_), _) => Some(self.script),
            (Status::CannotWrite, Some(path)) => Some(path.as_str()),
            _ => None,
        }
    }

    /// Why something couldn't be read or written, as the system names it, where people are told.
    pub fn told_fault(&self) -> Option<io::Error> {
        match self.fault {
            Some(code) if self.is_wanted => Some(io::Error::from_raw_os_error(code)),
            _ => None,
        }
    }

    /// Shows a message, the whole line at once. Where that fails, the message is lost.
    fn show(&self, about: About, message: &str) {
        if let Ok(line) = self.line_of(about, message) {
            let _ = self.rt.stderr().write_all(line.as_bytes());
        }
    }

    /// The line of a message. The only error is out of memory.
    fn line_of(&self, about: About, message: &str) -> Result<String, AllocError> {
        let alloc = self.rt.alloc();
        let description = self.description;
        match about {
            About::Run => format!(in alloc; "c104: {message}\n"),
            About::Description => format!(in alloc; "c104: {description}: {message}\n"),
            About::DescriptionLine(line) => {
                format!(in alloc; "c104: {description}:{line}: {message}\n")
            }
            About::Question => format!(in alloc; "{message}\n"),
            About::ScriptLine(line) | About::FaultyLine(line) => {
                let (script, line) = self.place_of(line);
                format!(in alloc; "c104: {script}:{line}: {message}\n")
            }
        }
    }

    /// Where a line of the script stands: the path of its text, and the line there.
    fn place_of(&self, line: usize) -> (&'a str, usize) {
        match self.typed_from.get() {
            Some(lines) if line > lines => (STANDARD_INPUT, line),
            _ => (self.script, line.saturating_add(self.lines_before)),
        }
    }

    /// Whether work has gone on for long since it was told of. Where it is other work than before, it begins now; where
    /// there is no clock, it is never long.
    fn is_long(&mut self, work: Work) -> bool {
        if let Some(going) = &self.going
            && going.work == work
        {
            return match going.told.elapsed(self.rt) {
                Ok(passed) => passed.as_secs() >= SECONDS_BETWEEN,
                Err(_) => false,
            };
        }
        self.going = begun(self.rt, work);
        false
    }
}

/// Work, from now on.
fn begun(rt: &HostRuntime, work: Work) -> Option<Going> {
    let told = Instant::now(rt).ok()?;
    Some(Going { work, told })
}

impl Messages for Told<'_> {
    fn are_wanted(&self) -> bool {
        self.is_wanted
    }

    fn are_asked(&self) -> bool {
        self.is_asked
    }

    fn tell(&mut self, about: About, message: &str) {
        self.show(about, message);
    }

    fn progress(&mut self, work: Work, done: u32, count: u32) {
        if !self.is_watched || !self.is_long(work) {
            return;
        }
        self.going = begun(self.rt, work);
        let (about, what) = match work {
            Work::Rounds(line) => (About::ScriptLine(line), "rounds are done"),
            Work::Turns => (About::Run, "turns are done"),
            Work::Roots => (About::Description, "roots are tried"),
        };
        if let Ok(message) = format!(in self.rt.alloc(); "{done} of {count} {what}") {
            self.show(about, message.as_str());
        }
    }
}
