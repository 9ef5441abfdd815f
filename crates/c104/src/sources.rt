//! What is read: the files that the command line names, and standard input.
//!
//! One of two readers is a reader too, so each command of them is called once, whatever it reads.
ghost use Rattle.c104.specs.Sources.{source_remaining};

use std::io;
use std::io::Read;
use std::marker::Model;

/// What is read of a file, or of standard input. Each read asks it once, whatever it answers.
#[derive(Drop)]
pub enum Source<F: Read + Drop, I: Read + Drop> {
    /// A file.
    File(F),
    /// Standard input.
    Input(I),
}

impl<F: Read + Drop, I: Read + Drop> Read for Source<F, I> {
    ghost remaining = { source_remaining F.remaining I.remaining };

    fn read(&mut self, buf: &mut [u8]) -> io::Result<usize> {
        match self {
            Source::File(file) => file.read(buf),
            Source::Input(input) => input.read(buf),
        }
    }
}

/// A reader, of which is kept how much it has given, and why it failed last. At its end it isn't asked again: a
/// terminal goes on behind the end of input that a person typed.
#[derive(Drop)]
pub struct Watched<R: Read + Drop> {
    reader: R,
    // How many bytes it has given.
    given: usize,
    ended: bool,
    // The system's number of the fault.
    fault: Option<i32>,
}

impl<R: Read + Drop> Model for Watched<R> {
    ghost use Rattle.std.specs.{Io.KnownBytes.IsAtEnd, Prelude.{true, ◌≡◌}};

    ghost Value = { R };

    ghost view = { λ watched. watched.reader };

    ghost invariant = { λ watched. watched.ended ≡ true → IsAtEnd (R.remaining watched.reader) };
}

impl<R: Read + Drop> Watched<R> {
    /// A reader that hasn't given anything, failed, or ended.
    pub fn new(reader: R) -> Self {
        Watched {
            reader,
            given: 0,
            ended: false,
            fault: None,
        }
    }

    /// How many bytes it has given.
    pub fn given(&self) -> usize {
        self.given
    }

    /// The system's number of why it failed last, where it did and the system has one.
    pub fn fault(&self) -> Option<i32> {
        self.fault
    }
}

impl<R: Read + Drop> Read for Watched<R> {
    ghost remaining = { R.remaining };

    fn read(&mut self, buf: &mut [u8]) -> io::Result<usize> {
        if self.ended {
            return Ok(0);
        }
        match self.reader.read(buf) {
            Ok(count) => {
                self.ended = count == 0 && !buf.is_empty();
                self.given = self.given.saturating_add(count);
                Ok(count)
            }
            Err(error) => {
                self.fault = error.raw_os_error();
                Err(error)
            }
        }
    }
}
