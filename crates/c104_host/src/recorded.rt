//! A writer of which proofs know what it took.
ghost use Rattle.std.specs.Prelude.{[], Some, ◌≡◌};

use crate::record::Record;
use std::io;
use std::io::Write;
use std::marker::Model;

/// A writer, and what it took, which proofs alone can read: it costs nothing when it runs. Each write asks the writer once.
/// Contracts see the bytes that it took: of each write that it answered by a count its first bytes, that many, and of one that
/// it answered by an error none.
#[derive(Drop)]
pub struct Recorded<W: Write + Drop> {
    writer: W,
    taken: Record,
}

impl<W: Write + Drop> Model for Recorded<W> {
    ghost use Rattle.std.specs.Prelude.{List, ℕ};

    ghost Value = { List ℕ };

    ghost view = { λ recorded. recorded.taken.bytes };
}

impl<W: Write + Drop> Recorded<W> {
    /// A writer that hasn't taken anything yet.
    pub fn new(writer: W) -> Self
        ensures { result ≡ [] }
    {
        Recorded {
            writer,
            taken: Record::new(),
        }
    }

    /// The writer.
    pub fn writer(&self) -> &W {
        &self.writer
    }
}

impl<W: Write + Drop> Write for Recorded<W> {
    ghost contents = { λ taken. Some taken };

    fn write(&mut self, buf: &[u8]) -> io::Result<usize> {
        let count = self.writer.write(buf)?;
        self.taken = self.taken.with(&buf[..count]);
        Ok(count)
    }

    fn flush(&mut self) -> io::Result<()> {
        self.writer.flush()
    }
}
