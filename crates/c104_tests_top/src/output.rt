use crate::calls::run_parts;
use c104_setup::Status;
use std::alloc::Global;
use std::cell::Cell;
use std::io;
use std::io::{Read, Write};
use std::test::Fail;

/// One switch with a terminal.
const DESCRIPTION: &str = "switch A\nterminal b A.0\n";

const LINE: &[u8] = b"drain b\n";

/// A reader that gives `count` lines, one each time that it is asked.
#[derive(Drop)]
struct LineReader<'a> {
    count: usize,
    given: usize,
    answered: &'a Cell<usize>,
    /// Whether it was asked again before each line that it gave was answered.
    is_early: bool,
}

impl Read for LineReader<'_> {
    fn read(&mut self, buf: &mut [u8]) -> io::Result<usize> {
        self.is_early = self.is_early || self.answered.get() < self.given;
        if self.given >= self.count {
            return Ok(0);
        }
        self.given += 1;
        let mut line = LINE;
        line.read(buf)
    }
}

/// A writer that counts its calls, and the lines that it is given.
#[derive(Drop)]
struct CountingWriter<'a> {
    writes: usize,
    answered: &'a Cell<usize>,
}

impl Write for CountingWriter<'_> {
    fn write(&mut self, buf: &[u8]) -> io::Result<usize> {
        let lines = buf.iter().filter(|byte| **byte == b'\n').count();
        self.answered.set(self.answered.get().saturating_add(lines));
        self.writes = self.writes.saturating_add(1);
        Ok(buf.len())
    }

    fn flush(&mut self) -> io::Result<()> {
        Ok(())
    }
}

/// Whether a script of `count` lines, which come line by line, has each answered before its reader is asked for the
/// next.
fn answers_each(alloc: Global, count: usize) -> bool {
    let answered = Cell::new(0);
    let mut script = LineReader {
        count,
        given: 0,
        answered: &answered,
        is_early: false,
    };
    let mut writer = CountingWriter {
        writes: 0,
        answered: &answered,
    };
    let mut description = DESCRIPTION.as_bytes();
    let status = run_parts(alloc, &mut description, &mut script, &mut writer);
    let is_all = answered.get() == count && writer.writes == count;
    status == Status::Done && !script.is_early && is_all
}

/// A reader that gives line by line, as a terminal does, has each line answered before it is asked for
/// the next.
#[test]
fn answers_before_reads(rt: HostRuntime) {
    assert!(rt; answers_each(rt.alloc(), 40));
}

/// Whether a script of `count` lines, which come together, is answered in at most `writes` writes.
fn answers_in(alloc: Global, script: &[u8], count: usize, writes: usize) -> bool {
    let answered = Cell::new(0);
    let mut writer = CountingWriter {
        writes: 0,
        answered: &answered,
    };
    let mut description = DESCRIPTION.as_bytes();
    let mut script = script;
    let status = run_parts(alloc, &mut description, &mut script, &mut writer);
    status == Status::Done && answered.get() == count && writer.writes <= writes
}

fn repeated(alloc: Global, line: &[u8], count: usize) -> Result<Vec<u8>, Fail> {
    Ok(line.repeat(alloc, count)?)
}

/// A reader that gives much at once, as a file does, costs one write for each time that it is asked.
#[test]
fn few_writes(rt: HostRuntime) -> Result<(), Fail> {
    let script = repeated(rt.alloc(), LINE, 20000)?;
    // pieces of 8,192 bytes
    let writes = script.len() / 8192 + 1;
    assert!(rt; answers_in(rt.alloc(), script.as_slice(), 20000, writes));
    Ok(())
}
