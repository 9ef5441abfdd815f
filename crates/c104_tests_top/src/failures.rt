//! A run whose readers or whose writer fail, at their first read or write, at their second, and so on until none fails.
use crate::calls::run_parts;
use crate::commands::{ANSWERS, DESCRIPTION, SCRIPT, SUMMARY};
use c104_setup::Status;
use std::alloc::Global;
use std::io;
use std::io::{ErrorKind, Read, Write};

/// How many bytes a read gives.
const PIECE: usize = 5;

/// More reads and writes than the run has.
const MOST: usize = 1000;

/// A reader that gives a text piece by piece, and fails after a number of reads.
#[derive(Drop)]
struct PieceReader<'a> {
    text: &'a [u8],
    reads: usize,
}

impl Read for PieceReader<'_> {
    fn read(&mut self, buf: &mut [u8]) -> io::Result<usize> {
        if self.reads == 0 {
            return Err(io::Error::from(ErrorKind::Other));
        }
        self.reads -= 1;
        let (piece, rest) = self
            .text
            .split_at(self.text.len().min(PIECE).min(buf.len()));
        self.text = rest;
        let mut piece = piece;
        piece.read(buf)
    }
}

/// A writer that takes whatever it is given, and fails after a number of writes.
#[derive(Drop)]
struct CountedWriter {
    taken: Vec<u8>,
    writes: usize,
}

impl Write for CountedWriter {
    fn write(&mut self, buf: &[u8]) -> io::Result<usize> {
        if self.writes == 0 {
            return Err(io::Error::from(ErrorKind::Other));
        }
        self.writes -= 1;
        self.taken.extend_from_slice(buf)?;
        Ok(buf.len())
    }

    fn flush(&mut self) -> io::Result<()> {
        Ok(())
    }
}

/// After how many reads and writes each fails.
#[derive(Clone, Copy)]
struct Limits {
    description: usize,
    script: usize,
    writes: usize,
}

/// How a run ends whose readers and writer fail so, and what it wrote.
fn ended(alloc: Global, limits: Limits) -> (Status, Vec<u8>) {
    let mut description = PieceReader {
        text: DESCRIPTION.as_bytes(),
        reads: limits.description,
    };
    let mut script = PieceReader {
        text: SCRIPT.as_bytes(),
        reads: limits.script,
    };
    let mut writer = CountedWriter {
        taken: Vec::new(alloc),
        writes: limits.writes,
    };
    let status = run_parts(alloc, &mut description, &mut script, &mut writer);
    (status, writer.taken)
}

/// How many line feeds stand in a text.
fn lines(text: &[u8]) -> usize {
    text.iter().filter(|byte| **byte == b'\n').count()
}

/// Whether a text is all answers and the summary behind them.
fn is_whole(written: &[u8]) -> bool {
    match written.strip_prefix(ANSWERS.as_bytes()) {
        Some(rest) => rest == SUMMARY.as_bytes(),
        None => false,
    }
}

/// Whether a text is the beginning of the answers, up to the end of a line.
fn are_answers(written: &[u8]) -> bool {
    ANSWERS.as_bytes().starts_with(written) && (written.is_empty() || written.ends_with(b"\n"))
}

/// Who fails.
#[derive(Clone, Copy)]
enum Failing {
    Description,
    Script,
    Writer,
}

impl Failing {
    /// The limits where this one fails after a number of reads or writes, and no other does.
    fn limits(self, count: usize) -> Limits {
        let mut limits = Limits {
            description: usize::MAX,
            script: usize::MAX,
            writes: usize::MAX,
        };
        match self {
            Failing::Description => limits.description = count,
            Failing::Script => limits.script = count,
            Failing::Writer => limits.writes = count,
        }
        limits
    }

    /// Whether a run ends as it has to where this one fails after a number of reads or writes, and has written what it has to.
    fn is_due(self, count: usize, status: Status, written: &[u8]) -> bool {
        match self {
            Failing::Description => status == Status::CannotRead(0) && written.is_empty(),
            // The lines that had ended by then are answered.
            Failing::Script => {
                let ended = lines(read_of(SCRIPT.as_bytes(), count));
                status == Status::CannotRead(1) && are_answers(written) && lines(written) == ended
            }
            Failing::Writer => status == Status::CannotWrite && are_answers(written),
        }
    }
}

/// With how many reads or writes the run first ends well. None where it ends with fewer otherwise than it has to.
fn first_whole(alloc: Global, failing: Failing) -> Option<usize> {
    for count in 0..MOST {
        let (status, written) = ended(alloc, failing.limits(count));
        if status == Status::Done && is_whole(written.as_slice()) {
            return Some(count);
        }
        if !failing.is_due(count, status, written.as_slice()) {
            return None;
        }
    }
    None
}

/// What a number of reads give of a text.
fn read_of(text: &[u8], reads: usize) -> &[u8] {
    text.split_at(text.len().min(reads.saturating_mul(PIECE))).0
}

/// A read for each piece of the text, and one for its end.
fn reads_of(text: &str) -> usize {
    text.len().div_ceil(PIECE).saturating_add(1)
}

/// The description's reader fails at each of its reads: nothing is written. It fails where what was read until then is taken
/// for the description.
#[test]
fn description_reader(rt: HostRuntime) {
    let reads = first_whole(rt.alloc(), Failing::Description);
    assert!(rt; reads == Some(reads_of(DESCRIPTION)));
}

/// The script's reader fails at each of its reads: the lines before are answered, and there is no summary. It fails where
/// answers are kept back, or the end of the script is taken for read.
#[test]
fn script_reader(rt: HostRuntime) {
    let reads = first_whole(rt.alloc(), Failing::Script);
    assert!(rt; reads == Some(reads_of(SCRIPT)));
}

/// The writer fails at each of its writes: what was written is the beginning of the answers, and there is no summary. There
/// is a write for each line at most, and one for the summary. It fails where a write is done again that failed.
#[test]
fn writer(rt: HostRuntime) {
    let writes = first_whole(rt.alloc(), Failing::Writer);
    assert!(rt; writes == Some(lines(SCRIPT.as_bytes()).saturating_add(1)));
}
