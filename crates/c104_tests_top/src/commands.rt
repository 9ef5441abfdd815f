use crate::calls::run_parts;
use c104_setup::Status;
use std::alloc::Global;
use std::io;
use std::io::{ErrorKind, Read, Write};
use std::test::Fail;

/// One switch with two terminals: label 0 is that of `a` on link 0, label 1 that of `b` on link 1.
pub const DESCRIPTION: &str =
    "switch A\nterminal a A.0\nterminal b A.1\nrow A.0 1 0\nrow A.0 2 1\nrow A.1 1 0\nrow A.1 2 1\n";

/// A packet goes from a to b.
pub const SCRIPT: &str =
    "send a 01 aa eop\ncredit A.0\ncross a\ncross a\ncross a\ninput A.0\nclaim A 0 1\ncredit b\n\
    cross A.1\ninput A.0\ninput A.0\ncross A.1\ncross A.1\ndrain b\ndrain b\ndrain b\ndrain b\n";

pub const ANSWERS: &str =
    "1: done\n2: done\n3: token 01\n4: token aa\n5: token eop\n6: done\n7: done\n8: done\n\
    9: token 01\n10: done\n11: done\n12: token aa\n13: token eop\n14: token 01\n15: token aa\n16: token eop\n\
    17: not ready\n";

pub const SUMMARY: &str = "b: 01 aa eop from a 0\n";

/// A reader of some text that then ends or fails. It tells how often it was asked after that.
#[derive(Drop)]
struct Source<'a> {
    text: &'a [u8],
    failure: Option<ErrorKind>,
    ends: usize,
}

impl<'a> Source<'a> {
    fn new(text: &'a str, failure: Option<ErrorKind>) -> Self {
        Source {
            text: text.as_bytes(),
            failure,
            ends: 0,
        }
    }
}

impl Read for Source<'_> {
    fn read(&mut self, buf: &mut [u8]) -> io::Result<usize> {
        if self.text.is_empty() {
            self.ends = self.ends.saturating_add(1);
            return match self.failure {
                Some(kind) => Err(io::Error::from(kind)),
                None => Ok(0),
            };
        }
        self.text.read(buf)
    }
}

/// A writer that takes one byte at a time, and fails after `room` bytes.
#[derive(Drop)]
struct SlowWriter {
    taken: Vec<u8>,
    room: usize,
    failure: Option<ErrorKind>,
    failures: usize,
}

impl SlowWriter {
    fn new(alloc: Global, room: usize, failure: Option<ErrorKind>) -> Self {
        SlowWriter {
            taken: Vec::new(alloc),
            room,
            failure,
            failures: 0,
        }
    }
}

impl Write for SlowWriter {
    fn write(&mut self, buf: &[u8]) -> io::Result<usize> {
        let count = buf.len().min(1).min(self.room);
        if count == 0 {
            self.failures = self.failures.saturating_add(1);
            return match self.failure {
                Some(kind) => Err(io::Error::from(kind)),
                None => Ok(0),
            };
        }
        self.taken.extend_from_slice(&buf[..count])?;
        self.room -= count;
        Ok(count)
    }

    fn flush(&mut self) -> io::Result<()> {
        Ok(())
    }
}

/// Whether a description that can't be read to its end ends a run so, with nothing written, and its reader isn't
/// asked again.
fn fails_in_description(alloc: Global) -> bool {
    let mut description = Source::new(DESCRIPTION, Some(ErrorKind::Interrupted));
    let mut script = Source::new(SCRIPT, None);
    let mut writer = SlowWriter::new(alloc, usize::MAX, None);
    let status = run_parts(alloc, &mut description, &mut script, &mut writer);
    status == Status::CannotRead(0) && writer.taken.is_empty() && description.ends == 1
}

/// A description that can't be read: nothing is written, and the reader isn't asked again.
#[test]
fn failing_description(rt: HostRuntime) {
    assert!(rt; fails_in_description(rt.alloc()));
}

/// Whether a script that can't be read behind this text ends a run so, with the answers written.
fn fails_in_script(alloc: Global, text: &str) -> bool {
    let mut description = Source::new(DESCRIPTION, None);
    let mut script = Source::new(text, Some(ErrorKind::Other));
    let mut writer = SlowWriter::new(alloc, usize::MAX, None);
    let status = run_parts(alloc, &mut description, &mut script, &mut writer);
    status == Status::CannotRead(1) && has_taken(&writer, ANSWERS.len()) && script.ends == 1
}

/// A script that can't be read to its end: the lines that had ended are answered, and no summary
/// follows.
#[test]
fn failing_script(rt: HostRuntime) -> Result<(), Fail> {
    let text = format!(in rt.alloc(); "{SCRIPT}drain b")?;
    assert!(rt; fails_in_script(rt.alloc(), text.as_str()));
    Ok(())
}

/// Whether a run ends so over a writer that takes as much as there is room for, and how often that was asked for more.
fn writes(
    alloc: Global,
    room: usize,
    failure: Option<ErrorKind>,
    expected: Status,
    failures: usize,
) -> bool {
    let mut description = Source::new(DESCRIPTION, None);
    let mut script = Source::new(SCRIPT, None);
    let mut writer = SlowWriter::new(alloc, room, failure);
    let status = run_parts(alloc, &mut description, &mut script, &mut writer);
    status == expected && has_taken(&writer, room) && writer.failures == failures
}

/// Whether a writer has taken the first bytes of the answers and of the summary behind them, as many as it had room
/// for.
fn has_taken(writer: &SlowWriter, room: usize) -> bool {
    begins(
        writer.taken.as_slice(),
        ANSWERS.as_bytes(),
        SUMMARY.as_bytes(),
        room,
    )
}

/// Whether a text is the first `count` bytes of two others, one behind the other, or all of them.
fn begins(text: &[u8], first: &[u8], second: &[u8], count: usize) -> bool {
    let (begin, rest) = text.split_at(text.len().min(first.len()));
    let all = first.len().saturating_add(second.len());
    text.len() == count.min(all) && first.starts_with(begin) && second.starts_with(rest)
}

/// A writer that takes one byte at a time gets all, and one that fails the first bytes, whether it
/// answers an error or takes nothing. It isn't asked again.
#[test]
fn slow_and_failing_writers(rt: HostRuntime) {
    for (room, failure, status, failures) in [
        (usize::MAX, None, Status::Done, 0),
        (0, None, Status::CannotWrite, 1),
        (20, Some(ErrorKind::Interrupted), Status::CannotWrite, 1),
        (
            ANSWERS.len() + 3,
            Some(ErrorKind::StorageFull),
            Status::CannotWrite,
            1,
        ),
    ] {
        assert!(rt;
            writes(rt.alloc(), room, failure, status, failures),
            "with room for {room}"
        );
    }
}
