//! What calls write, and what is to be written.
use crate::outcomes::Outcome;
use std::alloc::Global;
use std::io;
use std::io::Write;

/// The lines of the first run.
pub const SCRIPT: &[u8] =
    b"send a 01 aa eop\ncredit A.0\ncross a\ncross a\ncross a\ninput A.0\nclaim A 0 1\ncredit b\n\
    cross A.1\ninput A.0\ninput A.0\ncross A.1\ncross A.1\ndrain b\ndrain b\ndrain b\n";

/// Their answers.
pub const ANSWERS: &[u8] =
    b"1: done\n2: done\n3: token 01\n4: token aa\n5: token eop\n6: done\n7: done\n8: done\n\
    9: token 01\n10: done\n11: done\n12: token aa\n13: token eop\n14: token 01\n15: token aa\n16: token eop\n";

/// The summary of a run that brings the packet to b.
pub const SUMMARY: &[u8] = b"b: 01 aa eop from a 0\n";

/// The packets of a storm.
pub const SENDS: &[u8] = b"send a 01 aa eop\nsend b 00 bb eom\n";

/// The answers to two lines.
pub const TWO_ANSWERS: &[u8] = b"1: done\n2: done\n";

/// What a storm of them shows at its end.
pub const STORM_END: &[u8] = b"audit ok\na: 00 bb eom from b 0\nb: 01 aa eop from a 0\n";

/// A writer to a list with room for all that is written.
#[derive(Drop)]
pub struct Page(Vec<u8>);

impl Page {
    pub fn new(alloc: Global) -> Option<Page> {
        Some(Page(Vec::with_capacity(alloc, 65536).ok()?))
    }

    /// What was written.
    pub fn written(&self) -> &[u8] {
        self.0.as_slice()
    }

    /// What a call came to that has written this page: answers to lines, and then an end. Out of memory it has written
    /// whole lines of the answers, the first or all, and nothing of the end. It fails where a part of a line is written, or
    /// an answer to a line that isn't answered.
    pub fn judge(&self, found: Outcome, answers: &[u8], end: &[u8]) -> Outcome {
        let written = self.written();
        match found {
            Outcome::Done => Outcome::done_if(written.strip_prefix(answers) == Some(end)),
            found => found.if_kept(answers.starts_with(written) && ends_in_a_line(written)),
        }
    }
}

impl Write for Page {
    fn write(&mut self, buf: &[u8]) -> io::Result<usize> {
        self.0.extend_from_slice(buf)?;
        Ok(buf.len())
    }

    fn flush(&mut self) -> io::Result<()> {
        Ok(())
    }
}

fn ends_in_a_line(written: &[u8]) -> bool {
    match written.last() {
        Some(byte) => *byte == b'\n',
        None => true,
    }
}
