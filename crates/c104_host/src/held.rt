//! Texts that are read before anything is done by them.
ghost use Rattle.std.specs.Prelude.{IfOk, MatchResult, Some, [], length, ◌+◌, ◌<◌, ◌≡◌, ◌≤◌};
ghost use Rattle.c104_host.specs.Holding.{GaveUpTo, HoldsUpTo, TakesPiece};

use std::alloc::{AllocError, Global};
use std::io;
use std::io::Read;
use std::marker::Model;

/// The most bytes that a reader is asked for at once.
const PIECE: usize = 8192;

/// How the reading of a text ended.
#[derive(Clone, Copy, Debug, PartialEq, Eq)]
pub enum TextEnd {
    /// At the text's end, or past its limit.
    Whole,
    /// By a fault, of which the system may have a number.
    Fault(Option<i32>),
}

/// What was read of a text before anything is done by it. It gives its bytes, and then, each time, its end, or the fault by
/// which its reading ended. Contracts see the bytes that it hasn't given, and whether no fault follows them.
#[derive(Drop)]
pub struct HeldText {
    bytes: Vec<u8>,
    given: usize,
    end: TextEnd,
}

impl Model for HeldText {
    ghost use Rattle.std.specs.Prelude.{drop, vec_len, ◌≤◌};
    ghost use Rattle.c104_host.specs.{Ends.is_whole, Texts.Held};

    ghost Value = { Held };

    ghost view = { λ text. record { left = drop text.given text.bytes.items; is_whole = is_whole text.end } };

    ghost invariant = { λ text. text.given ≤ vec_len text.bytes };
}

impl HeldText {
    ghost use Rattle.c104_host.specs.Texts.{behind};

    /// The bytes that it hasn't given.
    pub fn as_slice(&self) -> &[u8]
        ensures { result.now ≡ self.now.left }
    {
        &self.bytes[self.given..]
    }

    /// Bytes come before those that it hasn't given. The only error is out of memory, and then it is as it was.
    pub fn put_before(&mut self, front: Vec<u8>) -> Result<(), AllocError>
        ensures { MatchResult result (λ _. self.new ≡ behind front.items self.old) (λ _. self.new ≡ self.old) }
    {
        let mut bytes = front;
        bytes.extend_from_slice(self.as_slice())?;
        self.bytes = bytes;
        self.given = 0;
        Ok(())
    }

    /// The system's number of the fault by which its reading ended, where one did and the system has one.
    pub fn fault(&self) -> Option<i32> {
        match self.end {
            TextEnd::Whole => None,
            TextEnd::Fault(number) => number,
        }
    }
}

impl Read for HeldText {
    ghost remaining = { λ text. Some text.left };

    fn read(&mut self, buf: &mut [u8]) -> io::Result<usize> {
        let mut left = &self.bytes[self.given..];
        let count = left.read(buf)?;
        if count == 0
            && !buf.is_empty()
            && let TextEnd::Fault(number) = self.end
        {
            return Err(error_of(number));
        }
        self.given += count;
        Ok(count)
    }
}

/// The error of this number, or another where there is none.
fn error_of(number: Option<i32>) -> io::Error {
    match number {
        Some(number) => io::Error::from_raw_os_error(number),
        None => io::Error::from(io::ErrorKind::Other),
    }
}

/// Reads a text to its end, or `most` bytes and one more, or up to a fault. The reader is asked for no more than that. The only
/// error is out of memory.
pub fn hold<R: Read>(alloc: Global, most: usize, reader: &mut R) -> Result<HeldText, AllocError>
    ensures { IfOk result (λ text.
        HoldsUpTo most (R.remaining reader.old) (R.remaining reader.new) text) }
{
    let mut bytes = Vec::new(alloc);
    let end = fill(alloc, most, reader, &mut bytes)?;
    Ok(HeldText {
        bytes,
        given: 0,
        end,
    })
}

/// Takes all that a reader gives, up to its end, a fault, or `most` bytes and one more.
fn fill<R: Read>(
    alloc: Global,
    most: usize,
    reader: &mut R,
    bytes: &mut Vec<u8>,
) -> Result<TextEnd, AllocError>
    requires { bytes.old.items ≡ [] }
    ensures { IfOk result (λ end.
        GaveUpTo most (R.remaining reader.old) (R.remaining reader.new) bytes.new.items end) }
{
    let mut piece = vec![in alloc; 0u8; PIECE]?;
    while bytes.len() <= most {
        let room = room_for(most, bytes.len());
        match take_piece(reader, &mut piece[..room], bytes)? {
            Some(end) => return Ok(end),
            None => {}
        }
    }
    Ok(TextEnd::Whole)
}

/// How many bytes are asked for at once behind the first `count`, where one more than `most` may come.
fn room_for(most: usize, count: usize) -> usize
    requires { count ≤ most }
    ensures some { 0 < result }
    ensures few { count + result ≤ most + 1 }
    ensures fits { result ≤ PIECE }
{
    PIECE.min((most - count).saturating_add(1))
}

/// Asks a reader once for bytes, and adds what it gives. Says how the text ended, if it did.
#[tactic(auto, using(crate::proofs::Takings::keeps_all))]
fn take_piece<R: Read>(
    reader: &mut R,
    piece: &mut [u8],
    bytes: &mut Vec<u8>,
) -> Result<Option<TextEnd>, AllocError>
    requires { 0 < length piece.old }
    ensures { IfOk result (λ end. TakesPiece (length piece.old)
        (R.remaining reader.old) (R.remaining reader.new) bytes.old.items bytes.new.items end) }
{
    let count = match reader.read(piece) {
        Ok(0) => return Ok(Some(TextEnd::Whole)),
        Ok(count) => count,
        Err(error) => return Ok(Some(TextEnd::Fault(error.raw_os_error()))),
    };
    bytes.extend_from_slice(&piece[..count])?;
    Ok(None)
}
