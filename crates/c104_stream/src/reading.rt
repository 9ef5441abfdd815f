//! Bytes, one by one, from a reader that is asked once for each piece of them.
ghost use Rattle.std.specs.{Io.KnownBytes.{Consumes, IsAtEnd, Keeps, prepend_known}, List.before_first, Prelude.{Err, IfOk, IfSome}};
ghost use Rattle.std.specs.Prelude.{IsTrue, MatchBool, MatchResult, OnOk, [], drop, length, position, take, ◌++◌, ◌<◌, ◌==◌, ◌↔◌, ◌≡◌, ◌≤◌};
ghost use Rattle.c104_stream.specs.Reading.{GivesByte, StopsWithin, TakesUpTo, piece_before};
ghost use Rattle.c104_stream.specs.declared.reading.ReadFault.TheVariants as fault;

use c104_token::NoMemory;
use memchr::memchr;
use std::alloc::{AllocError, Global};
use std::io::Read;
use std::marker::Model;

/// The most bytes that a reader is asked for at once.
const PIECE: usize = 8192;

/// Why a text can't be read.
#[derive(Clone, Copy, Debug, PartialEq, Eq)]
pub enum ReadFault {
    /// The reader answered an error. It isn't asked again.
    CannotRead,
    /// Out of memory.
    NoMemory,
}

impl From<AllocError> for ReadFault {
    ghost from_gives = { λ _ e. e ≡ fault.NoMemory };

    fn from(_error: AllocError) -> ReadFault {
        ReadFault::NoMemory
    }
}

impl From<NoMemory> for ReadFault {
    ghost from_gives = { λ _ e. e ≡ fault.NoMemory };

    fn from(_error: NoMemory) -> ReadFault {
        ReadFault::NoMemory
    }
}

/// What was read from a reader and not yet taken. Contracts see it as the list of those bytes.
#[derive(Drop)]
pub struct Ahead {
    piece: Vec<u8>,
    start: usize,
    end: usize,
}

impl Model for Ahead {
    ghost use Rattle.std.specs.Prelude.{ℕ, ◌≡◌, ◌≤◌, List, vec_len, slice_range};

    ghost Value = { List ℕ };

    ghost view = { λ ahead. slice_range ahead.piece.items ahead.start ahead.end };

    ghost invariant = { λ ahead. (ahead.start ≤ ahead.end)
        × (ahead.end ≤ vec_len ahead.piece) × (vec_len ahead.piece ≡ 8192) };
}

impl Ahead {
    /// Nothing is read yet. The only error is out of memory.
    pub fn new(alloc: Global) -> Result<Self, NoMemory>
        ensures { IfOk result (λ ahead. ahead ≡ []) }
    {
        let piece = vec![in alloc; 0u8; PIECE]?;
        Ok(Ahead {
            piece,
            start: 0,
            end: 0,
        })
    }

    /// Whether nothing is left of what the reader gave, so that it is asked for the next byte.
    pub fn is_empty(&self) -> bool
        ensures { IsTrue result ↔ (self.now ≡ []) }
    {
        self.start >= self.end
    }

    /// The next byte, or None at the end. The reader is asked only where nothing is left of what it gave
    /// before, and then once.
    pub fn next_byte<R: Read>(&mut self, reader: &mut R) -> Result<Option<u8>, ReadFault>
        ensures { MatchResult result
            (λ next. GivesByte (prepend_known self.old (R.remaining reader.old))
            (prepend_known self.new (R.remaining reader.new)) next)
            (λ _. (self.old ≡ []) × (self.new ≡ []) ×
            Keeps (R.remaining reader.old) (R.remaining reader.new)) }
    {
        if self.start >= self.end {
            self.read_piece(reader)?;
        }
        if self.start >= self.end {
            return Ok(None);
        }
        let byte = self.piece[self.start];
        self.start += 1;
        Ok(Some(byte))
    }

    /// Takes what was read before the first such byte, which stays, but no more than `most` bytes, and adds
    /// it to the text. Says how many bytes it took. The reader isn't asked. The only error is out of memory,
    /// and then nothing is taken, and the text is as it was.
    pub fn take_before(
        &mut self,
        byte: u8,
        most: usize,
        text: &mut Vec<u8>,
    ) -> Result<usize, NoMemory>
        ensures { MatchResult result
            (λ count. (count ≡ length (piece_before byte most self.old)) × (count ≤ most) ×
            (self.old ≡ piece_before byte most self.old ++ self.new) ×
            (text.new.items ≡ text.old.items ++ piece_before byte most self.old))
            (λ _. (self.new ≡ self.old) × (text.new.items ≡ text.old.items)) }
    {
        let ahead = &self.piece[self.start..self.end];
        let piece = before_first(&ahead[..most.min(ahead.len())], byte);
        text.extend_from_slice(piece)?;
        let count = piece.len();
        self.start += count;
        Ok(count)
    }

    /// Takes what was read, but no more than `most` bytes, and adds it to the text. The reader isn't asked. The only error is
    /// out of memory.
    fn take(&mut self, most: usize, text: &mut Vec<u8>) -> Result<(), NoMemory>
        ensures { OnOk result ((self.new ≡ drop most self.old) × (text.new.items ≡ text.old.items ++ take most self.old)) }
    {
        let ahead = &self.piece[self.start..self.end];
        let piece = &ahead[..most.min(ahead.len())];
        text.extend_from_slice(piece)?;
        self.start += piece.len();
        Ok(())
    }

    /// Asks the reader for one piece, in place of what was left.
    fn read_piece<R: Read>(&mut self, reader: &mut R) -> Result<(), ReadFault>
        ensures { MatchResult result
            (λ _. Consumes (R.remaining reader.old) (R.remaining reader.new) self.new ×
            (self.new ≡ [] → IsAtEnd (R.remaining reader.new)))
            (λ _. (self.new ≡ []) × Keeps (R.remaining reader.old) (R.remaining reader.new)) }
    {
        self.start = 0;
        self.end = 0;
        match reader.read(self.piece.as_mut_slice()) {
            Ok(count) => {
                self.end = count;
                Ok(())
            }
            Err(_) => Err(ReadFault::CannotRead),
        }
    }
}

/// The bytes before the first such byte, or all where there is none.
fn before_first(bytes: &[u8], byte: u8) -> &[u8]
    ensures value { result.now ≡ before_first (λ other. other == byte) bytes.now }
    ensures short { length result.now ≤ length bytes.now }
{
    match place_of(byte, bytes) {
        Some(place) => &bytes[..place],
        None => bytes,
    }
}

/// The first place of a byte.
#[tactic(auto, using(crate::proofs::FoundBytes::found_first))]
fn place_of(byte: u8, bytes: &[u8]) -> Option<usize>
    ensures place { result ≡ position (λ other. other == byte) bytes.now }
    ensures inside { IfSome result (λ place. place < length bytes.now) }
{
    memchr(byte, bytes)
}

/// Reads all bytes to the end, or `most` bytes and one more. Where the reader fails, it has given at most `most`
/// bytes.
pub fn read_up_to<R: Read>(alloc: Global, most: usize, reader: &mut R) -> Result<Vec<u8>, ReadFault>
    ensures taken { IfOk result (λ bytes.
        TakesUpTo most (R.remaining reader.old) (R.remaining reader.new) bytes.items) }
    ensures stopped { result ≡ Err fault.CannotRead →
        StopsWithin most (R.remaining reader.old) (R.remaining reader.new) }
{
    let mut ahead = Ahead::new(alloc)?;
    let mut bytes = Vec::new(alloc);
    while takes_another(bytes.len(), most) {
        let Some(byte) = ahead.next_byte(reader)? else {
            return Ok(bytes);
        };
        bytes.push(byte).map_err(AllocError::from)?;
        ahead.take(most.saturating_sub(bytes.len()), &mut bytes)?;
    }
    Ok(bytes)
}

/// Whether one more byte is taken after `count`: the one past the limit shows that a text is too long.
fn takes_another(count: usize, most: usize) -> bool
    ensures { MatchBool result (count ≤ most) (most < count) }
{
    count <= most
}
