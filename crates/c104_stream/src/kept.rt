//! What is to be written, and is kept until much has come together.
ghost use Rattle.std.specs.{Io.KnownBytes.Appends, Prelude.{IfOk, OnErr, OnOk, [], length, ◌++◌, ◌+◌, ◌<◌, ◌≡◌, ◌≤◌, ◌⊎◌}};
ghost use Rattle.c104_stream.specs.Writing.{AppendsAndKeeps, AppendsPrefix};

use crate::writing::{CannotWrite, write_whole};
use c104_token::NoMemory;
use std::alloc::Global;
use std::io::Write;
use std::marker::Model;

/// The most bytes that are kept: 64 KiB.
const ROOM: usize = 65_536;

/// What is to be written and isn't yet, at most 64 KiB. Contracts see it as the list of those bytes.
#[derive(Drop)]
pub struct Kept {
    bytes: Vec<u8>,
    count: usize,
}

impl Model for Kept {
    ghost use Rattle.std.specs.Prelude.{ℕ, ◌≡◌, ◌≤◌, List, vec_len, take};

    ghost Value = { List ℕ };

    ghost view = { λ kept. take kept.count kept.bytes.items };

    ghost invariant = { λ kept. (kept.count ≤ 65536) × (vec_len kept.bytes ≡ 65536) };
}

impl Kept {
    /// Nothing is kept yet. Its room is taken now, so that no further call needs memory.
    /// The only error is out of memory.
    pub fn new(alloc: Global) -> Result<Self, NoMemory>
        ensures { IfOk result (λ kept. kept ≡ []) }
    {
        let bytes = vec![in alloc; 0u8; ROOM]?;
        Ok(Kept { bytes, count: 0 })
    }

    /// The text joins what is kept. Where it doesn't fit, what was kept is written before; and a text
    /// that never fits is written at once. After a fault nothing is kept.
    pub fn add<W: Write>(&mut self, writer: &mut W, text: &[u8]) -> Result<(), CannotWrite>
        ensures kept { OnOk result (AppendsAndKeeps (W.contents writer.old) (W.contents writer.new) self.new
            (self.old ++ text.now)) }
        ensures prefix { OnErr result (AppendsPrefix (W.contents writer.old) (W.contents writer.new)
            (self.old ++ text.now)) }
        ensures empty { OnErr result (self.new ≡ []) }
    {
        self.make_room(writer, text.len())?;
        if text.len() > ROOM {
            write_whole(writer, text)?;
            return Ok(());
        }
        self.put(text);
        Ok(())
    }

    /// Writes what is kept. Nothing is kept then, also after a fault, so that no byte is written twice.
    pub fn flush<W: Write>(&mut self, writer: &mut W) -> Result<(), CannotWrite>
        ensures written { OnOk result (Appends (W.contents writer.old) (W.contents writer.new) self.old) }
        ensures empty { self.new ≡ [] }
        ensures prefix { OnErr result (AppendsPrefix (W.contents writer.old) (W.contents writer.new) self.old) }
    {
        let count = self.count;
        self.count = 0;
        write_whole(writer, &self.bytes[..count])
    }

    /// Writes what is kept, where a text of this size doesn't fit beside it.
    fn make_room<W: Write>(&mut self, writer: &mut W, size: usize) -> Result<(), CannotWrite>
        ensures kept { OnOk result (AppendsAndKeeps (W.contents writer.old) (W.contents writer.new) self.new self.old) }
        ensures room { OnOk result ((length self.new + size ≤ ROOM) ⊎ ((self.new ≡ []) × (ROOM < size))) }
        ensures prefix { OnErr result (AppendsPrefix (W.contents writer.old) (W.contents writer.new) self.old) }
        ensures empty { OnErr result (self.new ≡ []) }
    {
        if size <= ROOM - self.count {
            return Ok(());
        }
        self.flush(writer)
    }

    /// The text joins what is kept, where it fits.
    fn put(&mut self, text: &[u8])
        requires { length self.old + length text.now ≤ ROOM }
        ensures { self.new ≡ self.old ++ text.now }
    {
        let end = self.count + text.len();
        self.bytes[self.count..end].copy_from_slice(text);
        self.count = end;
    }
}
