//! Bytes to a writer.
ghost use Rattle.std.specs.{Io.KnownBytes.Appends, Prelude.{OnErr, OnOk}};
ghost use Rattle.c104_stream.specs.Writing.{AppendsAndKeeps, AppendsPrefix};

use std::io::Write;

/// The writer answered an error, or took nothing. It isn't asked again.
#[derive(Clone, Copy, Debug, PartialEq, Eq)]
pub struct CannotWrite;

/// Writes all of the bytes; where it fails, only a prefix of them, and some are left.
pub fn write_whole<W: Write>(writer: &mut W, bytes: &[u8]) -> Result<(), CannotWrite>
    ensures all { OnOk result (Appends (W.contents writer.old) (W.contents writer.new) bytes.now) }
    ensures prefix { OnErr result (AppendsPrefix (W.contents writer.old) (W.contents writer.new) bytes.now) }
{
    let rest = write_front(writer, bytes);
    if rest.is_empty() {
        return Ok(());
    }
    Err(CannotWrite)
}

/// Writes what the writer takes, up to a fault. What it gives is still to be written.
fn write_front<'a, W: Write>(writer: &mut W, bytes: &'a [u8]) -> &'a [u8]
    ensures { AppendsAndKeeps (W.contents writer.old) (W.contents writer.new) result.now bytes.now }
{
    let mut rest = bytes;
    while !rest.is_empty() {
        match writer.write(rest) {
            Ok(0) | Err(_) => return rest,
            Ok(count) => rest = &rest[count..],
        }
    }
    rest
}
