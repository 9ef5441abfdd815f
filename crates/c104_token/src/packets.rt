ghost use Rattle.std.specs.Prelude.{IfOk, IsTrue, [], map, ◌++◌, ◌↔◌, ◌∷◌, ◌≡◌};
ghost use Rattle.c104_token.specs.{Cut.IsCut, Packets.packet_tokens, Tokens.Byte};

use crate::faults::NoMemory;
use crate::list::{Bytes, Items};
use crate::tokens::{Mark, Token};
use std::alloc::{AllocError, Global};
use std::iter::once;
use std::mem;

/// What a terminal sends and receives: bytes, of which the first one or two are its header where it
/// has any, and one terminator.
#[derive(Debug, Drop)]
pub struct Packet {
    /// The header and the body; a packet may be empty, and a link may delete its header.
    pub bytes: Bytes,
    /// How the packet ends.
    pub mark: Mark,
}

impl Clone for Packet {
    ghost is_clone = { λ packet copy. copy ≡ packet };

    fn clone(&self) -> Result<Self, AllocError> {
        let bytes = self.bytes.clone()?;
        Ok(Packet {
            bytes,
            mark: self.mark,
        })
    }
}

impl Packet {
    /// Whether both have the same bytes and the same mark.
    pub fn is_same(&self, other: &Packet) -> bool
        ensures { IsTrue result ↔ (self.now ≡ other.now) }
    {
        self.mark == other.mark && self.bytes.as_slice() == other.bytes.as_slice()
    }
}

/// The tokens of a packet: one for each byte, and then its mark. It fails only out of memory.
pub fn packet_tokens(alloc: Global, packet: &Packet) -> Result<Vec<Token>, NoMemory>
    ensures { IfOk result (λ list. list.items ≡ packet_tokens packet.now) }
{
    Ok(all_tokens(alloc, packet.bytes.as_slice(), packet.mark.token())?)
}

/// One token for each byte, and then the last token.
fn all_tokens(alloc: Global, bytes: &[u8], last: Token) -> Result<Vec<Token>, AllocError>
    ensures { IfOk result (λ list. list.items ≡ map Byte bytes.now ++ last ∷ []) }
{
    bytes
        .iter()
        .map(|byte| Token::Byte(*byte))
        .chain(once(last))
        .collect(alloc)
}

/// Cuts tokens after each mark. Gives the whole packets, and how many tokens at the end belong
/// to a packet whose mark has not come. It fails only out of memory.
pub fn cut_packets(alloc: Global, list: &[Token]) -> Result<(Vec<Packet>, usize), NoMemory>
    ensures { IfOk result (λ cut. IsCut list.now cut.0.items cut.1) }
{
    let mut packets = Vec::new(alloc);
    let mut bytes = Vec::new(alloc);
    for token in list {
        match *token {
            Token::Byte(byte) => bytes.push(byte)?,
            Token::Eop => packets.push(finished(alloc, &mut bytes, Mark::Eop))?,
            Token::Eom => packets.push(finished(alloc, &mut bytes, Mark::Eom))?,
        }
    }
    Ok((packets, bytes.len()))
}

/// The packet of the bytes read so far, which begin anew.
fn finished(alloc: Global, bytes: &mut Vec<u8>, mark: Mark) -> Packet
    ensures packet { result ≡ record { bytes = bytes.old.items; mark = mark } }
    ensures anew { bytes.new.items ≡ [] }
{
    Packet {
        bytes: Items::new(mem::replace(bytes, Vec::new(alloc))),
        mark,
    }
}
