//! Copies of terminals.
ghost use Rattle.std.specs.Prelude.{◌≡◌, IfOk};

use super::{TerminalOf, TerminalPacket};
use c104_link::InBufferOf;
use c104_token::{NoMemory, TokenKind};
use std::alloc::Global;

impl<T: TokenKind> TerminalOf<T> {
    /// A copy of the terminal, with what it sent, what waits and what arrived. The only error is out of memory.
    pub fn copy(&self, alloc: Global) -> Result<Self, NoMemory>
        ensures { IfOk result (λ t. t ≡ self.now) }
    {
        let input = copy_input(alloc, &self.input)?;
        let sent = copy_sent(alloc, self.sent.as_slice())?;
        let arrived = self.arrived.copy(alloc)?;
        Ok(TerminalOf {
            input,
            sent,
            next: self.next,
            place: self.place,
            waiting: self.waiting,
            credit: self.credit,
            arrived,
        })
    }
}

/// A copy of an input buffer: an empty one that has granted all of its tokens takes them in. The only error is out of
/// memory.
fn copy_input<T: TokenKind>(alloc: Global, input: &InBufferOf<T>) -> Result<InBufferOf<T>, NoMemory>
    ensures { IfOk result (λ copy. copy ≡ input.now) }
{
    let granted = input.len() + input.granted();
    let mut copy = InBufferOf::granting(alloc, input.cap(), granted)?;
    for index in 0..input.len() {
        let Some(token) = input.get(index) else {
            unreachable!();
        };
        let Ok(()) = copy.accept(token) else {
            unreachable!();
        };
    }
    Ok(copy)
}

/// A copy of packets that were sent. The only error is out of memory.
fn copy_sent(alloc: Global, sent: &[TerminalPacket]) -> Result<Vec<TerminalPacket>, NoMemory>
    ensures { IfOk result (λ copy. copy.items ≡ sent.now) }
{
    let mut list = Vec::with_capacity(alloc, sent.len())?;
    for posted in sent {
        let packet = posted.packet.clone()?;
        list.push(TerminalPacket {
            packet,
            terminal: posted.terminal,
        })?;
    }
    Ok(list)
}
