//! Copies of what a node by itself keeps.
ghost use Rattle.std.specs.Prelude.{◌≡◌, IfOk};
ghost use Rattle.c104_node.specs.StartNumbers.{start_numbers};

use super::Node;
use crate::acts::{Act, ActOf, Entry, same_reply};
use crate::sent_packet::SentPacket;
use c104_control::ControlBytes;
use c104_switch::{Action, ActionOf};
use c104_token::NoMemory;
use std::alloc::Global;

impl Node {
    /// A copy of what the node did since its start. The only error is out of memory.
    pub fn copy_trace(&self, alloc: Global) -> Result<Vec<Entry>, NoMemory>
        ensures { IfOk result (λ copy. copy.items ≡ self.now.0.trace) }
    {
        copy_entries(alloc, self.trace())
    }

    /// Where the node started, as numbers: of a switch 1 or 0 as it is started or not, its writable registers by address,
    /// and then Sunk, Short, credit and granted link by link; of a terminal credit and granted. The only error is out of
    /// memory.
    pub fn copy_start(&self, alloc: Global) -> Result<Vec<u32>, NoMemory>
        ensures { IfOk result (λ list. list.items ≡ start_numbers self.now.0.start) }
    {
        self.start.numbers(alloc)
    }
}

/// A copy of entries. The only error is out of memory.
pub fn copy_entries(alloc: Global, entries: &[Entry]) -> Result<Vec<Entry>, NoMemory>
    ensures { IfOk result (λ copy. copy.items ≡ entries.now) }
{
    let mut list = Vec::with_capacity(alloc, entries.len())?;
    for entry in entries {
        list.push(copy_entry(entry)?)?;
    }
    Ok(list)
}

/// A copy of an entry.
fn copy_entry(entry: &Entry) -> Result<Entry, NoMemory>
    ensures { IfOk result (λ copy. copy ≡ entry.now) }
{
    let act = copy_act(&entry.act)?;
    Ok(Entry {
        ticket: entry.ticket,
        act,
        reply: same_reply(&entry.reply),
        seat: entry.seat,
    })
}

/// A copy of an act.
fn copy_act(act: &Act) -> Result<Act, NoMemory>
    ensures { IfOk result (λ copy. copy ≡ act.now) }
{
    match act {
        ActOf::Step(action) => Ok(ActOf::Step(same_action(action))),
        ActOf::Send(packet) => {
            let sent = SentPacket::copy_of(packet.packet())?;
            Ok(ActOf::Send(sent))
        }
        ActOf::Drain => Ok(ActOf::Drain),
        ActOf::Leave => Ok(ActOf::Leave),
        ActOf::Enter(token) => Ok(ActOf::Enter(*token)),
        ActOf::CreditOut => Ok(ActOf::CreditOut),
        ActOf::CreditIn => Ok(ActOf::CreditIn),
    }
}

/// The same action.
fn same_action(action: &Action) -> Action
    ensures { result ≡ action.now }
{
    match action {
        ActionOf::Enter(link, token) => ActionOf::Enter(*link, *token),
        ActionOf::Leave(link) => ActionOf::Leave(*link),
        ActionOf::CreditOut(link) => ActionOf::CreditOut(*link),
        ActionOf::CreditIn(link) => ActionOf::CreditIn(*link),
        ActionOf::Input(link, word) => ActionOf::Input(*link, *word),
        ActionOf::Claim(input, output) => ActionOf::Claim(*input, *output),
        ActionOf::Control(bytes) => ActionOf::Control(ControlBytes::new(bytes.as_slice())),
    }
}
