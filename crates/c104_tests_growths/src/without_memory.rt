//! Parts of switches, images and streams that take no memory: with every growth refused each call answers as ever. They
//! fail where one takes some, and answers that there is none.
use crate::growths::{Growing, Refusal, takes_none};
use crate::outcomes::Outcome;
use crate::written::Page;
use c104_control::{Answer, Command, ControlBytes, read_command, read_reply, write_command};
use c104_crossbar::{Crossbar, Group};
use c104_interval::{Select, Table};
use c104_link::{InBuffer, OutBuffer};
use c104_regs::Registers;
use c104_stream::{Ahead, Kept};
use c104_switch::{Action, Reply, Switch};
use c104_tickets::{Terms, TicketWord};
use c104_token::Token;
use std::alloc::Global;
use std::marker::Brand;

/// Tickets from 7 on, for two seats.
pub const TERMS: Terms = Terms {
    first: 7,
    seats: 2,
    places: 0,
};

/// What is done without memory.
#[derive(Clone, Copy)]
enum Idle {
    /// Tokens go through an input buffer.
    Incoming,
    /// Tokens go through an output buffer.
    Outgoing,
    /// A register is set and read, and a table selects.
    Registers,
    /// An output is claimed and given back, and a group is found.
    Crossbar,
    /// A command and a reply are read and written.
    Control,
    /// The header of a packet goes through a switch, which is looked at and retired.
    Switch,
    /// Two seats draw tickets.
    Tickets,
    /// What was read is taken byte by byte, and what is kept is written.
    Streams,
}

impl Growing for Idle {
    fn call(&self, alloc: Global, refusal: Refusal) -> Outcome {
        match self {
            Idle::Incoming => came_in(alloc, refusal),
            Idle::Outgoing => went_out(alloc, refusal),
            Idle::Registers => set(alloc, refusal),
            Idle::Crossbar => claimed(alloc, refusal),
            Idle::Control => controlled(alloc, refusal),
            Idle::Switch => stepped(alloc, refusal),
            Idle::Tickets => drawn(alloc, refusal),
            Idle::Streams => streamed(alloc, refusal),
        }
    }
}

fn came_in(alloc: Global, refusal: Refusal) -> Outcome {
    let Ok(mut buffer) = InBuffer::new(alloc, 16) else {
        return Outcome::Wrong;
    };
    refusal.begin(alloc);
    let is_taken = is_taken(&mut buffer);
    buffer.clear();
    refusal.end(alloc);
    Outcome::done_if(is_taken && buffer.is_empty())
}

fn went_out(alloc: Global, refusal: Refusal) -> Outcome {
    let Ok(mut buffer) = OutBuffer::new(alloc) else {
        return Outcome::Wrong;
    };
    refusal.begin(alloc);
    let is_emitted = is_emitted(&mut buffer);
    buffer.clear();
    refusal.end(alloc);
    Outcome::done_if(is_emitted && buffer.is_empty())
}

fn is_taken(buffer: &mut InBuffer) -> bool {
    buffer.can_grant()
        && buffer.grant()
        && buffer.accept(Token::Byte(1)).is_ok()
        && buffer.first() == Some(Token::Byte(1))
        && buffer.take() == Some(Token::Byte(1))
        && buffer.accept(Token::Byte(2)).is_ok()
}

fn is_emitted(buffer: &mut OutBuffer) -> bool {
    buffer.can_be_credited()
        && buffer.credited()
        && buffer.put(Token::Eop).is_ok()
        && buffer.emit() == Some(Token::Eop)
        && buffer.put_all(&[Token::Byte(1), Token::Byte(2)])
        && buffer.len() == 2
}

fn set(alloc: Global, refusal: Refusal) -> Outcome {
    refusal.begin(alloc);
    let is_set = is_set() && Table::reset().select(5) == Select::Sink;
    refusal.end(alloc);
    Outcome::done_if(is_set)
}

fn is_set() -> bool {
    let mut registers = Registers::new();
    registers.poke(0x0140, 5).is_ok()
        && registers.peek(0x0140) == Ok(5)
        && Registers::settable(0x0140, 5).is_ok()
        && !registers.started()
}

fn claimed(alloc: Global, refusal: Refusal) -> Outcome {
    refusal.begin(alloc);
    let is_claimed = is_claimed() && Group::of(8, 2).contains(3);
    refusal.end(alloc);
    Outcome::done_if(is_claimed)
}

fn is_claimed() -> bool {
    let mut crossbar = Crossbar::new();
    let Some(claim) = crossbar.claim(3) else {
        return false;
    };
    let is_taken = claim.output() == 3 && !crossbar.free(3);
    crossbar.release(claim);
    is_taken && crossbar.free(3)
}

fn controlled(alloc: Global, refusal: Refusal) -> Outcome {
    refusal.begin(alloc);
    let is_read = is_command_read() && read_reply(&[0x85]) == Some(Answer::Poked);
    refusal.end(alloc);
    Outcome::done_if(is_read)
}

fn is_command_read() -> bool {
    let bytes = write_command(&Command::Identify);
    read_command(bytes.as_slice()) == Ok(Command::Identify)
}

fn stepped(alloc: Global, refusal: Refusal) -> Outcome {
    let Ok(mut switch) = Switch::new(alloc, 16) else {
        return Outcome::Wrong;
    };
    refusal.begin(alloc);
    let is_carried = start(&mut switch) && carries(&mut switch) && is_seen(&switch);
    switch.retire();
    refusal.end(alloc);
    Outcome::done_if(is_carried)
}

/// Whether a switch replies to a command.
fn takes(switch: &mut Switch, bytes: &[u8]) -> bool {
    if bytes.len() > 8 {
        return false;
    }
    let reply = switch.step(Action::Control(ControlBytes::new(bytes)));
    matches!(reply, Reply::Control(_))
}

/// The headers 0 and 1 select link 1 at link 0, and the switch is started.
fn start(switch: &mut Switch) -> bool {
    takes(switch, &[0x05, 0x40, 0x01, 0x02, 0x00, 0x00, 0x00])
        && takes(switch, &[0x05, 0x80, 0x01, 0x01, 0x00, 0x00, 0x00])
        && takes(switch, &[0x01])
}

/// Whether the header of a packet goes from link 0 to link 1.
fn carries(switch: &mut Switch) -> bool {
    switch.step(Action::CreditOut(0)) == Reply::Done
        && switch.step(Action::Enter(0, Token::Byte(1))) == Reply::Done
        && switch.step(Action::Input(0, 0)) == Reply::Done
        && switch.step(Action::Claim(0, 1)) == Reply::Done
        && switch.step(Action::CreditIn(1)) == Reply::Done
        && switch.step(Action::Leave(1)) == Reply::Token(Token::Byte(1))
}

fn is_seen(switch: &Switch) -> bool {
    switch.started() && switch.view(0).is_some() && !switch.ready(&Action::Leave(1))
}

fn drawn(alloc: Global, refusal: Refusal) -> Outcome {
    let Ok((word, mut second)) = TicketWord::new(alloc, TERMS) else {
        return Outcome::Wrong;
    };
    refusal.begin(alloc);
    let mut first = word.split(&mut second);
    let drawn = [
        word.draw::<Brand>(&mut first),
        word.draw::<Brand>(&mut second),
    ];
    word.join(&mut second, first);
    let next = word.close(second);
    refusal.end(alloc);
    Outcome::done_if(drawn == [7, 8] && next == 9)
}

fn streamed(alloc: Global, refusal: Refusal) -> Outcome {
    let Ok(mut ahead) = Ahead::new(alloc) else {
        return Outcome::Wrong;
    };
    let Ok(mut kept) = Kept::new(alloc) else {
        return Outcome::Wrong;
    };
    let Some(mut page) = Page::new(alloc) else {
        return Outcome::Wrong;
    };
    refusal.begin(alloc);
    let is_read = is_read(&mut ahead);
    let is_written = is_written(&mut kept, &mut page);
    refusal.end(alloc);
    Outcome::done_if(is_read && is_written)
}

fn is_read(ahead: &mut Ahead) -> bool {
    let mut text: &[u8] = b"01 eop\n";
    ahead.next_byte(&mut text) == Ok(Some(b'0'))
}

fn is_written(kept: &mut Kept, page: &mut Page) -> bool {
    kept.add(page, b"1: done\n").is_ok()
        && kept.flush(page).is_ok()
        && page.written() == b"1: done\n".as_slice()
}

/// Each of them, by the calls that it makes.
const CALLS: [(&str, Idle); 8] = [
    (
        "InBuffer::grant, InBuffer::accept, InBuffer::take",
        Idle::Incoming,
    ),
    (
        "OutBuffer::credited, OutBuffer::put, OutBuffer::put_all, OutBuffer::emit",
        Idle::Outgoing,
    ),
    (
        "Registers::poke, Registers::peek, Registers::settable, Table::select",
        Idle::Registers,
    ),
    (
        "Crossbar::claim, Crossbar::release, Group::of",
        Idle::Crossbar,
    ),
    ("read_command, write_command, read_reply", Idle::Control),
    (
        "Switch::step, Switch::ready, Switch::view, Switch::retire",
        Idle::Switch,
    ),
    (
        "TicketWord::split, TicketWord::draw, TicketWord::close",
        Idle::Tickets,
    ),
    ("Ahead::next_byte, Kept::add, Kept::flush", Idle::Streams),
];

#[test]
fn parts(rt: HostRuntime) {
    for (name, call) in CALLS {
        assert!(rt; takes_none(&rt, name, &call));
    }
}
