//! Terminals by themselves, which a refused call leaves as they were.
use crate::calls::packet;
use crate::growths::{Growing, Refusal, is_right};
use crate::outcomes::Outcome;
use c104_node::{ActOf, NodeOf, TerminalOf, TerminalStart};
use c104_switch::ReplyOf;
use c104_token::{MAX_PACKET_BYTES, NoMemory, Packet, Token};
use std::alloc::Global;

type Terminal = TerminalOf<Token>;

/// How a terminal is made.
#[derive(Clone, Copy)]
enum Maker {
    New,
    FromStart,
    Copy,
}

/// A terminal is made.
#[derive(Drop)]
struct Making<'a>(&'a Terminal, Maker);

impl Growing for Making<'_> {
    fn call(&self, alloc: Global, refusal: Refusal) -> Outcome {
        let start = TerminalStart::new(16);
        refusal.begin(alloc);
        let made: Result<Terminal, NoMemory> = match self.1 {
            Maker::New => TerminalOf::new(alloc, 16),
            Maker::FromStart => TerminalOf::from_start(alloc, &start),
            Maker::Copy => self.0.copy(alloc),
        };
        refusal.end(alloc);
        Outcome::of(made)
    }
}

/// A terminal at which a token came in.
fn terminal_with_token(alloc: Global) -> Option<Terminal> {
    let mut terminal = TerminalOf::new(alloc, 16).ok()?;
    if terminal.credit_out() && terminal.enter(Token::Byte(1)) {
        Some(terminal)
    } else {
        None
    }
}

/// A terminal sends a packet. Where it is refused, nothing waits there.
#[derive(Drop)]
struct Sending<'a>(&'a Packet);

impl Growing for Sending<'_> {
    fn call(&self, alloc: Global, refusal: Refusal) -> Outcome {
        let Some(mut terminal) = terminal_with_token(alloc) else {
            return Outcome::Wrong;
        };
        if self.0.bytes.as_slice().len() > MAX_PACKET_BYTES {
            return Outcome::Wrong;
        }
        refusal.begin(alloc);
        let result = terminal.send(0, self.0);
        refusal.end(alloc);
        let is_kept = terminal.waiting() == 0 && terminal.sent_packet(0).is_none();
        Outcome::of(result).if_kept(is_kept)
    }
}

/// A token arrives at a terminal. Where it is refused, the token hasn't arrived, and does then. It fails where the token
/// is taken before there is room for it.
#[derive(Drop)]
struct Draining;

impl Growing for Draining {
    fn call(&self, alloc: Global, refusal: Refusal) -> Outcome {
        let Some(mut terminal) = terminal_with_token(alloc) else {
            return Outcome::Wrong;
        };
        refusal.begin(alloc);
        let result = terminal.drain();
        refusal.end(alloc);
        match result {
            Ok(token) => Outcome::done_if(token == Some(Token::Byte(1))),
            Err(fault) => {
                let is_kept = terminal.arrived().is_empty();
                let arrives = terminal.drain() == Ok(Some(Token::Byte(1)));
                Outcome::of_fault(&fault).if_kept(is_kept && arrives)
            }
        }
    }
}

/// The same of a node.
#[derive(Drop)]
struct Acting;

impl Growing for Acting {
    fn call(&self, alloc: Global, refusal: Refusal) -> Outcome {
        let Some(terminal) = terminal_with_token(alloc) else {
            return Outcome::Wrong;
        };
        let mut node = NodeOf::Terminal(terminal);
        refusal.begin(alloc);
        let result = node.act(0, &ActOf::Drain);
        refusal.end(alloc);
        let found = match result {
            Ok(reply) => Outcome::done_if(reply == ReplyOf::Token(Token::Byte(1))),
            Err(fault) => {
                let arrives = node.act(0, &ActOf::Drain) == Ok(ReplyOf::Token(Token::Byte(1)));
                Outcome::of_fault(&fault).if_kept(arrives)
            }
        };
        let _terminal = node.retire();
        found
    }
}

fn are_made(rt: &HostRuntime) -> bool {
    match terminal_with_token(rt.alloc()) {
        Some(terminal) => {
            is_right(rt, "TerminalOf::new", &Making(&terminal, Maker::New))
                && is_right(
                    rt,
                    "TerminalOf::from_start",
                    &Making(&terminal, Maker::FromStart),
                )
                && is_right(rt, "TerminalOf::copy", &Making(&terminal, Maker::Copy))
        }
        None => false,
    }
}

fn is_sent(rt: &HostRuntime) -> bool {
    match packet(rt.alloc()) {
        Some(packet) => is_right(rt, "TerminalOf::send", &Sending(&packet)),
        None => false,
    }
}

#[test]
fn terminals(rt: HostRuntime) {
    assert!(rt; are_made(&rt));
    assert!(rt; is_sent(&rt));
    assert!(rt; is_right(&rt, "TerminalOf::drain", &Draining));
    assert!(rt; is_right(&rt, "NodeOf::act", &Acting));
}
