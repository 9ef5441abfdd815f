//! A terminal: where packets are sent and received.
ghost use Rattle.std.specs.Prelude.{IfOk, IfSome, IsTrue, OnErr, OnOk, Some, [], is_some, length, map, slice_get, ◌+◌, ◌<◌, ◌↔◌, ◌≡◌, ◌≤◌};
ghost use Rattle.{c104_link.specs.{Buffers.IsValidCap, Steps.{bool_outcome, option_outcome}}, c104_node.specs.Outboxes.waiting_taken};
ghost use Rattle.c104_node.specs.Terminals.{new_terminal, sent_tokens, terminal_begin, terminal_credit_in, terminal_credit_out};
ghost use Rattle.c104_node.specs.Terminals.{terminal_drain, terminal_enter, terminal_leave, terminal_send};
ghost use Rattle.c104_token.specs.declared.text.TheConstants.{MAX_PACKET_BYTES};

mod arrived;
mod copies;
mod reasons;
mod spare;
mod starts;
mod tokens;
mod views;

pub use arrived::ArrivedOf;
use c104_link::{CREDIT_LIMIT, InBufferOf, TOKENS_OF_A_GRANT};
use c104_token::{NoMemory, Packet, Token, TokenKind};
pub use spare::SpareOf;
pub use starts::TerminalStart;
use std::alloc::Global;
use std::marker::Model;
pub use views::TerminalView;

/// A packet of a terminal, with the terminal's number, which a token may tell.
#[derive(Drop)]
pub struct TerminalPacket {
    pub packet: Packet,
    pub terminal: usize,
}

/// A terminal, with its end of the wire.
// The tokens that wait to go out are kept nowhere: they are those of the packets from `next` on, without the first
// `place` tokens of that one. A token is made when it goes out. So a packet costs its bytes once, whatever a token takes.
#[derive(Drop)]
pub struct TerminalOf<T: TokenKind> {
    input: InBufferOf<T>,
    sent: Vec<TerminalPacket>,
    next: usize,
    place: usize,
    waiting: usize,
    credit: usize,
    arrived: ArrivedOf<T>,
}

impl<T: TokenKind> Model for TerminalOf<T> {
    ghost use Rattle.std.specs.Prelude.{map, ◌≤◌};
    ghost use Rattle.{c104_link.specs.declared.outgoing.TheConstants.CREDIT_LIMIT, c104_node.specs.Outboxes.{IsOutbox, packet_of}};
    ghost use Rattle.c104_node.specs.{Outboxes.waiting_from, Terminals.Terminal};

    ghost Value = { Terminal T };

    ghost view = { λ t. record {
      input = t.input;
      output = record { items = waiting_from T.kind t.next t.place t.sent.items; credit = t.credit };
      sent = map packet_of t.sent.items;
      arrived = t.arrived;
    } };

    ghost invariant = { λ t. (t.credit ≤ CREDIT_LIMIT)
        × IsOutbox T.kind t.next t.place t.waiting t.sent.items };
}

impl<T: TokenKind> TerminalOf<T> {
    /// A terminal at first, whose input buffer has room for `cap` tokens. The only error is out of memory.
    pub fn new(alloc: Global, cap: usize) -> Result<Self, NoMemory>
        requires { IsValidCap cap }
        ensures { IfOk result (λ t. t ≡ new_terminal cap) }
    {
        let input = InBufferOf::new(alloc, cap)?;
        Ok(TerminalOf {
            input,
            sent: Vec::new(alloc),
            next: 0,
            place: 0,
            waiting: 0,
            credit: 0,
            arrived: ArrivedOf::new(alloc),
        })
    }

    /// How many tokens wait to go out.
    pub fn waiting(&self) -> usize
        ensures { result ≡ length self.now.output.items }
    {
        self.waiting
    }

    /// Whether no token came in that hasn't arrived, and none waits to go out.
    pub fn is_quiet(&self) -> bool
        ensures { IsTrue result ↔ ((self.now.input.items ≡ []) × (self.now.output.items ≡ [])) }
    {
        self.input.is_empty() && self.waiting == 0
    }

    /// Forgets what was sent and what arrived, where nothing waits.
    pub fn begin(&mut self)
        requires { self.old.output.items ≡ [] }
        ensures { self.new ≡ terminal_begin self.old }
    {
        self.next = 0;
        self.place = 0;
        self.waiting = 0;
        self.sent.clear();
        self.arrived.clear();
    }

    /// The tokens that arrived.
    pub fn arrived(&self) -> &ArrivedOf<T>
        ensures { result.now ≡ self.now.arrived }
    {
        &self.arrived
    }

    /// A token comes in from the wire. False where none was granted.
    #[inline(always)]
    pub fn enter(&mut self, token: T) -> bool
        ensures { (result, self.new) ≡ bool_outcome (terminal_enter token self.old) self.old }
    {
        self.input.accept(token).is_ok()
    }

    /// Whether `enter` would take a token in.
    pub fn can_enter(&self) -> bool
        ensures { (token : T) → result ≡ is_some (terminal_enter token self.now) }
    {
        self.input.granted() > 0
    }

    /// The first token that waits goes out. None where none waits, or there is no credit.
    #[inline(always)]
    pub fn leave(&mut self) -> Option<T>
        ensures { (result, self.new) ≡ option_outcome (terminal_leave self.old) self.old }
    {
        if self.credit == 0 {
            return None;
        }
        let token = self.take_waiting()?;
        self.credit -= 1;
        Some(token)
    }

    /// The first token that waits. None where none does.
    pub fn first_waiting(&self) -> Option<T>
        ensures { result ≡ slice_get self.now.output.items 0 }
    {
        let posted = self.sent.get(self.next)?;
        Some(token_at(posted, self.next, self.place))
    }

    /// The first token that waits is taken. None where none waits.
    #[inline(always)]
    fn take_waiting(&mut self) -> Option<T>
        ensures { (result, self.new) ≡ waiting_taken self.old }
    {
        let posted = self.sent.get(self.next)?;
        let token = token_at(posted, self.next, self.place);
        let last = posted.packet.bytes.as_slice().len();
        self.waiting -= 1;
        if self.place < last {
            self.place += 1;
            return Some(token);
        }
        self.next += 1;
        self.place = 0;
        Some(token)
    }

    /// Whether `leave` would let a token out.
    pub fn can_leave(&self) -> bool
        ensures { result ≡ is_some (terminal_leave self.now) }
    {
        self.credit > 0 && self.waiting > 0
    }

    /// The terminal grants eight more tokens. False where its input buffer has no room for them.
    pub fn credit_out(&mut self) -> bool
        ensures { (result, self.new) ≡ bool_outcome (terminal_credit_out self.old) self.old }
    {
        self.input.grant()
    }

    /// Whether `credit_out` would grant.
    pub fn can_credit_out(&self) -> bool
        ensures { result ≡ is_some (terminal_credit_out self.now) }
    {
        self.input.can_grant()
    }

    /// The terminal may send eight more tokens. False where its credit would pass 64.
    pub fn credit_in(&mut self) -> bool
        ensures { (result, self.new) ≡ bool_outcome (terminal_credit_in self.old) self.old }
    {
        if self.credit + TOKENS_OF_A_GRANT > CREDIT_LIMIT {
            return false;
        }
        self.credit += TOKENS_OF_A_GRANT;
        true
    }

    /// Whether `credit_in` would add the credit.
    pub fn can_credit_in(&self) -> bool
        ensures { result ≡ is_some (terminal_credit_in self.now) }
    {
        self.credit + TOKENS_OF_A_GRANT <= CREDIT_LIMIT
    }

    /// Whether a token came in that can arrive.
    pub fn can_drain(&self) -> bool
        ensures { result ≡ is_some (terminal_drain self.now) }
    {
        self.input.len() > 0
    }

    /// The first token that came in arrives. None where none came in. Out of memory nothing changes.
    #[inline(always)]
    pub fn drain(&mut self) -> Result<Option<T>, NoMemory>
        ensures done { IfOk result (λ token.
            (token, self.new) ≡ option_outcome (terminal_drain self.old) self.old) }
        ensures kept { OnErr result (self.new ≡ self.old) }
    {
        let Some(token) = self.input.first() else {
            return Ok(None);
        };
        self.arrived.push(token)?;
        let _token = self.input.take();
        Ok(Some(token))
    }

    /// Sends a packet of at most 4,096 bytes: its tokens join those that wait to go out. Out of memory
    /// nothing changes.
    pub fn send(&mut self, terminal: usize, packet: &Packet) -> Result<(), NoMemory>
        requires { length packet.now.bytes ≤ MAX_PACKET_BYTES }
        ensures done { OnOk result (self.new ≡ terminal_send T.kind terminal packet.now self.old) }
        ensures kept { OnErr result (self.new ≡ self.old) }
    {
        let copy = packet.clone()?;
        let Some(waiting) = waiting_after(self.waiting, packet) else {
            return Err(NoMemory);
        };
        self.sent.reserve(1)?;
        let Ok(()) = self.sent.push(TerminalPacket {
            packet: copy,
            terminal,
        })
        else {
            unreachable!();
        };
        self.waiting = waiting;
        Ok(())
    }
}

/// The token at a place of a packet that was sent: one of its bytes, or its terminator.
#[inline(always)]
fn token_at<T: TokenKind>(posted: &TerminalPacket, number: usize, place: usize) -> T
    requires { place ≤ length posted.now.packet.bytes }
    ensures { slice_get (sent_tokens T.kind posted.now.terminal number posted.now.packet) place ≡ Some result }
{
    let bytes = posted.packet.bytes.as_slice();
    if place < bytes.len() {
        return T::sent(posted.terminal, number, place, Token::Byte(bytes[place]));
    }
    T::sent(posted.terminal, number, place, posted.packet.mark.token())
}

/// How many tokens wait after a packet has joined `waiting` of them. None where that is more than can be counted.
fn waiting_after(waiting: usize, packet: &Packet) -> Option<usize>
    requires { length packet.now.bytes ≤ MAX_PACKET_BYTES }
    ensures { IfSome result (λ after. after ≡ waiting + (length packet.now.bytes + 1)) }
{
    waiting.checked_add(packet.bytes.as_slice().len() + 1)
}
