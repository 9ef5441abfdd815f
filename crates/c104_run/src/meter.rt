//! Who is told of the tokens that cross the wires of a network, and of those that arrive.
//!
//! That a token crossed a wire isn't in the state after it, and nodes know neither rounds nor other nodes. So the meter
//! is beside the stage in the state of a run, and the proofs of the loops, which hold of any state and step, are the same
//! with and without.
ghost use Rattle.std.specs.Prelude.{◌≡◌};
ghost use Rattle.c104_run.specs.{EventActs.crossing_event, Meters.{Sees, meter_told, unseen}};
ghost use Rattle.c104_event.specs.declared.events.Event.TheVariants as event;

use c104_event::{Event, EventFault, Port};
use c104_node::Crossing;
use c104_switch::ReplyOf;
use c104_token::TokenKind;

/// Who is told of each token that crosses a wire or arrives, as it does.
pub trait Meter<T: TokenKind> {
    /// What it comes to by what it is told.
    ghost sees: { Sees Self T };

    /// This token crosses the wire at a port, from there.
    fn crossed(&mut self, port: Port, token: T)
        ensures { self.new ≡ sees.crossed self.old port token };

    /// This token arrives at a terminal.
    fn arrived(&mut self, terminal: usize, token: T)
        ensures { self.new ≡ sees.arrived self.old terminal token };
}

/// Nobody is told.
#[derive(Clone, Copy, Debug)]
pub struct Unmetered;

impl<T: TokenKind> Meter<T> for Unmetered {
    ghost sees = { unseen };

    #[inline(always)]
    fn crossed(&mut self, _port: Port, _token: T) {}

    #[inline(always)]
    fn arrived(&mut self, _terminal: usize, _token: T) {}
}

/// Tells a meter what an event was answered.
#[inline(always)]
pub fn tell<T: TokenKind, M: Meter<T>>(
    meter: &mut M,
    event: &Event,
    answer: &Result<ReplyOf<T>, EventFault>,
)
    ensures { meter.new ≡ meter_told M.sees meter.old event.now answer.now }
{
    match event {
        Event::Cross(port) => tell_crossed(meter, *port, answer),
        Event::Drain { terminal } => tell_arrived(meter, *terminal, answer),
        _ => {}
    }
}

/// Tells a meter what was answered where something was to cross from a port. It isn't told of grants.
#[inline(always)]
pub fn tell_joint<T: TokenKind, M: Meter<T>>(
    meter: &mut M,
    crossing: Crossing,
    port: Port,
    answer: &Result<ReplyOf<T>, EventFault>,
)
    ensures { meter.new ≡ meter_told M.sees meter.old (crossing_event crossing port) answer.now }
{
    match crossing {
        Crossing::Token => tell_crossed(meter, port, answer),
        Crossing::Grant => {}
    }
}

/// Tells a meter what was answered where a token was to cross from a port.
#[inline(always)]
fn tell_crossed<T: TokenKind, M: Meter<T>>(
    meter: &mut M,
    port: Port,
    answer: &Result<ReplyOf<T>, EventFault>,
)
    ensures { meter.new ≡ meter_told M.sees meter.old (event.Cross port) answer.now }
{
    if let Ok(ReplyOf::Token(token)) = answer {
        meter.crossed(port, *token);
    }
}

/// Tells a meter what was answered where a token was to arrive at a terminal.
#[inline(always)]
pub fn tell_arrived<T: TokenKind, M: Meter<T>>(
    meter: &mut M,
    terminal: usize,
    answer: &Result<ReplyOf<T>, EventFault>,
)
    ensures { meter.new ≡ meter_told M.sees meter.old (event.Drain terminal) answer.now }
{
    if let Ok(ReplyOf::Token(token)) = answer {
        meter.arrived(terminal, *token);
    }
}
