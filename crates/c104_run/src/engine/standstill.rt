//! Whether a network stands still: whether no event of a round is ready.
//!
//! The events are asked in the order of a round, up to the first that is ready or refused. No list of them is made.
#![tactic(auto, using(crate::proofs::StillParts::still_parts))]

ghost use Rattle.std.specs.Prelude.{[], ◌++◌, ◌∷◌, ◌≡◌};
ghost use Rattle.c104_run.specs.{Engines.engine_network, RoundParts.{claim_walk, drain_walk, input_walk, link_walk, output_walk}};
ghost use Rattle.c104_run.specs.{RoundParts.{switch_walk, terminal_walk, walked_round, wired_events}, Rounds.turn_at};
ghost use Rattle.c104_run.specs.Standstill.{has_reason, have_reasons};
ghost use Rattle.c104_event.specs.declared.events.Event.TheVariants as event;

use crate::engine::Engine;
use c104_event::{Event, Port};
use c104_node::{Place, PortPart};
use c104_switch::LINKS;
use c104_token::TokenKind;

impl<T: TokenKind, P: Place<T>> Engine<T, P> {
    /// Whether no event of a round is ready.
    pub fn stands_still(&self) -> bool
        ensures { result ≡ have_reasons (engine_network P.shown self.now) (walked_round self.now.plan) }
    {
        // A terminal takes no turn.
        self.ports_stand(PortPart::Credit)
            && self.ports_stand(PortPart::Cross)
            && self.switches_stand(PortPart::Turn)
            && self.claims_stand()
            && self.drains_stand()
    }

    /// Whether no event of a part is ready at any wired port.
    fn ports_stand(&self, part: PortPart) -> bool
        ensures { result ≡ have_reasons (engine_network P.shown self.now)
            (switch_walk self.now.plan part ++ terminal_walk self.now.plan part) }
    {
        self.switches_stand(part) && self.terminals_stand(part)
    }

    /// The same of the wired links of the switches.
    fn switches_stand(&self, part: PortPart) -> bool
        ensures { result ≡ have_reasons (engine_network P.shown self.now) (switch_walk self.now.plan part) }
    {
        let switches = self.switch_count();
        for switch in 0..switches {
            if !self.links_stand(part, switch) {
                return false;
            }
        }
        true
    }

    /// The same of the wired links of a switch.
    fn links_stand(&self, part: PortPart, switch: usize) -> bool
        ensures { result ≡ have_reasons (engine_network P.shown self.now) (link_walk self.now.plan part switch) }
    {
        for link in 0..LINKS {
            if !self.port_stands(part, Port::Switch(switch, link)) {
                return false;
            }
        }
        true
    }

    /// The same of the wired terminals.
    fn terminals_stand(&self, part: PortPart) -> bool
        ensures { result ≡ have_reasons (engine_network P.shown self.now) (terminal_walk self.now.plan part) }
    {
        let terminals = self.terminal_count();
        for terminal in 0..terminals {
            if !self.port_stands(part, Port::Terminal(terminal)) {
                return false;
            }
        }
        true
    }

    /// Whether the event of a part isn't ready at a port, or the port has no wire.
    fn port_stands(&self, part: PortPart, port: Port) -> bool
        ensures { result ≡ have_reasons (engine_network P.shown self.now)
            (wired_events self.now.plan part port) }
    {
        if !self.wires.is_wired(port) {
            return true;
        }
        match part {
            PortPart::Credit => self.has_reason(&Event::Credit(port)),
            PortPart::Cross => self.has_reason(&Event::Cross(port)),
            PortPart::Turn => self.turn_stands(port),
        }
    }

    /// Whether the input at a port, if it is a switch's, takes no turn.
    fn turn_stands(&self, port: Port) -> bool
        ensures { result ≡ have_reasons (engine_network P.shown self.now) (turn_at port) }
    {
        match port {
            Port::Switch(switch, link) => self.has_reason(&Event::Input {
                switch,
                link,
                word: 0,
            }),
            Port::Terminal(_) => true,
        }
    }

    /// Whether no claim is ready.
    fn claims_stand(&self) -> bool
        ensures { result ≡ have_reasons (engine_network P.shown self.now) (claim_walk self.now.plan) }
    {
        let switches = self.switch_count();
        for switch in 0..switches {
            if !self.switch_claims_stand(switch) {
                return false;
            }
        }
        true
    }

    /// Whether no claim of a switch is ready.
    fn switch_claims_stand(&self, switch: usize) -> bool
        ensures { result ≡ have_reasons (engine_network P.shown self.now) (input_walk switch) }
    {
        for input in 0..LINKS {
            if !self.input_claims_stand(switch, input) {
                return false;
            }
        }
        true
    }

    /// Whether no claim of an input is ready.
    fn input_claims_stand(&self, switch: usize, input: usize) -> bool
        ensures { result ≡ have_reasons (engine_network P.shown self.now) (output_walk switch input) }
    {
        for output in 0..LINKS {
            if !self.claim_stands(switch, input, output) {
                return false;
            }
        }
        true
    }

    /// Whether a claim isn't ready.
    fn claim_stands(&self, switch: usize, input: usize, output: usize) -> bool
        ensures { result ≡ have_reasons (engine_network P.shown self.now) (event.Claim switch input output ∷ []) }
    {
        self.has_reason(&Event::Claim {
            switch,
            input,
            output,
        })
    }

    /// Whether at no terminal a token arrives.
    fn drains_stand(&self) -> bool
        ensures { result ≡ have_reasons (engine_network P.shown self.now) (drain_walk self.now.plan) }
    {
        let terminals = self.terminal_count();
        for terminal in 0..terminals {
            if !self.has_reason(&Event::Drain { terminal }) {
                return false;
            }
        }
        true
    }

    /// Whether an event has a reason why it isn't ready.
    fn has_reason(&self, event: &Event) -> bool
        ensures { result ≡ has_reason (engine_network P.shown self.now) event.now }
    {
        self.why(event).is_some()
    }
}
