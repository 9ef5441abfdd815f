//! Why an event isn't ready.
//!
//! Of several conditions that don't hold the first is told, of a wire those of the end that is named before the other's.
//! Of a claim it is whether the switch is started, then what the input wants, and then what is in the way at the output.
//! A reason is told at the port where something has to be done, with the number of the other link where there is one: so
//! a sentence needs the reason alone.
ghost use Rattle.std.specs.Prelude.{map, ◌≡◌};
ghost use Rattle.c104_node.specs.{NodeReasons.{node_claim_why, node_drain_why, node_input_why}, Places.states, PortActs.Acts};
ghost use Rattle.{c104_plan.specs.Plans.Plan as ThePlan, c104_run.specs.{AskedActs.{AreEnds, acts_asked}, Ends.end_of}};
ghost use Rattle.c104_run.specs.{Engines.engine_network, EventActs.port_place, Reasons.{acts_why, alone_why, claim_reason, end_why}};
ghost use Rattle.{c104_run.specs.Reasons.{far_why, near_why, network_why}, c104_switch.specs.Reasons.why_at};

use crate::asked::{Asked, acts_of};
use crate::engine::Engine;
use crate::reason::Reason;
use c104_event::{Event, Port};
use c104_node::{ActOf, Crossing, End, Joint, Place};
use c104_switch::{ActionOf, Unready};
use c104_token::TokenKind;

impl<T: TokenKind, P: Place<T>> Engine<T, P> {
    /// Why an event isn't ready; none where it can't happen.
    pub fn why(&self, event: &Event) -> Option<Reason>
        ensures { result ≡ network_why (engine_network P.shown self.now) event.now }
    {
        match acts_of(self.wires(), event) {
            Ok(asked) => self.why_asked(asked),
            Err(_) => None,
        }
    }

    /// Why the acts that are asked aren't ready.
    fn why_asked(&self, asked: Asked<'_, T>) -> Option<Reason>
        requires { AreEnds self.now.plan asked }
        ensures { result ≡ acts_why (engine_network P.shown self.now) (acts_asked asked.entry) }
    {
        match asked {
            Asked::Alone(place, act) => self.why_alone(place, &act),
            Asked::Send(_, _) => None,
            Asked::Joint(near, far, joint) => self.why_joint(near, far, joint),
        }
    }

    /// Why nothing crosses the wire between two ports, which are those of the nodes at two places.
    fn why_joint(&self, near: usize, far: usize, joint: Joint) -> Option<Reason>
        requires near { near ≡ port_place self.now.plan joint.near }
        requires far { far ≡ port_place self.now.plan joint.far }
        ensures { result ≡ acts_why (engine_network P.shown self.now) (Acts.Joint joint.near joint.far joint.crossing) }
    {
        let near = end_at(near, joint.near);
        if let Some(unready) = self.why_near(near, joint.crossing) {
            return Some(Reason {
                port: joint.near,
                unready,
            });
        }
        let far = end_at(far, joint.far);
        let unready = self.why_far(far, joint.crossing)?;
        Some(Reason {
            port: joint.far,
            unready,
        })
    }

    /// Why the node at a place isn't ready for an act that it is asked alone. A turn isn't decided by its word.
    fn why_alone(&self, place: usize, act: &ActOf<T>) -> Option<Reason>
        ensures { result ≡ alone_why (engine_network P.shown self.now) place act.now }
    {
        match act {
            ActOf::Step(ActionOf::Input(link, _)) => {
                let unready = self.why_input_at(place, *link)?;
                Some(Reason {
                    port: Port::Switch(place, *link),
                    unready,
                })
            }
            ActOf::Step(ActionOf::Claim(input, output)) => {
                let unready = self.why_claim_at(place, *input, *output)?;
                Some(claim_reason(place, *input, *output, unready))
            }
            ActOf::Drain => {
                let unready = self.why_drain_at(place)?;
                let terminal = place.saturating_sub(self.switch_count());
                Some(Reason {
                    port: Port::Terminal(terminal),
                    unready,
                })
            }
            _ => None,
        }
    }

    /// Why the end of a wire from which something would cross can't act: no token can go out, or no eight more be granted.
    fn why_near(&self, end: End, crossing: Crossing) -> Option<Unready>
        ensures { result ≡ end_why (states (map P.shown self.now.places)) end (near_why crossing) }
    {
        let Some(node) = self.node(end.node) else {
            return Some(Unready::NoLink);
        };
        match crossing {
            Crossing::Token => node.why_leave(end.link),
            Crossing::Grant => node.why_credit_out(end.link),
        }
    }

    /// Why the other end can't: no token can come in, or it may not be granted eight more.
    fn why_far(&self, end: End, crossing: Crossing) -> Option<Unready>
        ensures { result ≡ end_why (states (map P.shown self.now.places)) end (far_why crossing) }
    {
        let Some(node) = self.node(end.node) else {
            return Some(Unready::NoLink);
        };
        match crossing {
            Crossing::Token => node.why_enter(end.link),
            Crossing::Grant => node.why_credit_in(end.link),
        }
    }

    /// Why an input of the switch at a place can't take a turn.
    fn why_input_at(&self, place: usize, link: usize) -> Option<Unready>
        ensures { result ≡ why_at (states (map P.shown self.now.places)) place (node_input_why link) }
    {
        match self.node(place) {
            Some(node) => node.why_input(link),
            None => Some(Unready::NoLink),
        }
    }

    /// Why an input of the switch at a place can't claim an output.
    fn why_claim_at(&self, place: usize, input: usize, output: usize) -> Option<Unready>
        ensures { result ≡ why_at (states (map P.shown self.now.places)) place (node_claim_why input output) }
    {
        match self.node(place) {
            Some(node) => node.why_claim(input, output),
            None => Some(Unready::NoLink),
        }
    }

    /// Why no token can arrive at a place.
    fn why_drain_at(&self, place: usize) -> Option<Unready>
        ensures { result ≡ why_at (states (map P.shown self.now.places)) place node_drain_why }
    {
        match self.node(place) {
            Some(node) => node.why_drain(),
            None => Some(Unready::NoLink),
        }
    }
}

/// The end of a wire at a port of the node at a place.
fn end_at(node: usize, port: Port) -> End
    ensures { (plan : ThePlan) → node ≡ port_place plan port → result ≡ end_of plan port }
{
    match port {
        Port::Switch(_, link) => End { node, link },
        Port::Terminal(_) => End { node, link: 0 },
    }
}

/// A reason of a claim: at the output where it is owned or has no room, and else at the input.
fn claim_reason(switch: usize, input: usize, output: usize, unready: Unready) -> Reason
    ensures { result ≡ claim_reason switch input output unready }
{
    let link = match unready {
        Unready::Owned(_) | Unready::NoRoomForHeader => output,
        _ => input,
    };
    Reason {
        port: Port::Switch(switch, link),
        unready,
    }
}
