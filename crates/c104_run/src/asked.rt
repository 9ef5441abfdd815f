//! What an event asks of the nodes of a network, by the plan's ports alone.
//!
//! A port says which kind of node is there. Of nodes that have a terminal at a switch's place, what would cross a wire there
//! is NotReady; no network has such nodes. The far act is made from what the near one answered, so a token and a grant are
//! one case.
ghost use Rattle.std.specs.Prelude.{IfOk, MatchResult, None, Some, if◌then◌else◌, length, ℕ, ◌≡◌};
ghost use Rattle.{c104_plan.specs.{Plans.Plan, Wiring.peer}, c104_run.specs.AskedActs.{AreEnds, acts_asked}};
ghost use Rattle.c104_run.specs.{EventActs.{Ask as TheAsk, crossing_acts, event_acts}, FarEnds.far_end};
ghost use Rattle.c104_run.specs.Network.{ask_fault, event_fault, node_fault, wired_fault};
ghost use Rattle.c104_event.specs.declared.faults.EventFault.TheVariants as fault;

use crate::asks::{Ask, ask_of};
use crate::wires::Wires;
use c104_event::{Event, EventFault, Port};
use c104_node::{ActOf, Crossing, End, Joint};
use c104_switch::{ActionOf, LINKS};
use c104_token::{MAX_PACKET_BYTES, Packet, TokenKind};

/// What an event asks.
pub enum Asked<'a, T> {
    /// An act of the node at a place.
    Alone(usize, ActOf<T>),
    /// The terminal at a place sends a packet, which isn't copied before it is known that it can.
    Send(usize, &'a Packet),
    /// An act of each of the nodes at two places.
    Joint(usize, usize, Joint),
}

/// What an event asks; or why it can't happen, whatever the nodes hold: NoNode where the plan has no such switch or
/// terminal, NoLink where a link's number is 32 or more, NotWired where a port has no wire, or TooLong for a packet or a
/// command that has too many bytes.
#[inline(always)]
pub fn acts_of<'a, T: TokenKind>(
    wires: &Wires,
    event: &'a Event,
) -> Result<Asked<'a, T>, EventFault>
    ensures fault { MatchResult result
        (λ asked. event_fault wires.now event.now ≡ None)
        (λ fault. event_fault wires.now event.now ≡ Some fault) }
    ensures acts { IfOk result (λ asked. event_acts wires.now event.now ≡ Some (acts_asked asked)) }
    ensures ends { IfOk result (λ asked. AreEnds wires.now asked) }
{
    let plan = wires.plan();
    let switches = plan.switches().len();
    let terminals = plan.terminals().len();
    match ask_of(event) {
        Ask::Switch(switch, action) => {
            if switch >= switches {
                return Err(EventFault::NoNode);
            }
            if !has_links(&action) {
                return Err(EventFault::NoLink);
            }
            Ok(Asked::Alone(switch, ActOf::Step(action)))
        }
        Ask::Terminal(terminal, act) => {
            if terminal >= terminals {
                return Err(EventFault::NoNode);
            }
            Ok(Asked::Alone(switches + terminal, act))
        }
        Ask::Send(terminal, packet) => {
            if terminal >= terminals {
                return Err(EventFault::NoNode);
            }
            if packet.bytes.as_bytes().len() > MAX_PACKET_BYTES {
                return Err(EventFault::TooLong);
            }
            Ok(Asked::Send(switches + terminal, packet))
        }
        Ask::Over(port, crossing) => joint_of(wires, port, crossing),
    }
}

/// Whether each link that an action names is one of a switch.
#[inline(always)]
fn has_links<T: TokenKind>(action: &ActionOf<T>) -> bool
    ensures { (plan : Plan) (s : ℕ) → ask_fault plan (TheAsk.Switch s action.now)
        ≡ node_fault (length plan.switches) s (if result then None else Some fault.NoLink) }
{
    match action {
        ActionOf::Input(link, _) => *link < LINKS,
        ActionOf::Claim(input, output) => *input < LINKS && *output < LINKS,
        _ => true,
    }
}

/// Something crosses the wire at a port.
#[inline(always)]
pub fn joint_of<'a, T: TokenKind>(
    wires: &Wires,
    port: Port,
    crossing: Crossing,
) -> Result<Asked<'a, T>, EventFault>
    ensures fault { MatchResult result
        (λ asked. wired_fault wires.now port ≡ None)
        (λ fault. wired_fault wires.now port ≡ Some fault) }
    ensures acts { IfOk result (λ asked. crossing_acts crossing port (peer wires.now port) ≡ Some (acts_asked asked)) }
    ensures ends { IfOk result (λ asked. AreEnds wires.now asked) }
{
    let ends = wires.ends(port)?;
    let far = far_port(wires, port, ends.far);
    Ok(Asked::Joint(
        ends.near.node,
        ends.far.node,
        Joint {
            near: port,
            far,
            crossing,
        },
    ))
}

/// The port at the far end of a wire.
#[inline(always)]
pub fn far_port(wires: &Wires, port: Port, far: End) -> Port
    requires { far_end wires.now port ≡ Some far }
    ensures { peer wires.now port ≡ Some result }
{
    let switches = wires.plan().switches().len();
    if far.node < switches {
        Port::Switch(far.node, far.link)
    } else {
        Port::Terminal(far.node - switches)
    }
}
