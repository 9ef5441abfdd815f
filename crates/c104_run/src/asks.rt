//! What each event asks, whatever the plan: the one table of events; and its inverse, by the acts that lead in them.
ghost use Rattle.std.specs.Prelude.{IfOk, ◌≡◌};
ghost use Rattle.c104_run.specs.{AskedActs.{IsLone, ask_held}, EventActs.{act_event, crossing_event, event_ask}};

use c104_control::ControlBytes;
use c104_event::{Event, Port};
use c104_node::{Act, ActOf, Crossing};
use c104_switch::ActionOf;
use c104_token::{NoMemory, Packet, TokenKind};

/// What an event asks.
#[derive(Drop)]
pub enum Ask<'a, T> {
    /// A switch does an action.
    Switch(usize, ActionOf<T>),
    /// A terminal does an act.
    Terminal(usize, ActOf<T>),
    /// A terminal sends a packet, which isn't copied.
    Send(usize, &'a Packet),
    /// Something crosses the wire at a port.
    Over(Port, Crossing),
}

/// What an event asks.
#[inline(always)]
pub fn ask_of<'a, T: TokenKind>(event: &'a Event) -> Ask<'a, T>
    ensures is { ask_held result ≡ event_ask event.now }
    ensures lone { IsLone result }
{
    match event {
        Event::Cross(port) => Ask::Over(*port, Crossing::Token),
        Event::Credit(port) => Ask::Over(*port, Crossing::Grant),
        Event::Input { switch, link, word } => {
            Ask::Switch(*switch, ActionOf::Input(*link, *word))
        }
        Event::Claim {
            switch,
            input,
            output,
        } => Ask::Switch(*switch, ActionOf::Claim(*input, *output)),
        Event::Control { switch, bytes } => {
            let bytes = ControlBytes::new(bytes.as_slice());
            Ask::Switch(*switch, ActionOf::Control(bytes))
        }
        Event::Send { terminal, packet } => Ask::Send(*terminal, packet),
        Event::Drain { terminal } => Ask::Terminal(*terminal, ActOf::Drain),
    }
}

/// The event that an act of the node at a place leads in, if it leads. There are `switches` switches, and the terminals
/// stand behind them. The only error is out of memory, for the copy of a packet.
pub fn act_event(switches: usize, place: usize, act: &Act) -> Result<Option<Event>, NoMemory>
    ensures { IfOk result (λ event. event ≡ act_event switches place act.now) }
{
    let switch = place;
    let terminal = place.saturating_sub(switches);
    Ok(Some(match act {
        Act::Step(ActionOf::Leave(link)) => Event::Cross(Port::Switch(switch, *link)),
        Act::Step(ActionOf::CreditOut(link)) => Event::Credit(Port::Switch(switch, *link)),
        Act::Step(ActionOf::Input(link, word)) => Event::Input {
            switch,
            link: *link,
            word: *word,
        },
        Act::Step(ActionOf::Claim(input, output)) => Event::Claim {
            switch,
            input: *input,
            output: *output,
        },
        Act::Step(ActionOf::Control(bytes)) => Event::Control {
            switch,
            bytes: ControlBytes::new(bytes.as_slice()),
        },
        Act::Send(packet) => Event::Send {
            terminal,
            packet: packet.packet().clone()?,
        },
        Act::Drain => Event::Drain { terminal },
        Act::Leave => Event::Cross(Port::Terminal(terminal)),
        Act::CreditOut => Event::Credit(Port::Terminal(terminal)),
        _ => return Ok(None),
    }))
}

/// The event of what crosses from a port.
pub fn crossing_event(crossing: Crossing, port: Port) -> Event
    ensures { result ≡ crossing_event crossing port }
{
    match crossing {
        Crossing::Token => Event::Cross(port),
        Crossing::Grant => Event::Credit(port),
    }
}
