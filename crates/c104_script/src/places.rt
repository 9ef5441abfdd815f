//! What the names of a script's line stand for.
//!
//! A second dot is BadShape only in the word for a node or a port; in a number's place it is BadNumber. `input` takes a
//! word of 1 to 7 digits also where no random headers are put before packets, and nothing depends on it.
ghost use Rattle.std.specs.Prelude.{◌≡◌};
ghost use Rattle.c104_script.specs.Script.{input_at, node_with, port_at, switch_at, terminal_at};

use crate::probes::Probe;
use crate::words::PlaceWord;
use c104_event::{Event, EventFault, Port};
use c104_plan::Plan;

/// What a line asks of a network.
#[derive(Debug, Drop)]
pub enum Request {
    /// An event, which the network may still refuse.
    Asked(Event),
    /// Rounds.
    Rounds {
        /// How many, 1 to 10,000.
        count: u32,
        /// Whether the claims of each switch go by turns.
        is_fair: bool,
        /// The seed of the words that their inputs are handed. Without one each is handed word 0.
        seed: Option<u64>,
    },
    /// Rounds until the network stands still, up to a limit.
    Settle,
    /// What the debugger is to read or to set.
    Probed(Probe),
    /// An event of a node that isn't there or of the wrong kind, or of a link where none is wanted
    /// or without one where one is.
    Refused(EventFault),
}

/// The terminal of this name, without a link.
pub(crate) fn find_terminal(plan: &Plan, place: PlaceWord<'_>) -> Result<usize, EventFault>
    ensures { result ≡ terminal_at plan.now (place.entry.name.now, place.entry.link) }
{
    without_link(plan.terminal_number(place.name), place.link)
}

/// The switch of this name, without a link.
pub(crate) fn find_switch(plan: &Plan, place: PlaceWord<'_>) -> Result<usize, EventFault>
    ensures { result ≡ switch_at plan.now (place.entry.name.now, place.entry.link) }
{
    without_link(plan.switch_number(place.name), place.link)
}

/// The node that was found, where it is named without a link.
fn without_link(node: Option<usize>, link: Option<u32>) -> Result<usize, EventFault>
    ensures { result ≡ node_with node link }
{
    match (node, link) {
        (None, _) => Err(EventFault::NoNode),
        (Some(node), None) => Ok(node),
        (Some(_), Some(_)) => Err(EventFault::NoLink),
    }
}

/// The switch of this name and one of its links.
pub(crate) fn find_input(plan: &Plan, place: PlaceWord<'_>) -> Result<(usize, usize), EventFault>
    ensures { result ≡ input_at plan.now (place.entry.name.now, place.entry.link) }
{
    let Some(switch) = plan.switch_number(place.name) else {
        return Err(EventFault::NoNode);
    };
    match place.link {
        None => Err(EventFault::NoLink),
        Some(link) => Ok((switch, link as usize)),
    }
}

/// The terminal of this name, or the switch and one of its links.
pub(crate) fn find_port(plan: &Plan, place: PlaceWord<'_>) -> Result<Port, EventFault>
    ensures { result ≡ port_at plan.now (place.entry.name.now, place.entry.link) }
{
    let Some(terminal) = plan.terminal_number(place.name) else {
        let (switch, link) = find_input(plan, place)?;
        return Ok(Port::Switch(switch, link));
    };
    match place.link {
        None => Ok(Port::Terminal(terminal)),
        Some(_) => Err(EventFault::NoLink),
    }
}
