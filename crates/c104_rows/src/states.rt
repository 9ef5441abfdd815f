//! How a network stands: each port from which something goes out, if a packet holds its link or tokens wait at an end, and each
//! output that an input wants.
ghost use Rattle.std.specs.Prelude.{length, ◌&&◌, ◌*◌, ◌≡◌, ◌≤◌};
ghost use Rattle.{c104_check.specs.Routes.port_at, c104_regs.specs.declared.registers.TheConstants.LINKS};
ghost use Rattle.c104_rows.specs.States.{before, behind, header_count, hold_by, hold_of, is_shown, link_way, sent_hold, terminal_way};
ghost use Rattle.c104_rows.specs.{States.{view_hold, wants, way_of}, Waits.is_locked};
ghost use Rattle.{c104_run.specs.NetViews.network_link_view, c104_switch.specs.Phases.is_want, c104_token.specs.Kinds.plain_kind};

use crate::holders::{BUFFER_LIMIT, packet_at};
use crate::senders::{Sending, sending_at};
use crate::waits::is_locked;
use c104_check::SwitchPort;
use c104_net::{Origin, TracedNet};
use c104_plan::{Plan, Port};
use c104_switch::{HeaderBytes, LINKS, Phase};

/// Whether a packet holds the link of a port.
#[derive(Clone, Copy, Debug, PartialEq, Eq)]
pub struct Hold {
    /// Whether one does: it streams to the link, or some of its tokens have gone out of a terminal and others wait.
    pub held: bool,
    /// The packet, if its end is in the network.
    pub packet: Option<Origin>,
    /// Whether it waits for itself, over others, in a network that stands still.
    pub locked: bool,
}

/// The way out of a port.
#[derive(Clone, Copy, Debug, PartialEq, Eq)]
pub struct Way {
    /// The round behind which it is so.
    pub round: u32,
    /// The port.
    pub from: Port,
    /// The port at the other end of its wire.
    pub to: Option<Port>,
    /// How many tokens wait to go out.
    pub behind: usize,
    /// How many came in at the other end and wait there, with those of a header that is read or wants an output.
    pub before: usize,
    /// Whether a packet holds it.
    pub hold: Hold,
}

/// An output that an input wants for its header.
#[derive(Clone, Copy, Debug, PartialEq, Eq)]
pub struct Wish {
    /// The round behind which it is so.
    pub round: u32,
    /// The input.
    pub input: SwitchPort,
    /// The output of the same switch.
    pub output: usize,
    /// The port at the other end of its wire.
    pub to: Option<Port>,
    /// The packet, if its end is in the network.
    pub packet: Option<Origin>,
    /// Whether it waits for itself, over others, in a network that stands still.
    pub locked: bool,
}

impl Way {
    /// Whether a packet holds the link, or tokens wait at an end.
    pub(crate) fn is_shown(self) -> bool
        ensures { result ≡ is_shown self }
    {
        self.hold.held || 0 < self.behind || 0 < self.before
    }
}

/// How many links the switches of a plan have.
// A plan has at most 64 switches.
pub(crate) fn link_count(plan: &Plan) -> usize
    ensures { result ≡ LINKS * length plan.now.switches }
{
    let switches = plan.switches().len();
    LINKS * switches
}

/// The way out of the link at a place, where all links are counted by switch and then by link.
pub(crate) fn link_way(net: &TracedNet, still: bool, round: u32, place: usize) -> Way
    ensures { result ≡ link_way net.now still round place }
{
    let at = port_at(place);
    way_of(net, still, round, Port::Switch(at.switch, at.link))
}

/// The link at a place.
pub(crate) fn port_at(place: usize) -> SwitchPort
    ensures { result ≡ port_at place }
{
    SwitchPort {
        switch: place / LINKS,
        link: place % LINKS,
    }
}

/// The way out of a terminal.
pub(crate) fn terminal_way(net: &TracedNet, still: bool, round: u32, terminal: usize) -> Way
    ensures { result ≡ terminal_way net.now still round terminal }
{
    way_of(net, still, round, Port::Terminal(terminal))
}

/// The way out of a port.
fn way_of(net: &TracedNet, still: bool, round: u32, port: Port) -> Way
    ensures { result ≡ way_of net.now still round port }
{
    let to = net.plan().peer(port);
    Way {
        round,
        from: port,
        to,
        behind: behind(net, port),
        before: before(net, to),
        hold: hold_of(net, still, port),
    }
}

/// How many tokens wait at a port to go out.
fn behind(net: &TracedNet, port: Port) -> usize
    ensures { result ≡ behind net.now port }
{
    match port {
        Port::Switch(switch, link) => match net.view_link(switch, link) {
            Some(view) => view.output_level,
            None => 0,
        },
        Port::Terminal(terminal) => match net.view_terminal(terminal) {
            Some(view) => view.waiting,
            None => 0,
        },
    }
}

/// How many tokens came in at a port and wait there, with those of a header that is read or wants an output.
fn before(net: &TracedNet, port: Option<Port>) -> usize
    ensures { result ≡ before net.now port }
{
    match port {
        None => 0,
        Some(Port::Switch(switch, link)) => match net.view_link(switch, link) {
            Some(view) => view.input_level.min(BUFFER_LIMIT) + header_count(&view.phase),
            None => 0,
        },
        Some(Port::Terminal(terminal)) => match net.view_terminal(terminal) {
            Some(view) => view.undrained,
            None => 0,
        },
    }
}

/// How many tokens of a header are read, or wait.
fn header_count(phase: &Phase<HeaderBytes>) -> usize
    ensures count { result ≡ header_count phase.now }
    ensures few { result ≤ 2 }
{
    match phase {
        Phase::Head(bytes) | Phase::Want(bytes, _) => bytes.as_slice().len(),
        Phase::Fresh | Phase::Stream(_) | Phase::Sinking => 0,
    }
}

/// The packet that holds the link of a port.
fn hold_of(net: &TracedNet, still: bool, port: Port) -> Hold
    ensures { result ≡ hold_of net.now still port }
{
    match port {
        Port::Switch(switch, link) => view_hold(net, still, switch, link),
        Port::Terminal(terminal) => sent_hold(terminal, sending_at(net, terminal)),
    }
}

/// The same of a switch's link.
fn view_hold(net: &TracedNet, still: bool, switch: usize, link: usize) -> Hold
    ensures { result ≡ view_hold net.now still switch (network_link_view plain_kind net.now.network switch link) }
{
    match net.view_link(switch, link) {
        Some(view) => hold_by(net, still, switch, view.owner),
        None => Hold::NONE,
    }
}

/// The same of an output that this input holds.
fn hold_by(net: &TracedNet, still: bool, switch: usize, owner: Option<usize>) -> Hold
    ensures { result ≡ hold_by net.now still switch owner }
{
    let Some(link) = owner else {
        return Hold::NONE;
    };
    let input = SwitchPort { switch, link };
    Hold {
        held: true,
        packet: packet_at(net, input),
        locked: is_stuck(net, still, input),
    }
}

/// Whether an input waits for itself, in a network that stands still.
pub(crate) fn is_stuck(net: &TracedNet, still: bool, input: SwitchPort) -> bool
    ensures { result ≡ (still && is_locked net.now input) }
{
    still && is_locked(net, input)
}

/// A terminal's link, which a packet holds of which some tokens have gone out.
fn sent_hold(terminal: usize, sending: Option<Sending>) -> Hold
    ensures { result ≡ sent_hold terminal sending }
{
    let Some(sending) = sending else {
        return Hold::NONE;
    };
    if sending.place == 0 {
        return Hold::NONE;
    }
    Hold {
        held: true,
        packet: Some(Origin {
            terminal,
            number: sending.number,
        }),
        locked: false,
    }
}

impl Hold {
    /// No packet holds the link.
    pub(crate) const NONE: Hold = Hold {
        held: false,
        packet: None,
        locked: false,
    };
}

/// Whether an input wants an output for its header.
pub(crate) fn wants(net: &TracedNet, input: SwitchPort) -> bool
    ensures { result ≡ wants net.now input }
{
    match net.view_link(input.switch, input.link) {
        Some(view) => is_want(&view.phase),
        None => false,
    }
}

/// The same by its phase.
fn is_want(phase: &Phase<HeaderBytes>) -> bool
    ensures { result ≡ is_want phase.now }
{
    match phase {
        Phase::Want(_, _) => true,
        Phase::Fresh | Phase::Head(_) | Phase::Stream(_) | Phase::Sinking => false,
    }
}
