//! What an engine tells of its nodes: registers, what can be seen of links and terminals, what was sent and what
//! arrived, and whether all is quiet.
ghost use Rattle.std.specs.{Option.option_copied, Prelude.{All, IsTrue, length, map, slice_get, ◌+◌, ◌<◌, ◌↔◌, ◌≡◌, ◌≤◌}};
ghost use Rattle.{c104_node.specs.{Places.states, Quiet.IsQuietNode, Views.nodes_input_token}, c104_run.specs.Engines.engine_network};
ghost use Rattle.c104_run.specs.{LivePlaces.told_places, NetViews.{network_input_token, network_link_view, network_output_token}};
ghost use Rattle.c104_run.specs.{NetViews.{network_sent_packet, network_terminal_view}, Network.{network_arrived, network_peek}};
ghost use Rattle.c104_run.specs.Network.{terminal_place};

use super::Engine;
use c104_event::Port;
use c104_node::{ArrivedOf, NodeOf, Place, TerminalView, node_at};
use c104_switch::LinkView;
use c104_token::{Packet, TokenKind};

impl<T: TokenKind, P: Place<T>> Engine<T, P> {
    /// How many switches there are.
    #[inline(always)]
    pub(crate) fn switch_count(&self) -> usize
        ensures count { result ≡ length self.now.plan.switches }
        ensures few { result ≤ told_places }
    {
        // The proof reads here what every plan keeps.
        let _plan = self.wires.plan();
        self.wires.switch_count()
    }

    /// How many places there are: those of switches, and then those of terminals.
    #[inline(always)]
    pub(crate) fn place_count(&self) -> usize
        ensures count { result ≡ length self.now.plan.switches + length self.now.plan.terminals }
        ensures few { result ≤ told_places }
    {
        // The proof reads here what every plan keeps.
        let _plan = self.wires.plan();
        self.wires.place_count()
    }

    /// The place of a terminal.
    #[inline(always)]
    pub(crate) fn terminal_place(&self, terminal: usize) -> usize
        requires { terminal < length self.now.plan.terminals }
        ensures { result ≡ terminal_place self.now.plan terminal }
    {
        self.wires.terminal_place(terminal)
    }

    /// How many terminals there are.
    #[inline(always)]
    pub(crate) fn terminal_count(&self) -> usize
        ensures { result ≡ length self.now.plan.terminals }
    {
        self.wires.terminal_count()
    }

    /// The node at a place. None where there is no such place.
    #[inline(always)]
    pub(crate) fn node(&self, place: usize) -> Option<&NodeOf<T>>
        ensures { option_copied result ≡ slice_get (states (map P.shown self.now.places)) place }
    {
        node_at(self.places(), place)
    }

    /// The value of a register of a switch. None where the plan has no such switch, or no register has the address.
    pub fn peek(&self, switch: usize, addr: u16) -> Option<u32>
        ensures { result ≡ network_peek (engine_network P.shown self.now) switch addr }
    {
        if switch >= self.switch_count() {
            return None;
        }
        match self.node(switch) {
            Some(node) => node.peek(addr),
            None => None,
        }
    }

    /// What can be seen of a link of a switch. None where the plan has no such switch, or a switch no such link.
    pub fn view_link(&self, switch: usize, link: usize) -> Option<LinkView>
        ensures { result ≡ network_link_view T.kind (engine_network P.shown self.now) switch link }
    {
        if switch >= self.switch_count() {
            return None;
        }
        match self.node(switch) {
            Some(node) => node.view_link(link),
            None => None,
        }
    }

    /// The node of a terminal of the plan.
    #[inline(always)]
    fn terminal_node(&self, terminal: usize) -> Option<&NodeOf<T>>
        requires { terminal < length self.now.plan.terminals }
        ensures { option_copied result ≡
            slice_get (states (map P.shown self.now.places)) (terminal_place self.now.plan terminal) }
    {
        let place = self.terminal_place(terminal);
        self.node(place)
    }

    /// What can be seen of a terminal. None where the plan has no such terminal.
    pub fn view_terminal(&self, terminal: usize) -> Option<TerminalView>
        ensures { result ≡ network_terminal_view (engine_network P.shown self.now) terminal }
    {
        if terminal >= self.terminal_count() {
            return None;
        }
        match self.terminal_node(terminal) {
            Some(node) => node.view_terminal(),
            None => None,
        }
    }

    /// The tokens that arrived at a terminal, in order. None where the plan has no such terminal.
    pub fn arrived(&self, terminal: usize) -> Option<&ArrivedOf<T>>
        ensures { option_copied result ≡ network_arrived (engine_network P.shown self.now) terminal }
    {
        if terminal >= self.terminal_count() {
            return None;
        }
        match self.terminal_node(terminal) {
            Some(node) => node.arrived(),
            None => None,
        }
    }

    /// The packet of this number among those that a terminal sent. None where there is none.
    pub fn sent_packet(&self, terminal: usize, number: usize) -> Option<&Packet>
        ensures { option_copied result ≡ network_sent_packet (engine_network P.shown self.now) terminal number }
    {
        if terminal >= self.terminal_count() {
            return None;
        }
        match self.terminal_node(terminal) {
            Some(node) => node.sent_packet(number),
            None => None,
        }
    }

    /// The token at this index of what came in at a port. None past the last one, or where the plan has no such port.
    pub fn input_token(&self, port: Port, index: usize) -> Option<T>
        ensures { result ≡ network_input_token (engine_network P.shown self.now) port index }
    {
        match port {
            Port::Switch(switch, link) => {
                if switch >= self.switch_count() {
                    return None;
                }
                self.token_in(switch, link, index)
            }
            Port::Terminal(terminal) => {
                if terminal >= self.terminal_count() {
                    return None;
                }
                let place = self.terminal_place(terminal);
                self.token_in(place, 0, index)
            }
        }
    }

    /// The token at this index of what came in over a link of the node at a place.
    fn token_in(&self, place: usize, link: usize, index: usize) -> Option<T>
        ensures { result ≡ nodes_input_token (states (map P.shown self.now.places)) place link index }
    {
        match self.node(place) {
            Some(node) => node.input_token(link, index),
            None => None,
        }
    }

    /// The token at this index of the output of a switch's link. None past the last one, or where the plan has no such
    /// switch, or a switch no such link.
    pub fn output_token(&self, switch: usize, link: usize, index: usize) -> Option<T>
        ensures { result ≡ network_output_token (engine_network P.shown self.now) switch link index }
    {
        if switch >= self.switch_count() {
            return None;
        }
        match self.node(switch) {
            Some(node) => node.output_token(link, index),
            None => None,
        }
    }

    /// Whether all nodes are quiet.
    pub fn is_quiet(&self) -> bool
        ensures { IsTrue result ↔ All IsQuietNode (states (map P.shown self.now.places)) }
    {
        are_quiet(self.places())
    }
}

/// Whether all of these nodes are quiet.
fn are_quiet<T: TokenKind, P: Place<T>>(places: &[P]) -> bool
    ensures { IsTrue result ↔ All IsQuietNode (states (map P.shown places.now)) }
{
    for place in places {
        if !place.node().is_quiet() {
            return false;
        }
    }
    true
}
