//! What a network tells of itself, what can be seen of its nodes, and why an event isn't ready in it.
ghost use Rattle.std.specs.{Option.option_copied, Prelude.{IfSome, IsTrue, is_some, ◌↔◌, ◌≡◌}};
ghost use Rattle.c104_run.specs.{NetViews.{network_link_view, network_sent_packet, network_terminal_view}, Network.network_apply};
ghost use Rattle.c104_run.specs.{Network.network_peek, ReasonMeanings.IsEventReason, Reasons.{is_unready, network_why}};
ghost use Rattle.{c104_run.specs.Standstill.StandsStill, c104_token.specs.Kinds.plain_kind};

use super::RecordedNet;
use crate::reason::Reason;
use crate::recorded_place::RecordedPlace;
use c104_event::Event;
use c104_node::TerminalView;
use c104_switch::LinkView;
use c104_token::{Packet, TokenKind};

impl<T: TokenKind, P: RecordedPlace<T>> RecordedNet<T, P> {
    /// How many events were done since the start of the run.
    pub fn done_count(&self) -> u64
        ensures { result ≡ self.now.count }
    {
        self.engine.count()
    }

    /// The value of the register at this address of a switch. None where the plan has no such
    /// switch, or no register has the address.
    pub fn peek(&self, switch: usize, addr: u16) -> Option<u32>
        ensures { result ≡ network_peek self.now.network switch addr }
    {
        self.engine.peek(switch, addr)
    }

    /// Why `apply` would answer NotReady to this event, and where: the first of its conditions that
    /// doesn't hold. None where the event would be done, or refused for whatever fault.
    pub fn why(&self, event: &Event) -> Option<Reason>
        ensures why { result ≡ network_why self.now.network event.now }
        ensures ready { is_some result ≡
            is_unready (network_apply plain_kind self.now.network event.now).0 }
        ensures holds { IfSome result (IsEventReason self.now.network event.now) }
    {
        // The proof reads here what every plan keeps.
        let _plan = self.engine.plan();
        self.engine.why(event)
    }

    /// Whether the network stands still: to each event of a round (`rounds`) `apply` would answer NotReady. False
    /// where one of them would be done, or be refused, as a Drain whose inbox is full. It changes nothing and takes
    /// no memory.
    pub fn stands_still(&self) -> bool
        ensures { IsTrue result ↔ StandsStill plain_kind self.now.network }
    {
        // The proof reads here what every plan keeps.
        let _plan = self.engine.plan();
        self.engine.stands_still()
    }

    /// What can be seen of a link of a switch. None where the plan has no such switch, or a switch no such link.
    pub fn view_link(&self, switch: usize, link: usize) -> Option<LinkView>
        ensures { result ≡ network_link_view plain_kind self.now.network switch link }
    {
        self.engine.view_link(switch, link)
    }

    /// What can be seen of a terminal. None where the plan has no such terminal.
    pub fn view_terminal(&self, terminal: usize) -> Option<TerminalView>
        ensures { result ≡ network_terminal_view self.now.network terminal }
    {
        self.engine.view_terminal(terminal)
    }

    /// The packet of this number, from 0, among those that a terminal sent since the start. None where it sent no such
    /// packet, or the plan has no such terminal.
    pub fn sent_packet(&self, terminal: usize, number: usize) -> Option<&Packet>
        ensures { option_copied result ≡ network_sent_packet self.now.network terminal number }
    {
        self.engine.sent_packet(terminal, number)
    }
}
