//! The packets whose terminators are in a network, or wait at their senders.
ghost use Rattle.std.specs.Prelude.{◌≡◌};
ghost use Rattle.{c104_run.specs.NetViews.{network_link_view, network_terminal_view}, c104_rows.specs.Numbers.each_number};
ghost use Rattle.c104_rows.specs.Sights.{behind_found, counts_at_end, ended_by, found_in, found_out, link_found, links_found};
ghost use Rattle.c104_rows.specs.Sights.{origin_found, switches_found, terminal_found, terminals_found, token_found, waiting_found};
ghost use Rattle.c104_token.specs.Kinds.{plain_kind};

use crate::counts::Counts;
use c104_net::WaitingTokens;
use c104_node::{Origin, TaggedToken};
use c104_plan::Port;
use c104_run::TracedNet;
use c104_switch::LINKS;
use c104_token::{Token, TokenKind};

/// The packet that a token ends, if it ends one.
pub(crate) fn ended_by(token: TaggedToken) -> Option<Origin>
    ensures { result ≡ ended_by token }
{
    match token.plain() {
        Token::Eop | Token::Eom => Some(Origin {
            terminal: token.terminal(),
            number: token.number(),
        }),
        Token::Byte(_) => None,
    }
}

impl Counts {
    /// The run is at its end, and this is there in its network.
    pub fn end_at(&mut self, net: &TracedNet)
        ensures { self.new ≡ counts_at_end net.now self.old }
    {
        self.see_net(net);
        find_in_switches(self, net);
        find_in_terminals(self, net);
    }

    /// A token is found.
    fn find_token(&mut self, token: Option<TaggedToken>)
        ensures { self.new ≡ token_found token self.old }
    {
        let Some(token) = token else {
            return;
        };
        self.find_end(ended_by(token));
    }

    /// The terminator of a packet is found, if a packet ends.
    fn find_end(&mut self, ended: Option<Origin>)
        ensures { self.new ≡ origin_found ended self.old }
    {
        let Some(packet) = ended else {
            return;
        };
        self.find(packet);
    }
}

/// The packets that end in the switches are found.
#[tactic(auto, using(crate::proofs::NumberSteps::none_yet, crate::proofs::NumberSteps::one_more))]
fn find_in_switches(counts: &mut Counts, net: &TracedNet)
    ensures { counts.new ≡ switches_found net.now counts.old }
{
    for switch in 0..net.plan().switches().len() {
        find_in_links(counts, net, switch);
    }
}

/// The same of the links of a switch.
#[tactic(auto, using(crate::proofs::NumberSteps::none_yet, crate::proofs::NumberSteps::one_more))]
fn find_in_links(counts: &mut Counts, net: &TracedNet, switch: usize)
    ensures { counts.new ≡ links_found net.now switch counts.old }
{
    for link in 0..LINKS {
        find_in_link(counts, net, switch, link);
    }
}

/// The same of a link.
fn find_in_link(counts: &mut Counts, net: &TracedNet, switch: usize, link: usize)
    ensures { counts.new ≡
        link_found net.now (network_link_view plain_kind net.now.network switch link) switch link counts.old }
{
    let Some(view) = net.view_link(switch, link) else {
        return;
    };
    find_in(counts, net, Port::Switch(switch, link), view.input_level);
    find_out(counts, net, switch, link, view.output_level);
}

/// The packets that end at the terminals are found.
#[tactic(auto, using(crate::proofs::NumberSteps::none_yet, crate::proofs::NumberSteps::one_more))]
fn find_in_terminals(counts: &mut Counts, net: &TracedNet)
    ensures { counts.new ≡ terminals_found net.now counts.old }
{
    for terminal in 0..net.plan().terminals().len() {
        find_in_terminal(counts, net, terminal);
    }
}

/// The same of a terminal.
fn find_in_terminal(counts: &mut Counts, net: &TracedNet, terminal: usize)
    ensures { counts.new ≡
        terminal_found net.now (network_terminal_view net.now.network terminal) terminal counts.old }
{
    let Some(view) = net.view_terminal(terminal) else {
        return;
    };
    find_waiting(counts, terminal);
    find_in(counts, net, Port::Terminal(terminal), view.undrained);
}

/// The packets that end among the first tokens of what came in at a port are found.
#[tactic(auto, using(crate::proofs::NumberSteps::none_yet, crate::proofs::NumberSteps::one_more))]
fn find_in(counts: &mut Counts, net: &TracedNet, port: Port, level: usize)
    ensures { counts.new ≡ found_in net.now port level counts.old }
{
    for index in 0..level {
        counts.find_token(net.input_token(port, index));
    }
}

/// The same of the output of a switch's link.
#[tactic(auto, using(crate::proofs::NumberSteps::none_yet, crate::proofs::NumberSteps::one_more))]
fn find_out(counts: &mut Counts, net: &TracedNet, switch: usize, link: usize, level: usize)
    ensures { counts.new ≡ found_out net.now switch link level counts.old }
{
    for index in 0..level {
        counts.find_token(net.output_token(switch, link, index));
    }
}

/// The packets that wait at a terminal, or of which a token does, are found.
fn find_waiting(counts: &mut Counts, terminal: usize)
    ensures { counts.new ≡ waiting_found terminal counts.old }
{
    let Some(wire) = counts.wires().get(terminal).copied() else {
        return;
    };
    let Some(sender) = counts.senders().get(terminal) else {
        return;
    };
    let count = sender.packets().len();
    find_behind(counts, terminal, wire.packets as usize, count);
}

/// Of the first packets of a terminal those are found that come behind this many.
#[tactic(auto, using(crate::proofs::NumberSteps::none_yet, crate::proofs::NumberSteps::one_more))]
fn find_behind(counts: &mut Counts, terminal: usize, gone: usize, count: usize)
    ensures { counts.new ≡ each_number (behind_found terminal gone) count counts.old }
{
    for number in 0..count {
        find_if(counts, terminal, gone, number);
    }
}

/// A packet of a terminal is found if it comes behind this many.
fn find_if(counts: &mut Counts, terminal: usize, gone: usize, number: usize)
    ensures { counts.new ≡ behind_found terminal gone number counts.old }
{
    if gone <= number {
        counts.find(Origin { terminal, number });
    }
}
