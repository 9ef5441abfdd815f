//! What is seen of a network where a round is over.
ghost use Rattle.std.specs.Prelude.{length, ◌<◌, ◌≡◌};
ghost use Rattle.c104_rows.specs.Sights.{counts_of_net, header_tokens, levels_of, levels_seen_if, levels_with_link, levels_with_terminal};
ghost use Rattle.c104_rows.specs.Sights.{link_levels, link_seen, links_levels, links_seen, outputs_held, ports_seen_if, switches_levels};
ghost use Rattle.c104_rows.specs.Sights.{switches_seen, terminal_levels, terminal_seen, terminals_levels, terminals_seen};
ghost use Rattle.{c104_run.specs.NetViews.{network_link_view, network_terminal_view}, c104_token.specs.Kinds.plain_kind};

use crate::counts::Counts;
use crate::rounds::Levels;
use c104_node::TerminalView;
use c104_plan::Port;
use c104_run::TracedNet;
use c104_switch::{HeaderBytes, LINKS, LinkView, Phase};

impl Levels {
    /// What there is, with what is seen of a link.
    fn with_link(self, view: &LinkView) -> Self
        ensures { result ≡ levels_with_link view.now self }
    {
        let buffered = self
            .inside
            .saturating_add(view.input_level as u64)
            .saturating_add(view.output_level as u64);
        Levels {
            waiting: self.waiting,
            inside: buffered.saturating_add(header_tokens(&view.phase)),
            held: self.held.saturating_add(outputs_held(&view.phase)),
        }
    }

    /// What there is, with what is seen of a terminal.
    fn with_terminal(self, view: TerminalView) -> Self
        ensures { result ≡ levels_with_terminal view self }
    {
        Levels {
            waiting: self.waiting.saturating_add(view.waiting as u64),
            inside: self.inside.saturating_add(view.undrained as u64),
            held: self.held,
        }
    }
}

/// How many tokens of a header an input has read, or has that waits.
fn header_tokens(phase: &Phase<HeaderBytes>) -> u64
    ensures { result ≡ header_tokens phase.now }
{
    match phase {
        Phase::Head(header) => header.as_slice().len() as u64,
        Phase::Want(header, _) => header.as_slice().len() as u64,
        Phase::Fresh | Phase::Stream(_) | Phase::Sinking => 0,
    }
}

/// How many outputs an input holds.
fn outputs_held(phase: &Phase<HeaderBytes>) -> u64
    ensures { result ≡ outputs_held phase.now }
{
    match phase {
        Phase::Stream(_) => 1,
        Phase::Fresh | Phase::Head(_) | Phase::Want(_, _) | Phase::Sinking => 0,
    }
}

impl Levels {
    /// What there is in a network.
    fn of(net: &TracedNet) -> Self
        ensures { result ≡ levels_of net.now.network }
    {
        let mut levels = Levels::new();
        add_switches(&mut levels, net);
        add_terminals(&mut levels, net);
        levels
    }
}

/// What there is in the switches joins the rest.
#[tactic(auto, using(crate::proofs::NumberSteps::none_yet, crate::proofs::NumberSteps::one_more))]
fn add_switches(levels: &mut Levels, net: &TracedNet)
    ensures { levels.new ≡ switches_levels net.now.network levels.old }
{
    for switch in 0..net.plan().switches().len() {
        add_links(levels, net, switch);
    }
}

/// The same at the links of a switch.
#[tactic(auto, using(crate::proofs::NumberSteps::none_yet, crate::proofs::NumberSteps::one_more))]
fn add_links(levels: &mut Levels, net: &TracedNet, switch: usize)
    ensures { levels.new ≡ links_levels net.now.network switch levels.old }
{
    for link in 0..LINKS {
        add_link(levels, net, switch, link);
    }
}

/// The same at a link.
fn add_link(levels: &mut Levels, net: &TracedNet, switch: usize, link: usize)
    ensures { levels.new ≡ link_levels (network_link_view plain_kind net.now.network switch link) levels.old }
{
    if let Some(view) = net.view_link(switch, link) {
        *levels = levels.with_link(&view);
    }
}

/// What there is at the terminals joins the rest.
#[tactic(auto, using(crate::proofs::NumberSteps::none_yet, crate::proofs::NumberSteps::one_more))]
fn add_terminals(levels: &mut Levels, net: &TracedNet)
    ensures { levels.new ≡ terminals_levels net.now.network levels.old }
{
    for terminal in 0..net.plan().terminals().len() {
        add_terminal(levels, net, terminal);
    }
}

/// The same at a terminal.
fn add_terminal(levels: &mut Levels, net: &TracedNet, terminal: usize)
    ensures { levels.new ≡ terminal_levels (network_terminal_view net.now.network terminal) levels.old }
{
    if let Some(view) = net.view_terminal(terminal) {
        *levels = levels.with_terminal(view);
    }
}

impl Counts {
    /// This is there in a network, before the next round begins or at the end of all. No more of it is looked at than is
    /// wanted.
    pub fn see_net(&mut self, net: &TracedNet)
        ensures { self.new ≡ counts_of_net net.now.network self.old }
    {
        let wanted = self.wanted();
        see_levels_if(self, net, wanted.rounds);
        see_ports_if(self, net, wanted.links);
    }
}

/// What there is in a network is seen, if it is wanted.
fn see_levels_if(counts: &mut Counts, net: &TracedNet, wanted: bool)
    ensures { counts.new ≡ levels_seen_if wanted net.now.network counts.old }
{
    if wanted {
        counts.see_levels(Levels::of(net));
    }
}

/// How many tokens wait at each port that has a wire is seen, if it is wanted.
fn see_ports_if(counts: &mut Counts, net: &TracedNet, wanted: bool)
    ensures { counts.new ≡ ports_seen_if wanted net.now.network counts.old }
{
    if wanted {
        see_switches(counts, net);
        see_terminals(counts, net);
    }
}

/// How many tokens wait at the wired links of the switches is seen.
#[tactic(auto, using(crate::proofs::NumberSteps::none_yet, crate::proofs::NumberSteps::one_more))]
fn see_switches(counts: &mut Counts, net: &TracedNet)
    ensures { counts.new ≡ switches_seen net.now.network counts.old }
{
    for switch in 0..net.plan().switches().len() {
        see_links(counts, net, switch);
    }
}

/// The same of a switch.
fn see_links(counts: &mut Counts, net: &TracedNet, switch: usize)
    requires { switch < length net.now.network.plan.switches }
    ensures { counts.new ≡ links_seen net.now.network switch counts.old }
{
    let wired = net.wires().linked(switch);
    let mut from = 0;
    while let Some(link) = wired.next(from, wired) {
        see_link(counts, net, switch, link);
        from = link + 1;
    }
}

/// The same of a link.
fn see_link(counts: &mut Counts, net: &TracedNet, switch: usize, link: usize)
    ensures { counts.new ≡
        link_seen (network_link_view plain_kind net.now.network switch link) switch link counts.old }
{
    if let Some(view) = net.view_link(switch, link) {
        counts.see_level(Port::Switch(switch, link), view.output_level as u64);
    }
}

/// How many tokens wait at the terminals is seen.
#[tactic(auto, using(crate::proofs::NumberSteps::none_yet, crate::proofs::NumberSteps::one_more))]
fn see_terminals(counts: &mut Counts, net: &TracedNet)
    ensures { counts.new ≡ terminals_seen net.now.network counts.old }
{
    for terminal in 0..net.plan().terminals().len() {
        see_terminal(counts, net, terminal);
    }
}

/// The same of a terminal.
fn see_terminal(counts: &mut Counts, net: &TracedNet, terminal: usize)
    ensures { counts.new ≡
        terminal_seen (network_terminal_view net.now.network terminal) terminal counts.old }
{
    if let Some(view) = net.view_terminal(terminal) {
        counts.see_level(Port::Terminal(terminal), view.waiting as u64);
    }
}
