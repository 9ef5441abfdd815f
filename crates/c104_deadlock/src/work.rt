//! The work that is left in a network: a number that each event of a round makes smaller, where it is done and puts no
//! random header before a packet.
//!
//! By it a caller knows how many rounds are enough. It is counted node by node, from what each holds.
ghost use Rattle.std.specs.Prelude.{length, map, slice_get, ℕ, ◌*◌, ◌+◌, ◌<◌, ◌≡◌, ◌≤◌};
ghost use Rattle.c104_check.specs.{Ranks.rank_in, Walks.port_of, declared.ports.SwitchPort.SwitchPort as TheInput};
ghost use Rattle.c104_deadlock.specs.HeaderWork.{full_input, full_inputs, full_link, full_node, full_outputs, full_terminal, none_ahead};
ghost use Rattle.{c104_deadlock.specs.{HeaderWork.{work, work_bound}, Work.{header_held, level, told_work}}, c104_node.specs.Places.states};
ghost use Rattle.{c104_node.specs.Traces.part, c104_plan.specs.Wiring.peer, c104_regs.specs.declared.registers.TheConstants.LINKS};
ghost use Rattle.{c104_run.specs.Network.Network, c104_token.specs.declared.tokens.Token.Token as TheToken};

use c104_check::{Ranks, SwitchPort};
use c104_event::Port;
use c104_node::{NodeOf, Place, TerminalOf};
use c104_plan::Plan;
use c104_run::{RecordedNet, RecordedPlace};
use c104_switch::{HeaderBytes, LINKS, Phase, SwitchOf};
use c104_token::TokenKind;

/// The work that is left in a network.
pub trait LeftWork {
    /// The network.
    ghost network: { Self → Network TheToken };

    /// The work that is left, by ranks that fall along the channel dependencies, as `find_cycle` gives them: each token
    /// weighs eight for each rank that it may pass through, and a little more, and each buffer the room that it could
    /// still grant. Where no link puts random headers before packets, each event of a round that is done makes it
    /// smaller, so that in a network without a cycle of dependencies more rounds than this leave nothing to do. Where one
    /// does, nothing is said of how many rounds are enough, since such a header is counted only once it is made. At most
    /// 2⁶⁴ - 1 is told, which no work comes near: a plan has at most 64 switches and 256 terminals, at each of which at
    /// most 65,536 tokens wait to go out.
    fn work(&self, ranks: &Ranks) -> u64
        ensures { result ≡ told_work
            (work (network self.now).plan (rank_in ranks.now.by_place) (network self.now).nodes) };

    /// A bound of that work by tokens and buffers alone, for labels whose ranks nobody has: as if each input had the
    /// highest rank that is needed, 32 for each switch. At most 2⁶⁴ - 1 is told.
    fn work_bound(&self) -> u64
        ensures { result ≡ told_work (work_bound (network self.now).plan (network self.now).nodes) };
}

/// Of a network that keeps its traces, and of one whose tokens tell their packets.
impl<T: TokenKind, P: RecordedPlace<T>> LeftWork for RecordedNet<T, P> {
    ghost use Rattle.c104_run.specs.NetRecords.{NetRecord};

    ghost network = { λ (r : NetRecord). r.network };

    fn work(&self, ranks: &Ranks) -> u64
        ensures { result ≡ told_work
            (work self.now.network.plan (rank_in ranks.now.by_place) self.now.network.nodes) }
    {
        work_of_nodes(self.plan(), ranks, self.places())
    }

    fn work_bound(&self) -> u64
        ensures { result ≡ told_work (work_bound self.now.network.plan self.now.network.nodes) }
    {
        let plan = self.plan();
        let rank = highest_rank(plan);
        work_of_nodes(plan, &SameRank { rank }, self.places())
    }
}

/// Ranks of inputs.
pub trait Ranking {
    /// The rank of each input.
    ghost rank: { Self → TheInput → ℕ };

    /// The rank of an input.
    fn rank_of(&self, input: SwitchPort) -> u32
        ensures { result ≡ rank self.now input };
}

impl Ranking for Ranks {
    ghost use Rattle.std.specs.Prelude.{◌≡◌};
    ghost use Rattle.c104_check.specs.Ranks.{rank_in};

    ghost rank = { λ ranks. rank_in ranks.by_place };

    fn rank_of(&self, input: SwitchPort) -> u32
        ensures { result ≡ rank_in self.now.by_place input }
    {
        self.rank(input)
    }
}

/// The same rank for each input.
#[derive(Drop)]
struct SameRank {
    rank: u32,
}

impl Ranking for SameRank {
    ghost use Rattle.std.specs.Prelude.{◌≡◌};

    ghost rank = { λ same input. same.rank };

    fn rank_of(&self, _input: SwitchPort) -> u32
        ensures { result ≡ self.now.rank }
    {
        self.rank
    }
}

/// The highest rank that an input of a plan needs: how many inputs there are.
// A plan has at most 64 switches.
fn highest_rank(plan: &Plan) -> u32
    ensures { result ≡ LINKS * length plan.now.switches }
{
    let switches = plan.switches().len();
    (LINKS * switches) as u32
}

/// The work of nodes, by their places.
fn work_of_nodes<T: TokenKind, P: Place<T>, R: Ranking>(plan: &Plan, ranks: &R, nodes: &[P]) -> u64
    ensures { result ≡ told_work (work plan.now (R.rank ranks.now) (states (map P.shown nodes.now))) }
{
    let mut sum = 0;
    for place in 0..nodes.len() {
        let one = work_of_node(plan, ranks, place, nodes[place].node());
        sum = added(sum, one);
    }
    sum
}

/// The work of the node at a place.
fn work_of_node<T: TokenKind, R: Ranking>(
    plan: &Plan,
    ranks: &R,
    place: usize,
    node: &NodeOf<T>,
) -> u64
    ensures { result ≡ told_work (full_node plan.now (R.rank ranks.now) none_ahead place node.now) }
{
    match node {
        NodeOf::Switch(switch) => work_of_switch(plan, ranks, place, switch),
        NodeOf::Terminal(terminal) => work_of_terminal(plan, ranks, place, terminal),
    }
}

/// The work of a switch, link by link.
fn work_of_switch<T: TokenKind, R: Ranking>(
    plan: &Plan,
    ranks: &R,
    place: usize,
    switch: &SwitchOf<T>,
) -> u64
    ensures { result ≡ told_work
        (full_inputs plan.now (R.rank ranks.now) none_ahead place switch.now.inputs
        + full_outputs plan.now (R.rank ranks.now) none_ahead place switch.now.outputs) }
{
    // The proof reads by this name what every switch keeps.
    let _started = switch.started();
    let mut sum = 0;
    for link in 0..LINKS {
        let one = work_of_link(plan, ranks, place, link, switch);
        sum = added(sum, one);
    }
    sum
}

/// The work of both sides of a link of a switch.
fn work_of_link<T: TokenKind, R: Ranking>(
    plan: &Plan,
    ranks: &R,
    place: usize,
    link: usize,
    switch: &SwitchOf<T>,
) -> u64
    requires { link < LINKS }
    ensures { result ≡ told_work
        (part 0 (full_input plan.now (R.rank ranks.now) none_ahead place link) (slice_get switch.now.inputs link)
        + part 0 (full_link plan.now (R.rank ranks.now) none_ahead place link) (slice_get switch.now.outputs link)) }
{
    // The proof reads by this name what every switch keeps.
    let _started = switch.started();
    let (Some(view), Some(room)) = (switch.view(link), switch.room(link)) else {
        unreachable!();
    };
    let own = 8 * level_at(ranks, place, link);
    let far = 8 * level(plan, ranks, Port::Switch(place, link));
    let header = header_length(&view.phase);
    let came_in = added(weight(view.input_level, own + 2), room as u64);
    let input = added(came_in, weight(header, own));
    let output = weight(view.output_level, far + 4);
    added(input, output)
}

/// The work of a terminal, which stands at a place among the nodes.
fn work_of_terminal<T: TokenKind, R: Ranking>(
    plan: &Plan,
    ranks: &R,
    place: usize,
    terminal: &TerminalOf<T>,
) -> u64
    ensures { result ≡ told_work (full_terminal plan.now (R.rank ranks.now) none_ahead place terminal.now) }
{
    let number = place.saturating_sub(plan.switches().len());
    let far = 8 * level(plan, ranks, Port::Terminal(number));
    let view = terminal.view();
    let input = added(weight(view.undrained, 2), terminal.room() as u64);
    let output = weight(view.waiting, far + 4);
    added(input, output)
}

/// How far a token is from its end at an input of a switch.
fn level_at<R: Ranking>(ranks: &R, switch: usize, link: usize) -> u64
    ensures level { result ≡ R.rank ranks.now (port_of switch link) + 1 }
    ensures few { result ≤ 4294967296 }
{
    u64::from(ranks.rank_of(SwitchPort { switch, link })) + 1
}

/// How far a token is from its end that goes out at a port.
fn level<R: Ranking>(plan: &Plan, ranks: &R, port: Port) -> u64
    ensures level { result ≡ level plan.now (R.rank ranks.now) (peer plan.now port) }
    ensures few { result ≤ 4294967296 }
{
    match plan.peer(port) {
        Some(Port::Switch(switch, link)) => level_at(ranks, switch, link),
        Some(Port::Terminal(_)) | None => 0,
    }
}

/// How many bytes of a header are read, or wait.
fn header_length(phase: &Phase<HeaderBytes>) -> usize
    ensures { result ≡ length (header_held phase.now) }
{
    match phase {
        Phase::Head(bytes) | Phase::Want(bytes, _) => bytes.as_slice().len(),
        Phase::Fresh | Phase::Stream(_) | Phase::Sinking => 0,
    }
}

/// As much for each of `count` tokens.
fn weight(count: usize, each: u64) -> u64
    ensures { result ≡ told_work (count * each) }
{
    (count as u64).saturating_mul(each)
}

/// The work of two.
fn added(one: u64, other: u64) -> u64
    ensures { result ≡ told_work (one + other) }
{
    one.saturating_add(other)
}
