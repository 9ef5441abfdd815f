//! Lists of a made run, for tests of the audit.
//!
//! A switch has a wire to each of two terminals. Before the seats the switch grants credit to the terminal 0. Then the seat
//! 0 sends a packet at this terminal, the seat 1 resets the switch, the seat 0 lets a token out to the switch, and
//! the seat 1 grants credit at the terminal 1.
ghost use Rattle.std.specs.Prelude.{◌≡◌, ◌∷◌, [], IfOk, length};
ghost use Rattle.c104_audit.specs.Audits.{AreLists};
ghost use Rattle.c104_plan.specs.declared.ports.Port.TheVariants as port;

use c104_audit::{Call, Lists, NodeShape};
use c104_control::ControlBytes;
use c104_event::{Event, Port};
use c104_node::{Act, Entry, NodeStart, SentPacket, TerminalStart};
use c104_plan::Wire;
use c104_switch::{ActionOf, LINKS, Reply, SwitchStart};
use c104_token::{Items, Packet, Token, parse_packet};
use std::alloc::Global;
use std::test::Fail;

/// What is altered in the lists.
#[derive(Clone, Copy, PartialEq, Eq)]
pub enum Altered {
    /// The switch has smaller buffers.
    Buffers,
    /// A link of the terminal 1 that has no wire is kept as wired.
    Links,
    /// The token goes out at the terminal 0 with the ticket of the packet that it sent.
    Ticket,
    /// Another token comes in at the switch.
    Token,
    /// The control command is answered otherwise.
    Reply,
    /// The token comes in at the switch by the seat 1.
    FarSeat,
    /// The last grant is by the seat 7, which has no list.
    Stray,
    /// The last call of the seat 0 has no list.
    Call,
    /// A ticket below the first.
    First,
    /// What the terminal 0 had done before is left out.
    Before,
    /// The terminal 1 had another start.
    Start,
}

/// Whether this is among what is altered.
fn has(altered: &[Altered], what: Altered) -> bool {
    altered.iter().any(|other| *other == what)
}

/// One of two values, by what is altered.
fn either<T: Copy + Drop>(altered: &[Altered], what: Altered, value: T, usual: T) -> T {
    if has(altered, what) { value } else { usual }
}

/// An entry.
fn entry(ticket: u64, seat: Option<u8>, act: Act, reply: Reply) -> Entry {
    Entry {
        ticket,
        act,
        reply,
        seat,
    }
}

fn packet(alloc: Global) -> Result<Packet, Fail> {
    Ok(parse_packet(alloc, "aa eop")?)
}

fn sent_packet(alloc: Global) -> Result<SentPacket, Fail> {
    let packet = packet(alloc)?;
    Ok(SentPacket::copy_of(&packet)?)
}

/// A list of three.
fn three<T: Drop>(alloc: Global, first: T, second: T, third: T) -> Result<Items<T>, Fail>
    ensures { IfOk result (λ items. length items ≡ 3) }
{
    let mut items = Vec::with_capacity(alloc, 3)?;
    items.push_reserved(first);
    items.push_reserved(second);
    items.push_reserved(third);
    Ok(Items::new(items))
}

/// What the switch did.
fn switch_trace(alloc: Global, altered: &[Altered]) -> Result<Items<Entry>, Fail> {
    let token = either(
        altered,
        Altered::Token,
        Token::Byte(0xab),
        Token::Byte(0xaa),
    );
    let far_seat = either(altered, Altered::FarSeat, Some(1), Some(0));
    let last = either(altered, Altered::Stray, Some(7), Some(1));
    let mut trace = Vec::with_capacity(alloc, 4)?;
    trace.push_reserved(entry(0, None, Act::Step(ActionOf::CreditOut(0)), Reply::Done));
    let reset = Act::Step(ActionOf::Control(ControlBytes::new(&[2])));
    let answer = Reply::Control(ControlBytes::new(&[130]));
    trace.push_reserved(entry(2, Some(1), reset, answer));
    let enter = Act::Step(ActionOf::Enter(0, token));
    trace.push_reserved(entry(3, far_seat, enter, Reply::Done));
    trace.push_reserved(entry(4, last, Act::Step(ActionOf::CreditIn(1)), Reply::Done));
    Ok(Items::new(trace))
}

/// What the terminal 0 did.
fn near_trace(alloc: Global, altered: &[Altered]) -> Result<Items<Entry>, Fail> {
    let ticket = either(altered, Altered::Ticket, 1, 3);
    let sent = sent_packet(alloc)?;
    let mut trace = Vec::with_capacity(alloc, 3)?;
    trace.push_reserved(entry(0, None, Act::CreditIn, Reply::Done));
    trace.push_reserved(entry(1, Some(0), Act::Send(sent), Reply::Done));
    let reply = Reply::Token(Token::Byte(0xaa));
    trace.push_reserved(entry(ticket, Some(0), Act::Leave, reply));
    Ok(Items::new(trace))
}

/// What the terminal 1 did.
fn far_trace(alloc: Global, altered: &[Altered]) -> Result<Items<Entry>, Fail> {
    let last = either(altered, Altered::Stray, Some(7), Some(1));
    let mut trace = Vec::with_capacity(alloc, 1)?;
    trace.push_reserved(entry(4, last, Act::CreditOut, Reply::Done));
    Ok(Items::new(trace))
}

/// One entry by no seat, or none.
fn before_of(alloc: Global, act: Option<Act>) -> Result<Items<Entry>, Fail> {
    let mut trace = Vec::with_capacity(alloc, 1)?;
    if let Some(act) = act {
        trace.push_reserved(entry(0, None, act, Reply::Done));
    }
    Ok(Items::new(trace))
}

/// What the nodes did.
fn traces(alloc: Global, altered: &[Altered]) -> Result<Items<Items<Entry>>, Fail>
    ensures { IfOk result (λ items. length items ≡ 3) }
{
    let switch = switch_trace(alloc, altered)?;
    let near = near_trace(alloc, altered)?;
    let far = far_trace(alloc, altered)?;
    three(alloc, switch, near, far)
}

/// What the nodes had done before.
fn before(alloc: Global, altered: &[Altered]) -> Result<Items<Items<Entry>>, Fail>
    ensures { IfOk result (λ items. length items ≡ 3) }
{
    let near = if has(altered, Altered::Before) {
        None
    } else {
        Some(Act::CreditIn)
    };
    let switch = before_of(alloc, Some(Act::Step(ActionOf::CreditOut(0))))?;
    let near = before_of(alloc, near)?;
    let far = before_of(alloc, None)?;
    three(alloc, switch, near, far)
}

/// The start of a switch and of two terminals, whose buffers have 16 places.
fn starts(alloc: Global, altered: &[Altered]) -> Result<Items<NodeStart>, Fail>
    ensures { IfOk result (λ items. length items ≡ 3) }
{
    let far = if has(altered, Altered::Start) {
        TerminalStart::new(8)
    } else {
        TerminalStart::new(16)
    };
    let switch = NodeStart::Switch(SwitchStart::new(alloc, 16)?);
    let near = NodeStart::Terminal(TerminalStart::new(16));
    three(alloc, switch, near, NodeStart::Terminal(far))
}

/// Of 32 links the first few are wired.
fn wired(alloc: Global, count: usize) -> Result<Items<bool>, Fail> {
    let mut links = Vec::with_capacity(alloc, LINKS)?;
    for link in 0..LINKS {
        links.push(link < count)?;
    }
    Ok(Items::new(links))
}

/// A terminal as it keeps itself.
fn terminal(alloc: Global, links: usize) -> Result<NodeShape, Fail> {
    let wired = wired(alloc, links)?;
    Ok(NodeShape {
        is_switch: false,
        cap: 16,
        wired,
        start: NodeStart::Terminal(TerminalStart::new(16)),
    })
}

/// The switch as it keeps itself.
fn switch(alloc: Global, cap: usize) -> Result<NodeShape, Fail> {
    let wired = wired(alloc, 2)?;
    let start = SwitchStart::new(alloc, 16)?;
    Ok(NodeShape {
        is_switch: true,
        cap,
        wired,
        start: NodeStart::Switch(start),
    })
}

/// The nodes as they keep themselves.
fn nodes(alloc: Global, altered: &[Altered]) -> Result<Items<NodeShape>, Fail>
    ensures { IfOk result (λ items. length items ≡ 3) }
{
    let cap = either(altered, Altered::Buffers, 8, 16);
    let links = either(altered, Altered::Links, 2, 1);
    let switch = switch(alloc, cap)?;
    let near = terminal(alloc, 1)?;
    let far = terminal(alloc, links)?;
    three(alloc, switch, near, far)
}

/// The calls of the seat 0.
fn first_calls(alloc: Global, altered: &[Altered]) -> Result<Items<Call>, Fail> {
    let packet = packet(alloc)?;
    let mut calls = Vec::with_capacity(alloc, 2)?;
    calls.push_reserved(Call {
        ticket: 1,
        event: Event::Send {
            terminal: 0,
            packet,
        },
        reply: Reply::Done,
    });
    if !has(altered, Altered::Call) {
        calls.push_reserved(Call {
            ticket: 3,
            event: Event::Cross(Port::Terminal(0)),
            reply: Reply::Token(Token::Byte(0xaa)),
        });
    }
    Ok(Items::new(calls))
}

/// The calls of the seat 1.
fn second_calls(alloc: Global, altered: &[Altered]) -> Result<Items<Call>, Fail> {
    let answer = either(altered, Altered::Reply, 7, 130);
    let mut calls = Vec::with_capacity(alloc, 2)?;
    calls.push_reserved(Call {
        ticket: 2,
        event: Event::Control {
            switch: 0,
            bytes: ControlBytes::new(&[2]),
        },
        reply: Reply::Control(ControlBytes::new(&[answer])),
    });
    if !has(altered, Altered::Stray) {
        calls.push_reserved(Call {
            ticket: 4,
            event: Event::Credit(Port::Terminal(1)),
            reply: Reply::Done,
        });
    }
    Ok(Items::new(calls))
}

fn calls(alloc: Global, altered: &[Altered]) -> Result<Items<Items<Call>>, Fail> {
    let first = first_calls(alloc, altered)?;
    let second = second_calls(alloc, altered)?;
    let mut calls = Vec::with_capacity(alloc, 2)?;
    calls.push_reserved(first);
    calls.push_reserved(second);
    Ok(Items::new(calls))
}

/// What each node keeps of itself and did, with the rest left out.
#[derive(Drop)]
struct Kept {
    nodes: Items<NodeShape>,
    traces: Items<Items<Entry>>,
}

/// What each node had before.
#[derive(Drop)]
struct Handed {
    starts: Items<NodeStart>,
    before: Items<Items<Entry>>,
}

fn made_kept(alloc: Global, altered: &[Altered]) -> Result<Kept, Fail>
    ensures nodes { IfOk result (λ kept. length kept.nodes ≡ 3) }
    ensures traces { IfOk result (λ kept. length kept.traces ≡ 3) }
{
    let nodes = nodes(alloc, altered)?;
    let traces = traces(alloc, altered)?;
    Ok(Kept { nodes, traces })
}

fn made_handed(alloc: Global, altered: &[Altered]) -> Result<Handed, Fail>
    ensures starts { IfOk result (λ handed. length handed.starts ≡ 3) }
    ensures before { IfOk result (λ handed. length handed.before ≡ 3) }
{
    let starts = starts(alloc, altered)?;
    let before = before(alloc, altered)?;
    Ok(Handed { starts, before })
}

/// The two wires.
fn wires(alloc: Global) -> Result<Items<Wire>, Fail>
    ensures { IfOk result (λ items. items ≡ record { here = port.Terminal 0; there = port.Switch 0 0 }
        ∷ record { here = port.Terminal 1; there = port.Switch 0 1 } ∷ []) }
{
    let mut wires = Vec::with_capacity(alloc, 2)?;
    wires.push_reserved(Wire {
        here: Port::Terminal(0),
        there: Port::Switch(0, 0),
    });
    wires.push_reserved(Wire {
        here: Port::Terminal(1),
        there: Port::Switch(0, 1),
    });
    Ok(Items::new(wires))
}

/// The lists, altered.
pub fn made_lists(alloc: Global, altered: &[Altered]) -> Result<Lists, Fail>
    ensures { IfOk result AreLists }
{
    let first = either(altered, Altered::First, 2, 1);
    let kept = made_kept(alloc, altered)?;
    let handed = made_handed(alloc, altered)?;
    with_calls(alloc, altered, first, kept, handed)
}

fn with_calls(
    alloc: Global,
    altered: &[Altered],
    first: u64,
    kept: Kept,
    handed: Handed,
) -> Result<Lists, Fail>
    requires nodes { length kept.nodes ≡ 3 }
    requires traces { length kept.traces ≡ 3 }
    requires starts { length handed.starts ≡ 3 }
    requires before { length handed.before ≡ 3 }
    ensures { IfOk result AreLists }
{
    let wires = wires(alloc)?;
    let calls = calls(alloc, altered)?;
    let Kept { nodes, traces } = kept;
    let Handed { starts, before } = handed;
    Ok(Lists {
        first,
        switches: 1,
        cap: 16,
        wires,
        starts,
        before,
        nodes,
        traces,
        calls,
    })
}
