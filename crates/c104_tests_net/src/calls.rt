//! The calls that tests make of plans, networks and runs, with nothing promised. What their contracts say would be
//! facts of every later goal of a test, and the prover would compute with literal texts and counts.
use c104_control::ControlBytes;
use c104_describe::read_description;
use c104_event::{Event, EventFault};
use c104_label::image_of;
use c104_net::{ArrivedOf, Entry, Net, NetParts, Reason, Run, round_part};
use c104_plan::{Image, Plan, hand_image};
use c104_run::Wires;
use c104_switch::Reply;
use c104_token::{Packet, Token, parse_packet};
use c104_tools::{ControlPort, LoadFault, load, verify, write_register};
use std::alloc::Global;
use std::test::Fail;

/// The plan of a description.
pub fn plan_of(alloc: Global, text: &[u8]) -> Result<Plan, Fail> {
    Ok(read_description(alloc, text)?)
}

/// The image of a plan's own lines.
pub fn own_image(alloc: Global, plan: &Plan) -> Result<Image, Fail> {
    Ok(hand_image(alloc, plan)?)
}

/// The image of a plan's labels.
pub fn label_image(alloc: Global, plan: &Plan) -> Result<Image, Fail> {
    Ok(image_of(alloc, plan)?)
}

/// The part of a node in a round.
pub fn part_of(alloc: Global, plan: &Plan, node: usize) -> Result<Vec<Event>, Fail> {
    let wires = Wires::new(alloc, plan.clone()?)?;
    let part = round_part(alloc, &wires, node);
    drop_plan(wires.into_plan());
    Ok(part?)
}

/// Drops a plan. Whoever owns one hands it over here, since it is expensive to prove that one may be dropped.
pub fn drop_plan(_plan: Plan) {}

/// Drops a run, for the same reason.
pub fn drop_run(_run: Run) {}

/// The image of a description's own lines.
pub fn described_image(alloc: Global, text: &[u8]) -> Result<Image, Fail> {
    let plan = plan_of(alloc, text)?;
    let image = own_image(alloc, &plan);
    drop_plan(plan);
    image
}

/// A network of a plan, no switch of which is started.
fn new_net(alloc: Global, plan: &Plan) -> Result<Net, Fail> {
    Ok(Net::new(alloc, plan)?)
}

/// A network of a plan, with an image's settings.
fn placed_net(alloc: Global, plan: &Plan, image: &Image) -> Result<Net, Fail> {
    Ok(Net::placed(alloc, plan, image)?)
}

/// A network of a plan, with the image of its own lines.
fn own_net(alloc: Global, plan: &Plan) -> Result<Net, Fail> {
    let image = own_image(alloc, plan)?;
    placed_net(alloc, plan, &image)
}

/// A network of a plan, with the image of its labels.
fn label_net(alloc: Global, plan: &Plan) -> Result<Net, Fail> {
    let image = label_image(alloc, plan)?;
    placed_net(alloc, plan, &image)
}

/// A network of a description, no switch of which is started.
pub fn new_network(alloc: Global, text: &[u8]) -> Result<Net, Fail> {
    let plan = plan_of(alloc, text)?;
    let net = new_net(alloc, &plan);
    drop_plan(plan);
    net
}

/// A network of a description, with the image of its own lines.
pub fn placed_network(alloc: Global, text: &[u8]) -> Result<Net, Fail> {
    let plan = plan_of(alloc, text)?;
    let net = own_net(alloc, &plan);
    drop_plan(plan);
    net
}

/// A network of a description, with the image of its labels.
pub fn labelled_network(alloc: Global, text: &[u8]) -> Result<Net, Fail> {
    let plan = plan_of(alloc, text)?;
    let net = label_net(alloc, &plan);
    drop_plan(plan);
    net
}

/// The run of a network.
pub fn finish(net: Net) -> Run {
    net.finish()
}

/// Disposes of a network.
pub fn retire(net: Net) {
    net.retire();
}

/// The parts of a network.
pub fn take_apart(net: Net) -> NetParts {
    net.into_nodes()
}

/// The run that the nodes of a network tell which was taken apart.
pub fn told_run(alloc: Global, parts: &NetParts) -> Result<Run, Fail> {
    Ok(Run::of_nodes(alloc, parts.plan(), parts.nodes(), parts.count())?)
}

/// The packet of a text.
pub fn packet_of(alloc: Global, text: &str) -> Result<Packet, Fail> {
    Ok(parse_packet(alloc, text)?)
}

/// What comes of an event.
pub fn answer(net: &mut Net, event: &Event) -> Result<Reply, EventFault> {
    net.apply(event)
}

/// Does an event, whatever the network replies.
pub fn apply(net: &mut Net, event: &Event) -> Result<(), Fail> {
    net.apply(event)?;
    Ok(())
}

/// Whether these are the answers to the events in turn.
pub fn answers(
    alloc: Global,
    net: &mut Net,
    events: &[Event],
    due: &[Result<Reply, EventFault>],
) -> Result<bool, Fail> {
    let answers = net.apply_all(alloc, events)?;
    Ok(answers.as_slice() == due)
}

/// A terminal sends the packet of a text.
pub fn send(alloc: Global, net: &mut Net, terminal: usize, text: &str) -> Result<(), Fail> {
    let packet = packet_of(alloc, text)?;
    apply(net, &Event::Send { terminal, packet })
}

/// Does `count` rounds.
pub fn rounds(net: &mut Net, count: u32) -> Result<(), Fail> {
    net.rounds(count)?;
    Ok(())
}

/// Whether all is quiet.
pub fn is_quiet(net: &Net) -> bool {
    net.quiet()
}

/// Begins a run where all is quiet.
pub fn begin(net: &mut Net) -> bool {
    net.begin()
}

/// Why an event isn't ready.
pub fn reason(net: &Net, event: &Event) -> Option<Reason> {
    net.why(event)
}

/// The value of a register.
pub fn register(net: &Net, switch: usize, address: u16) -> Option<u32> {
    net.peek(switch, address)
}

/// How many entries the trace of a node has, and 0 where there is no such node.
pub fn entry_count(net: &Net, node: usize) -> usize {
    match net.trace(node) {
        Some(trace) => trace.len(),
        None => 0,
    }
}

/// Whether these tokens have arrived at a terminal so far.
pub fn has_arrived(net: &Net, terminal: usize, due: &[Token]) -> bool {
    are_tokens(net.arrived(terminal), due)
}

/// Whether these tokens had arrived at a terminal at the end of a run.
pub fn did_arrive(run: &Run, terminal: usize, due: &[Token]) -> bool {
    are_tokens(run.arrived(terminal), due)
}

/// Whether what arrived are these tokens.
fn are_tokens(arrived: Option<&ArrivedOf<Token>>, due: &[Token]) -> bool {
    let Some(arrived) = arrived else {
        return false;
    };
    for (index, token) in due.iter().enumerate() {
        if arrived.get(index) != Some(*token) {
            return false;
        }
    }
    arrived.len() == due.len()
}

/// What a node did in a run.
pub fn trace(run: &Run, node: usize) -> Option<&[Entry]> {
    run.trace(node)
}

/// How many switches the network of a run has.
pub fn switch_count(run: &Run) -> usize {
    run.plan().switches().len()
}

/// How many events were done in a run.
pub fn event_count(run: &Run) -> u64 {
    run.count()
}

/// What a switch of a network replies to a control command.
pub fn command(
    net: &mut Net,
    switch: usize,
    bytes: &ControlBytes,
) -> Result<ControlBytes, EventFault> {
    net.command(switch, bytes)
}

/// Loads an image.
pub fn load_image<P: ControlPort>(port: &mut P, image: &Image) -> Result<(), LoadFault> {
    load(port, image)
}

/// Compares what was loaded with an image.
pub fn verify_image<P: ControlPort>(port: &mut P, image: &Image) -> Result<(), LoadFault> {
    verify(port, image)
}

/// Writes a register.
pub fn write<P: ControlPort>(
    port: &mut P,
    switch: usize,
    address: u16,
    value: u32,
) -> Result<(), LoadFault> {
    write_register(port, switch, address, value)
}
