//! The theorem about packets, cited where random headers are put before them.
//!
//! What a terminal sends begins with a label, and of labels that are accepted none is a random header. So a look at the
//! packet and at the labels shows that it may be sent, and the theorem names what is received behind the portals.
ghost use Rattle.std.specs.Prelude.{IfOk, IfSome, take, true, ◌≡◌};
ghost use Rattle.{c104_check.specs.Routes.{IsAccepted, routes_of}, c104_plan.specs.PlanImage.Fits, c104_switch.specs.Headers.header_number};
ghost use Rattle.c104_tests_net.specs.CalmNets.{HasLabel, IsCalm, IsNamedByCheck, IsNotRandom};

use crate::calls::{drop_plan, plan_of};
use crate::named_packets::{named, placed, rounds, send};
use c104_check::check;
use c104_label::image_of;
use c104_net::{Net, Origin};
use c104_plan::{Image, Plan, Port};
use c104_token::{Packet, parse_packet};
use std::alloc::Global;
use std::test::Fail;

/// A packet from A goes by the random header 300 over P, or by 301 to B at once, and from there on by its own header.
pub const PORTALS: &[u8] =
    b"header 2\nswitch A\nswitch P\nswitch B\nterminal a A.0\nterminal b B.0\n\
    wire A.1 P.0\nwire P.1 B.1\nwire A.2 B.2\nrandom A.0 300 2\n\
    row A.0 300 sink\nrow A.0 301 1\nrow A.0 302 2\nrow A.1 1 0\nrow A.2 1 0\n\
    row P.0 1 0\nrow P.0 2 1\nrow P.0 300 sink\nrow P.0 301 discard\n\
    row B.0 1 2\nrow B.0 2 0\nrow B.1 1 sink\nrow B.1 2 0\n\
    row B.2 1 2\nrow B.2 2 0\nrow B.2 301 sink\nrow B.2 302 discard\n";

/// The second of two packets is the second that arrives, since the first had arrived when it was sent.
#[test]
fn behind_portals(rt: HostRuntime) -> Result<(), Fail> {
    let plan = plan_of(rt.alloc(), PORTALS)?;
    let origin = through_portals(rt.alloc(), &plan, 40);
    drop_plan(plan);
    let due = Origin {
        terminal: 0,
        number: 1,
    };
    assert!(rt; origin? == due);
    Ok(())
}

// The count of rounds comes as an argument, since the prover would compute with a literal.

/// Which packet the second one is that terminal 1 received, after two were sent there.
fn through_portals(alloc: Global, plan: &Plan, count: u32) -> Result<Origin, Fail>
    ensures { IfOk result (λ origin. IsNamedByCheck plan.now 1 1 origin) }
{
    let image = image_of(alloc, plan)?;
    let origin = where_checked(alloc, plan, &image, count)?;
    Ok(origin)
}

/// The same with the plan's own image, where it is accepted.
#[tactic(auto, using(crate::proofs::NamedPackets::by_check))]
fn where_checked(alloc: Global, plan: &Plan, image: &Image, count: u32) -> Result<Origin, Fail>
    requires fits { Fits image.now plan.now }
    ensures { IfOk result (λ origin. IsNamedByCheck plan.now 1 1 origin) }
{
    check(alloc, plan, image)?;
    let net = after_two(alloc, plan, image, count)?;
    let origin = named(alloc, net, plan, image, 1, 1)?;
    Ok(origin)
}

/// A network in which two packets were sent, one after the other.
fn after_two(alloc: Global, plan: &Plan, image: &Image, count: u32) -> Result<Net, Fail>
    requires accepted { IsAccepted (routes_of plan.now image.now) }
    ensures { IfOk result (λ net. IsCalm plan.now image.now net) }
{
    let mut net = placed(alloc, plan, image)?;
    match send_labels(alloc, &mut net, plan, image, count) {
        Ok(()) => Ok(net),
        Err(error) => {
            net.retire();
            Err(error)
        }
    }
}

/// The first terminal sends two packets to the second, one after the other.
pub fn send_labels(
    alloc: Global,
    net: &mut Net,
    plan: &Plan,
    image: &Image,
    count: u32,
) -> Result<(), Fail>
    requires accepted { IsAccepted (routes_of plan.now image.now) }
    requires calm { IsCalm plan.now image.now net.old }
    ensures { IsCalm plan.now image.now net.new }
{
    let first = parse_packet(alloc, "01 00 aa eop")?;
    send_label(net, plan, image, first)?;
    rounds(net, count)?;
    let second = parse_packet(alloc, "01 00 bb eop")?;
    send_label(net, plan, image, second)?;
    rounds(net, count)?;
    Ok(())
}

/// The first terminal sends a packet to the second, if it begins with a label of that.
fn send_label(net: &mut Net, plan: &Plan, image: &Image, packet: Packet) -> Result<(), Fail>
    requires accepted { IsAccepted (routes_of plan.now image.now) }
    requires calm { IsCalm plan.now image.now net.old }
    ensures { IsCalm plan.now image.now net.new }
{
    if !is_for(plan, image, 1, &packet) {
        return Err("the header is no label".into());
    }
    send(net, 0, packet)?;
    Ok(())
}

/// Whether a packet begins with a two-byte header that is a label of a terminal, and so no random one.
fn is_for(plan: &Plan, image: &Image, terminal: usize, packet: &Packet) -> bool
    requires accepted { IsAccepted (routes_of plan.now image.now) }
    ensures { result ≡ true → IsNotRandom (routes_of plan.now image.now) packet.now }
{
    let Some(length) = header_length(plan, image, 0, 0) else {
        return false;
    };
    if length != 2 {
        return false;
    }
    let Some(header) = two_byte_header(packet) else {
        return false;
    };
    has_label(image, terminal, header)
}

/// How many bytes headers have at a link of a switch. None where it isn't wired.
fn header_length(plan: &Plan, image: &Image, switch: usize, link: usize) -> Option<usize>
    requires accepted { IsAccepted (routes_of plan.now image.now) }
    ensures { IfSome result (λ length. length ≡ (routes_of plan.now image.now).header) }
{
    let Some(_far) = plan.peer(Port::Switch(switch, link)) else {
        return None;
    };
    let Some(settings) = image.settings(switch) else {
        return None;
    };
    let Some(settings) = settings.get(link) else {
        return None;
    };
    Some(settings.header_length())
}

/// The two-byte header that a packet begins with, low byte first. None where it is shorter.
fn two_byte_header(packet: &Packet) -> Option<u32>
    ensures { IfSome result (λ header. header ≡ header_number (take 2 packet.now.bytes)) }
{
    let bytes = packet.bytes.as_bytes();
    let Some(low) = bytes.get(0) else {
        return None;
    };
    let Some(high) = bytes.get(1) else {
        return None;
    };
    Some(u32::from(*low) + 256 * u32::from(*high))
}

/// Whether a terminal has a label.
fn has_label(image: &Image, terminal: usize, label: u32) -> bool
    ensures { result ≡ true → HasLabel image.now terminal label }
{
    match image.range(terminal) {
        Some((first, count)) => first <= label && label - first < count,
        None => false,
    }
}
