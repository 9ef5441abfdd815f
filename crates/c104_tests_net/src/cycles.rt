use crate::plan_calls::plan_of;
use c104_check::{
    ChannelDependency, DependencyEdge, RanksOrCycle, SwitchPort, channel_dependencies, check,
    find_cycle,
};
use c104_label::image_of;
use c104_plan::Plan;
use c104_token::Items;
use std::alloc::Global;

/// Four switches in a ring, over which all packets go clockwise: by link 1, until link 0 leads to their terminal.
const RING: &[u8] = b"switch A\nswitch B\nswitch C\nswitch D\n\
    wire A.1 B.2\nwire B.1 C.2\nwire C.1 D.2\nwire D.1 A.2\n\
    terminal a A.0\nterminal b B.0\nterminal c C.0\nterminal d D.0\n\
    row A.0 1 0\nrow A.0 4 1\nrow A.2 1 0\nrow A.2 4 1\n\
    row B.0 1 1\nrow B.0 2 0\nrow B.0 4 1\nrow B.2 1 1\nrow B.2 2 0\nrow B.2 4 1\n\
    row C.0 2 1\nrow C.0 3 0\nrow C.0 4 1\nrow C.2 2 1\nrow C.2 3 0\nrow C.2 4 1\n\
    row D.0 3 1\nrow D.0 4 0\nrow D.2 3 1\nrow D.2 4 0\n";

/// A switch and a link of it.
type Ends = (usize, usize);

// These functions promise nothing, since the prover would compute with literals.

/// What is found in the network of a plan whose labels are accepted.
fn found(alloc: Global, plan: &Plan) -> Option<RanksOrCycle> {
    let Ok(image) = image_of(alloc, plan) else {
        return None;
    };
    match check(alloc, plan, &image) {
        Ok(_) => find_cycle(alloc, plan, &image).ok(),
        Err(_) => None,
    }
}

/// The dependencies of such a network.
fn edges(alloc: Global, plan: &Plan) -> Option<Items<DependencyEdge>> {
    let Ok(image) = image_of(alloc, plan) else {
        return None;
    };
    match check(alloc, plan, &image) {
        Ok(_) => channel_dependencies(alloc, plan, &image).ok(),
        Err(_) => None,
    }
}

fn is_port(port: SwitchPort, (switch, link): Ends) -> bool {
    port.switch == switch && port.link == link
}

/// Whether these are the inputs and headers of dependencies.
fn are_dependencies(found: &[ChannelDependency], expected: &[(Ends, u32)]) -> bool {
    found.len() == expected.len()
        && found.iter().zip(expected).all(|(it, (input, header))| is_port(it.input, *input)
            && it.header == *header)
}

fn is_cycle(found: &RanksOrCycle, expected: &[(Ends, u32)]) -> bool {
    match found {
        RanksOrCycle::Cycle(cycle) => are_dependencies(cycle.dependencies.as_slice(), expected),
        RanksOrCycle::Ranks(_) => false,
    }
}

/// Whether a description has this cycle, by inputs and headers.
fn has_cycle(alloc: Global, text: &[u8], expected: &[(Ends, u32)]) -> bool {
    let Some(plan) = plan_of(alloc, text) else {
        return false;
    };
    match found(alloc, &plan) {
        Some(found) => is_cycle(&found, expected),
        None => false,
    }
}

fn are_ranks(found: &RanksOrCycle, expected: &[(Ends, u32)]) -> bool {
    match found {
        RanksOrCycle::Ranks(ranks) => expected.iter().all(|((switch, link), rank)| {
            let input = SwitchPort {
                switch: *switch,
                link: *link,
            };
            ranks.rank(input) == *rank
        }),
        RanksOrCycle::Cycle(_) => false,
    }
}

/// Whether inputs of a description have these ranks.
fn has_ranks(alloc: Global, text: &[u8], expected: &[(Ends, u32)]) -> bool {
    let Some(plan) = plan_of(alloc, text) else {
        return false;
    };
    match found(alloc, &plan) {
        Some(found) => are_ranks(&found, expected),
        None => false,
    }
}

/// Whether a description has these dependencies, by input, next input and header.
fn has_edges(alloc: Global, text: &[u8], expected: &[(Ends, Ends, u32)]) -> bool {
    let Some(plan) = plan_of(alloc, text) else {
        return false;
    };
    let Some(edges) = edges(alloc, &plan) else {
        return false;
    };
    let edges = edges.as_slice();
    edges.len() == expected.len()
        && edges.iter().zip(expected).all(|(edge, (input, next, header))| {
            is_port(edge.input, *input) && is_port(edge.next, *next) && edge.header == *header
        })
}

/// What came over one wire of the ring may wait for what came over the next.
#[test]
fn of_a_ring(rt: HostRuntime) {
    let cycle = [((1, 2), 3), ((2, 2), 3), ((3, 2), 1), ((0, 2), 2)];
    assert!(rt; has_cycle(rt.alloc(), RING, cycle.as_slice()));
}

/// On a mesh a packet goes down its column and then along the row, and waits for none behind it.
#[test]
fn of_a_mesh(rt: HostRuntime) {
    let ranks = [
        ((0, 4), 4),
        ((3, 0), 3),
        ((4, 1), 2),
        ((5, 1), 1),
        ((6, 0), 0),
    ];
    assert!(rt; has_ranks(rt.alloc(), b"mesh 3 2 1\n", ranks.as_slice()));
}

#[test]
fn listed(rt: HostRuntime) {
    let edges = [((0, 4), (1, 1), 1), ((1, 4), (0, 2), 0)];
    assert!(rt; has_edges(rt.alloc(), b"mesh 2 1 1\n", edges.as_slice()));
}
