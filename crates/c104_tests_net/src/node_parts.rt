use crate::calls::{drop_plan, part_of, plan_of};
use c104_net::{Event, Port};
use c104_plan::Plan;
use std::alloc::Global;
use std::process::Abort;
use std::test::Fail;

/// Three switches in a row, between the terminals `a` and `c`. Each has two wires.
const ROW: &[u8] = b"switch A\nswitch B\nswitch C\nterminal a A.0\nterminal c C.1\n\
    wire A.1 B.0\nwire B.1 C.0\n";

/// The part of a switch in a round is credit, crossings and turns of its wired ports and all of its claims; that of a
/// terminal is credit, a crossing and an arrival.
#[test]
fn parts_of_a_round(rt: HostRuntime) -> Result<(), Fail> {
    let plan = plan_of(rt.alloc(), ROW)?;
    let result = parts_of_each_kind(&rt, rt.alloc(), &plan);
    drop_plan(plan);
    result
}

fn parts_of_each_kind(rt: &impl Abort, alloc: Global, plan: &Plan) -> Result<(), Fail> {
    let part = part_of(alloc, plan, 1)?;
    assert!(rt; is_part_of_b(&part));
    let part = part_of(alloc, plan, 4)?;
    assert!(rt; is_part_of_c(&part));
    let part = part_of(alloc, plan, 5)?;
    assert!(rt; part.is_empty());
    Ok(())
}

/// The part of the terminal c, which is the node 4.
fn is_part_of_c(part: &[Event]) -> bool {
    match part {
        [
            Event::Credit(Port::Terminal(1)),
            Event::Cross(Port::Terminal(1)),
            Event::Drain { terminal: 1 },
        ] => true,
        _ => false,
    }
}

/// The part of the switch B, which is the node 1.
fn is_part_of_b(part: &[Event]) -> bool {
    match part {
        [
            Event::Credit(Port::Switch(1, 0)),
            Event::Credit(Port::Switch(1, 1)),
            Event::Cross(Port::Switch(1, 0)),
            Event::Cross(Port::Switch(1, 1)),
            Event::Input {
                switch: 1,
                link: 0,
                word: 0,
            },
            Event::Input {
                switch: 1,
                link: 1,
                word: 0,
            },
            claims @ ..,
        ] => are_claims_of_b(claims),
        _ => false,
    }
}

/// Those of each of its inputs, of each of its outputs.
fn are_claims_of_b(claims: &[Event]) -> bool {
    for (number, claim) in claims.iter().enumerate() {
        if !is_claim_of_b(claim, number / 32, number % 32) {
            return false;
        }
    }
    claims.len() == 1024
}

fn is_claim_of_b(event: &Event, input: usize, output: usize) -> bool {
    match event {
        Event::Claim {
            switch: 1,
            input: asks,
            output: wants,
        } => *asks == input && *wants == output,
        _ => false,
    }
}
