use crate::calls::drop_plan;
use crate::plan_calls::{Maker, image, peer, plan_of, settings};
use c104_check::{CheckFault, check};
use c104_interval::Select;
use c104_label::{label_cube, label_mesh};
use c104_plan::{Image, Plan, Port};
use std::alloc::Global;

const MESH: &[u8] = b"mesh 3 2 1\n";

const CUBE: &[u8] = b"cube 3 1\n";

// Of the answers of the check only those are matched that the labellers leave: the rest is proved not to come.

/// Whether the labels of a mesh are accepted.
fn accepts_mesh(alloc: Global, plan: &Plan) -> bool {
    let Ok(image) = label_mesh(alloc, plan) else {
        return false;
    };
    match check(alloc, plan, &image) {
        Ok(_) => true,
        Err(CheckFault::NoMemory) => false,
        Err(_) => unreachable!(),
    }
}

/// The same of a cube.
fn accepts_cube(alloc: Global, plan: &Plan) -> bool {
    let Ok(image) = label_cube(alloc, plan) else {
        return false;
    };
    match check(alloc, plan, &image) {
        Ok(_) => true,
        Err(CheckFault::NoMemory) => false,
        Err(_) => unreachable!(),
    }
}

// These functions promise nothing, since the prover would compute with literals.

/// Whether the labels of a description of a mesh are accepted, or else of a cube.
fn accepts(alloc: Global, text: &[u8], is_mesh: bool) -> bool {
    let Some(plan) = plan_of(alloc, text) else {
        return false;
    };
    let result = accepts_plan(alloc, &plan, is_mesh);
    drop_plan(plan);
    result
}

/// The same of a plan.
fn accepts_plan(alloc: Global, plan: &Plan, is_mesh: bool) -> bool {
    if is_mesh {
        accepts_mesh(alloc, plan)
    } else {
        accepts_cube(alloc, plan)
    }
}

/// Whether a header comes from a terminal over exactly these inputs to another.
fn goes(
    alloc: Global,
    text: &[u8],
    ends: (usize, usize),
    header: u32,
    inputs: &[(usize, usize)],
) -> bool {
    let Some(plan) = plan_of(alloc, text) else {
        return false;
    };
    let result = goes_over(alloc, &plan, ends, header, inputs);
    drop_plan(plan);
    result
}

/// The same of a plan.
fn goes_over(
    alloc: Global,
    plan: &Plan,
    (from, to): (usize, usize),
    header: u32,
    inputs: &[(usize, usize)],
) -> bool {
    let Ok(image) = image(alloc, plan, Maker::Any) else {
        return false;
    };
    walks(plan, &image, from, header, inputs) == Some(to)
}

/// The terminal where a header ends that comes from a terminal over exactly these inputs.
fn walks(
    plan: &Plan,
    image: &Image,
    from: usize,
    header: u32,
    inputs: &[(usize, usize)],
) -> Option<usize> {
    let mut at = peer(plan, Port::Terminal(from));
    for (switch, link) in inputs {
        if at != Some(Port::Switch(*switch, *link)) {
            return None;
        }
        at = next(plan, image, *switch, *link, header);
    }
    match at {
        Some(Port::Terminal(terminal)) => Some(terminal),
        _ => None,
    }
}

/// Where a header leads from an input of a switch.
fn next(plan: &Plan, image: &Image, switch: usize, link: usize, header: u32) -> Option<Port> {
    match settings(image, switch, link)?.select(header) {
        Select::Link(link) => peer(plan, Port::Switch(switch, usize::from(link))),
        Select::Discard | Select::Sink => None,
    }
}

/// A label goes along its column first, and then along the row.
#[test]
fn over_a_mesh(rt: HostRuntime) {
    let inputs = [(0, 4), (3, 0), (4, 1), (5, 1)];
    assert!(rt; goes(rt.alloc(), MESH, (0, 5), 5, inputs.as_slice()));
    let inputs = [(5, 4), (2, 3), (1, 2), (0, 2)];
    assert!(rt; goes(rt.alloc(), MESH, (5, 0), 0, inputs.as_slice()));
    assert!(rt; goes(rt.alloc(), MESH, (4, 4), 4, [(4, 4)].as_slice()));
}

/// A label goes by the highest bit that differs.
#[test]
fn over_a_cube(rt: HostRuntime) {
    let inputs = [(1, 3), (5, 2), (7, 1), (6, 0)];
    assert!(rt; goes(rt.alloc(), CUBE, (1, 6), 6, inputs.as_slice()));
    let inputs = [(6, 3), (2, 2), (0, 1), (1, 0)];
    assert!(rt; goes(rt.alloc(), CUBE, (6, 1), 1, inputs.as_slice()));
    assert!(rt; goes(rt.alloc(), CUBE, (3, 3), 3, [(3, 3)].as_slice()));
}

/// Labels are accepted where there is memory for it, also where headers are deleted at terminals, and where they have
/// two bytes.
#[test]
fn accepted(rt: HostRuntime) {
    assert!(rt; accepts(rt.alloc(), b"mesh 3 2 1\ndelete t5\nbuffer 64\n", true));
    assert!(rt; accepts(rt.alloc(), b"cube 3 2\ndelete t15\nheader 2\n", false));
}
