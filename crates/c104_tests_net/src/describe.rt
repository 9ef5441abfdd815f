use crate::calls::drop_plan;
use crate::plan_calls::{peer, plan_of, printed};
use c104_plan::{Plan, Port};
use std::alloc::Global;

// These functions promise nothing, since the prover would compute with the literal texts of a description.

/// Whether this is printed of the plan of a description.
fn prints(alloc: Global, text: &[u8], expected: &str) -> bool {
    let Some(plan) = plan_of(alloc, text) else {
        return false;
    };
    let result = is_printed(alloc, &plan, expected);
    drop_plan(plan);
    result
}

fn is_printed(alloc: Global, plan: &Plan, expected: &str) -> bool {
    let Some(text) = printed(alloc, plan) else {
        return false;
    };
    text.as_str() == expected
}

/// Whether a description's plan has this count of wires, and the links of a switch, from link 0 on, lead to these ends.
fn fills(alloc: Global, text: &[u8], wires: usize, switch: usize, ends: &[Option<Port>]) -> bool {
    let Some(plan) = plan_of(alloc, text) else {
        return false;
    };
    let result = is_filled(&plan, wires, switch, ends);
    drop_plan(plan);
    result
}

fn is_filled(plan: &Plan, wires: usize, switch: usize, ends: &[Option<Port>]) -> bool {
    plan.wires().len() == wires && leads(plan, switch, ends)
}

fn leads(plan: &Plan, switch: usize, ends: &[Option<Port>]) -> bool {
    for (link, end) in ends.iter().enumerate() {
        if peer(plan, Port::Switch(switch, link)) != *end {
            return false;
        }
    }
    true
}

/// A plan is printed kind by kind, each terminal with its labels, and the table of a switch once.
#[test]
fn prints_lines(rt: HostRuntime) {
    let text = b"switch A\nterminal a A.0\nterminal b A.1\n\
        row A.0 1 0\nrow A.0 2 1\nrow A.1 1 0\nrow A.1 2 1\n";
    let expected = "header 1\nbuffer 16\nswitch A\n\
        terminal a A.0 labels 1 from 0\nterminal b A.1 labels 1 from 1\nrow A 1 0\nrow A 2 1\n";
    assert!(rt; prints(rt.alloc(), text, expected));
}

/// So are two-byte headers and random ones, with the rows that discard them.
#[test]
fn prints_random_headers(rt: HostRuntime) {
    let text = b"switch A\nrandom A.0 300 2\nrow A.0 300 0\nrow A.0 302 discard\n\
        terminal a A.0 labels 300\nheader 2\n";
    let expected = "header 2\nbuffer 16\nswitch A\nterminal a A.0 labels 300 from 0\n\
        random A.0 300 2\nrow A 300 0\nrow A 302 discard\n";
    assert!(rt; prints(rt.alloc(), text, expected));
}

/// A plan that a labeller labels is printed without what it gives.
#[test]
fn prints_a_tree(rt: HostRuntime) {
    let text = b"buffer 8\nswitch A\nlabel tree A\nswitch B\nwire A.1 B.0\n\
        terminal a A.0 labels 2\nterminal b B.1\ndelete b\n";
    let expected = "header 1\nbuffer 8\nswitch A\nswitch B\n\
        terminal a A.0 labels 2\nterminal b B.1 labels 1\nwire A.1 B.0\nlabel tree A\ndelete b\n";
    assert!(rt; prints(rt.alloc(), text, expected));
}

/// So is one that is labelled up and down.
#[test]
fn prints_up_down(rt: HostRuntime) {
    let text = b"switch A\nlabel up-down A\nterminal a A.0\n";
    let expected = "header 1\nbuffer 16\nswitch A\nterminal a A.0 labels 1\nlabel up-down A\n";
    assert!(rt; prints(rt.alloc(), text, expected));
    let text = b"label up-down\nswitch A\ncontinue A.1\n";
    let expected = "header 1\nbuffer 16\nswitch A\nlabel up-down\ncontinue A.1\n";
    assert!(rt; prints(rt.alloc(), text, expected));
}

/// A mesh and a cube are printed by their sizes.
#[test]
fn prints_sizes(rt: HostRuntime) {
    let mesh = b"mesh 3 2 1\ndelete t5\nbuffer 64\n";
    let expected = "header 1\nbuffer 64\nmesh 3 2 1\ndelete t5\n";
    assert!(rt; prints(rt.alloc(), mesh, expected));
    let expected = "header 1\nbuffer 16\ncube 3 1\n";
    assert!(rt; prints(rt.alloc(), b"cube 3 1\n", expected));
}

/// A mesh's links lead where they should, and terminals are on the links behind them.
#[test]
fn fills_a_mesh(rt: HostRuntime) {
    // The switch in the middle of the second row: up, left, right, nothing below, and its terminal.
    let ends = [
        Some(Port::Switch(1, 3)),
        Some(Port::Switch(3, 2)),
        Some(Port::Switch(5, 1)),
        None,
        Some(Port::Terminal(4)),
        None,
    ];
    assert!(rt; fills(rt.alloc(), b"mesh 3 2 1\n", 7, 4, ends.as_slice()));
}

/// So do a cube's.
#[test]
fn fills_a_cube(rt: HostRuntime) {
    let ends = [
        Some(Port::Switch(4, 0)),
        Some(Port::Switch(7, 1)),
        Some(Port::Switch(1, 2)),
        Some(Port::Terminal(10)),
        Some(Port::Terminal(11)),
        None,
    ];
    assert!(rt; fills(rt.alloc(), b"cube 3 2\n", 12, 5, ends.as_slice()));
}

/// A torus's first row and column are neighbours of its last, and each wire is made twice.
#[test]
fn fills_a_torus(rt: HostRuntime) {
    // The switch in the middle of the second row: above and below it is the same one.
    let ends = [
        Some(Port::Switch(1, 6)),
        Some(Port::Switch(1, 7)),
        Some(Port::Switch(3, 4)),
        Some(Port::Switch(3, 5)),
        Some(Port::Switch(5, 2)),
        Some(Port::Switch(5, 3)),
        Some(Port::Switch(1, 0)),
        Some(Port::Switch(1, 1)),
        Some(Port::Terminal(4)),
        None,
    ];
    assert!(rt; fills(rt.alloc(), b"torus 3 2 1\n", 24, 4, ends.as_slice()));
}

/// Each leaf of a folded Clos network is wired to each spine.
#[test]
fn fills_a_clos_network(rt: HostRuntime) {
    let ends = [
        Some(Port::Switch(3, 1)),
        Some(Port::Switch(4, 1)),
        Some(Port::Terminal(1)),
        None,
    ];
    assert!(rt; fills(rt.alloc(), b"clos 3 2 1\n", 6, 1, ends.as_slice()));
}
