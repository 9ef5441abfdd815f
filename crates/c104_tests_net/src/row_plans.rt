use crate::calls::drop_plan;
use crate::plan_calls::{Maker, has_row_plan, image, plan_of};
use c104_plan::Plan;
use std::alloc::Global;

/// Two switches with a terminal each, and a wire between them.
const PAIR: &[u8] = b"switch A\nswitch B\nterminal a A.0\nterminal b B.0\nwire A.1 B.1\n\
    row A.0 1 0\nrow A.0 2 1\nrow B.1 1 sink\nrow B.1 2 0\n";

/// A register of a switch, by its address, and a value.
type Set = (usize, u16, u32);

// These functions promise nothing, since the prover would compute with literals.

/// Whether a plan by hand has the image of the two switches once a register is set in it.
fn has_lines(alloc: Global, set: Set) -> Option<bool> {
    let plan = plan_of(alloc, PAIR)?;
    let result = has_lines_with(alloc, &plan, set);
    drop_plan(plan);
    result
}

fn has_lines_with(alloc: Global, plan: &Plan, set: Set) -> Option<bool> {
    let Ok(mut image) = image(alloc, plan, Maker::Lines) else {
        return None;
    };
    let Ok(()) = image.set(set.0, set.1, set.2) else {
        return None;
    };
    has_row_plan(alloc, plan, &image)
}

/// Lines can say rows, a base, a continued group and headers that are deleted on the way to a terminal.
#[test]
fn said(rt: HostRuntime) {
    assert!(rt; has_lines(rt.alloc(), (0, 0x0145, 9)) == Some(true));
    assert!(rt; has_lines(rt.alloc(), (1, 0x203f, 9)) == Some(true));
    assert!(rt; has_lines(rt.alloc(), (0, 0x0600, 8)) == Some(true));
    assert!(rt; has_lines(rt.alloc(), (0, 0x0100, 2)) == Some(true));
}

/// They can't say that a link has longer headers than others, or that headers are deleted between switches.
#[test]
fn headers_unsaid(rt: HostRuntime) {
    assert!(rt; has_lines(rt.alloc(), (0, 0x0100, 1)) == Some(false));
    assert!(rt; has_lines(rt.alloc(), (0, 0x0200, 2)) == Some(false));
}

/// Nor that link 0 continues a group, or where random headers begin that there aren't.
#[test]
fn bits_unsaid(rt: HostRuntime) {
    assert!(rt; has_lines(rt.alloc(), (0, 0x0100, 8)) == Some(false));
    assert!(rt; has_lines(rt.alloc(), (0, 0x0101, 7)) == Some(false));
}
