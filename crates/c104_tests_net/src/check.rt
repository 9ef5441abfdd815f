use crate::calls::drop_plan;
use crate::plan_calls::{Maker, image, plan_of};
use c104_check::{CheckFault, check};
use c104_plan::{Image, Plan};
use std::alloc::Global;

/// One switch with two terminals, and rows from each to both.
const FIRST: &[u8] = b"switch A\nterminal a A.0\nterminal b A.1\n\
    row A.0 1 0\nrow A.0 2 1\nrow A.1 1 0\nrow A.1 2 1\n";

/// Two switches with a terminal each, and a wire between them.
const PAIR: &[u8] = b"switch A\nswitch B\nterminal a A.0\nterminal b B.0\nwire A.1 B.1\n\
    row A.0 1 0\nrow A.0 2 1\nrow B.1 1 sink\nrow B.1 2 0\n";

/// What is set in an image.
#[derive(Clone, Copy)]
enum Set {
    /// A register of a switch, by its address, to a value.
    Register(usize, u16, u32),
    /// The labels of a terminal, by the first and how many it has.
    Range(usize, u32, u32),
}

/// A fault by its number, with the two terminals that it tells, or a link by its switch and its number.
type Told = (u8, usize, usize);

// These functions promise nothing, since the prover would compute with literals.

/// Whether this is the first fault of a description's image once something is set in it.
fn refuses(alloc: Global, text: &[u8], set: Set, due: Told) -> bool {
    let Some(plan) = plan_of(alloc, text) else {
        return false;
    };
    let result = is_refused(alloc, &plan, set, due);
    drop_plan(plan);
    result
}

fn is_refused(alloc: Global, plan: &Plan, set: Set, due: Told) -> bool {
    let Ok(mut image) = image(alloc, plan, Maker::Lines) else {
        return false;
    };
    takes(&mut image, set) && first_fault(alloc, plan, &image) == Some(due)
}

fn takes(image: &mut Image, set: Set) -> bool {
    match set {
        Set::Register(switch, addr, value) => image.set(switch, addr, value).is_ok(),
        Set::Range(terminal, first, count) => image.set_range(terminal, first, count).is_ok(),
    }
}

/// The first fault of an image, where it is one of labels, of headers' lengths or of where they are deleted.
fn first_fault(alloc: Global, plan: &Plan, image: &Image) -> Option<Told> {
    if !image.fits(plan) {
        return None;
    }
    match check(alloc, plan, image) {
        Err(CheckFault::RangesOverlap(one, other)) => Some((1, one, other)),
        Err(CheckFault::MixedHeaders(port)) => Some((3, port.switch, port.link)),
        Err(CheckFault::DeleteInside(port)) => Some((4, port.switch, port.link)),
        _ => None,
    }
}

/// A description's headers are equally long, but an image's may be set otherwise at one link. That is told, by comparison
/// with the first link that is wired.
#[test]
fn mixed_headers(rt: HostRuntime) {
    assert!(rt; refuses(rt.alloc(), PAIR, Set::Register(1, 0x0100, 1), (3, 1, 0)));
    assert!(rt; refuses(rt.alloc(), PAIR, Set::Register(0, 0x0100, 1), (3, 0, 1)));
}

/// No description has a header deleted on its way from switch to switch, but an image may.
#[test]
fn deleted_between_switches(rt: HostRuntime) {
    assert!(rt; refuses(rt.alloc(), PAIR, Set::Register(0, 0x0200, 2), (4, 0, 1)));
}

/// A label of the first terminal is given to the second too.
#[test]
fn overlapping_ranges(rt: HostRuntime) {
    assert!(rt; refuses(rt.alloc(), FIRST, Set::Range(1, 0, 1), (1, 0, 1)));
}
